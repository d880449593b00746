//! Metadata of small graphs. `app` is their member, at `/w`; other crates come from crates.io and lie below `/r`.

/// `app` needs `x`.
pub(crate) const APP_X: &str = r#"{"packages":[
{"name":"app","version":"0.1.0","id":"app","manifest_path":"/w/Cargo.toml","dependencies":[{"name":"x","req":"*"}]},
{"name":"x","version":"1.0.0","id":"x","manifest_path":"/r/x-1.0.0/Cargo.toml","source":"registry+https://github.com/rust-lang/crates.io-index"}],
"workspace_members":["app"],"workspace_root":"/w",
"resolve":{"nodes":[{"id":"app","deps":[{"pkg":"x"}]},{"id":"x"}]}}"#;

/// `app` and `y` need `x`, and `app` needs `y`.
pub(crate) const APP_X_Y: &str = r#"{"packages":[
{"name":"app","version":"0.1.0","id":"app","manifest_path":"/w/Cargo.toml"},
{"name":"x","version":"1.0.0","id":"x","manifest_path":"/r/x-1.0.0/Cargo.toml","source":"registry+https://github.com/rust-lang/crates.io-index"},
{"name":"y","version":"1.0.0","id":"y","manifest_path":"/r/y-1.0.0/Cargo.toml","source":"registry+https://github.com/rust-lang/crates.io-index"}],
"workspace_members":["app"],"workspace_root":"/w",
"resolve":{"nodes":[{"id":"app","deps":[{"pkg":"x"},{"pkg":"y"}]},{"id":"x"},{"id":"y","deps":[{"pkg":"x"}]}]}}"#;

/// `app` needs two versions of `x`.
pub(crate) const TWO_X: &str = r#"{"packages":[
{"name":"app","version":"0.1.0","id":"app","manifest_path":"/w/Cargo.toml"},
{"name":"x","version":"1.0.0","id":"x1","manifest_path":"/r/x-1.0.0/Cargo.toml","source":"registry+https://github.com/rust-lang/crates.io-index"},
{"name":"x","version":"2.0.0","id":"x2","manifest_path":"/r/x-2.0.0/Cargo.toml","source":"registry+https://github.com/rust-lang/crates.io-index"}],
"workspace_members":["app"],"workspace_root":"/w",
"resolve":{"nodes":[{"id":"app","deps":[{"pkg":"x1"},{"pkg":"x2"}]},{"id":"x1"},{"id":"x2"}]}}"#;

/// `app` needs two versions of the procedural macro `p`.
pub(crate) const TWO_P: &str = r#"{"packages":[
{"name":"app","version":"0.1.0","id":"app","manifest_path":"/w/Cargo.toml"},
{"name":"p","version":"1.0.0","id":"p1","manifest_path":"/r/p-1.0.0/Cargo.toml","source":"registry+https://github.com/rust-lang/crates.io-index",
"targets":[{"kind":["proc-macro"],"src_path":"/r/p-1.0.0/src/lib.rs"}]},
{"name":"p","version":"2.0.0","id":"p2","manifest_path":"/r/p-2.0.0/Cargo.toml","source":"registry+https://github.com/rust-lang/crates.io-index",
"targets":[{"kind":["proc-macro"],"src_path":"/r/p-2.0.0/src/lib.rs"}]}],
"workspace_members":["app"],"workspace_root":"/w",
"resolve":{"nodes":[{"id":"app","deps":[{"pkg":"p1"},{"pkg":"p2"}]},{"id":"p1"},{"id":"p2"}]}}"#;

/// `app`, whose licence is `Apache-2.0`, needs `x`, whose licence is `MIT/Apache-2.0`.
pub(crate) const TWO_LICENCES: &str = r#"{"packages":[
{"name":"app","version":"0.1.0","id":"app","manifest_path":"/w/Cargo.toml","license":"Apache-2.0"},
{"name":"x","version":"1.0.0","id":"x","manifest_path":"/r/x-1.0.0/Cargo.toml","license":"MIT/Apache-2.0","source":"registry+https://github.com/rust-lang/crates.io-index"}],
"workspace_members":["app"],"workspace_root":"/w",
"resolve":{"nodes":[{"id":"app","deps":[{"pkg":"x"}]},{"id":"x"}]}}"#;

/// `app`, whose licence is `Apache-2.0`, needs `x`, whose licence is `MIT`.
pub(crate) const ONE_LICENCE_EACH: &str = r#"{"packages":[
{"name":"app","version":"0.1.0","id":"app","manifest_path":"/w/Cargo.toml","license":"Apache-2.0"},
{"name":"x","version":"1.0.0","id":"x","manifest_path":"/r/x-1.0.0/Cargo.toml","license":"MIT","source":"registry+https://github.com/rust-lang/crates.io-index"}],
"workspace_members":["app"],"workspace_root":"/w",
"resolve":{"nodes":[{"id":"app","deps":[{"pkg":"x"}]},{"id":"x"}]}}"#;

/// The members `a` and `b`, at `/w/a` and `/w/b`, need `x`.
pub(crate) const TWO_MEMBERS: &str = r#"{"packages":[
{"name":"a","version":"1.0.0","id":"a","manifest_path":"/w/a/Cargo.toml","dependencies":[{"name":"x","req":"^1"}]},
{"name":"b","version":"1.0.0","id":"b","manifest_path":"/w/b/Cargo.toml","dependencies":[{"name":"x","req":"^1"}]},
{"name":"x","version":"1.0.0","id":"x","manifest_path":"/r/x-1.0.0/Cargo.toml","source":"registry+https://github.com/rust-lang/crates.io-index"}],
"workspace_members":["a","b"],"workspace_root":"/w",
"resolve":{"nodes":[{"id":"a","deps":[{"pkg":"x"}]},{"id":"b","deps":[{"pkg":"x"}]},{"id":"x"}]}}"#;
