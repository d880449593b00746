//! Metadata of small graphs. `app` is their member, at `/w`; other crates come from crates.io and lie below `/r`.

/// `app` needs `x`.
pub(crate) const APP_X: &str = r#"{"packages":[
{"name":"app","version":"0.1.0","id":"app","manifest_path":"/w/Cargo.toml","dependencies":[{"name":"x","req":"*"}]},
{"name":"x","version":"1.0.0","id":"x","manifest_path":"/r/x-1.0.0/Cargo.toml","source":"registry+https://github.com/rust-lang/crates.io-index"}],
"workspace_members":["app"],"workspace_root":"/w",
"resolve":{"nodes":[{"id":"app","deps":[{"pkg":"x"}]},{"id":"x"}]}}"#;

/// `app` needs two versions of `x`.
pub(crate) const TWO_X: &str = r#"{"packages":[
{"name":"app","version":"0.1.0","id":"app","manifest_path":"/w/Cargo.toml"},
{"name":"x","version":"1.0.0","id":"x1","manifest_path":"/r/x-1.0.0/Cargo.toml","source":"registry+https://github.com/rust-lang/crates.io-index"},
{"name":"x","version":"2.0.0","id":"x2","manifest_path":"/r/x-2.0.0/Cargo.toml","source":"registry+https://github.com/rust-lang/crates.io-index"}],
"workspace_members":["app"],"workspace_root":"/w",
"resolve":{"nodes":[{"id":"app","deps":[{"pkg":"x1"},{"pkg":"x2"}]},{"id":"x1"},{"id":"x2"}]}}"#;

/// `app` needs `x`, whose features `default` and `std` are enabled; `default` leads to `std`.
pub(crate) const FEATURES: &str = r#"{"packages":[
{"name":"app","version":"0.1.0","id":"app","manifest_path":"/w/Cargo.toml","dependencies":[{"name":"x","req":"^1.0.0","uses_default_features":true}]},
{"name":"x","version":"1.0.0","id":"x","manifest_path":"/r/x-1.0.0/Cargo.toml","source":"registry+https://github.com/rust-lang/crates.io-index",
"features":{"default":["std"],"std":[]}}],
"workspace_members":["app"],"workspace_root":"/w",
"resolve":{"nodes":[{"id":"app","deps":[{"pkg":"x"}]},{"id":"x","features":["default","std"]}]}}"#;

/// The member `b` needs `a`.
pub(crate) const B_NEEDS_A: &str = r#"{"packages":[
{"name":"a","version":"1.0.0","id":"a","manifest_path":"/r/a-1.0.0/Cargo.toml"},
{"name":"b","version":"0.1.0","id":"b","manifest_path":"/w/Cargo.toml"}],
"workspace_members":["b"],"workspace_root":"/w",
"resolve":{"nodes":[{"id":"a"},{"id":"b","deps":[{"pkg":"a"}]}]}}"#;

/// `app` needs two versions of the procedural macro `p`.
pub(crate) const TWO_P: &str = r#"{"packages":[
{"name":"app","version":"0.1.0","id":"app","manifest_path":"/w/Cargo.toml"},
{"name":"p","version":"1.0.0","id":"p1","manifest_path":"/r/p-1.0.0/Cargo.toml","source":"registry+https://github.com/rust-lang/crates.io-index",
"targets":[{"kind":["proc-macro"],"src_path":"/r/p-1.0.0/src/lib.rs"}]},
{"name":"p","version":"2.0.0","id":"p2","manifest_path":"/r/p-2.0.0/Cargo.toml","source":"registry+https://github.com/rust-lang/crates.io-index",
"targets":[{"kind":["proc-macro"],"src_path":"/r/p-2.0.0/src/lib.rs"}]}],
"workspace_members":["app"],"workspace_root":"/w",
"resolve":{"nodes":[{"id":"app","deps":[{"pkg":"p1"},{"pkg":"p2"}]},{"id":"p1"},{"id":"p2"}]}}"#;
