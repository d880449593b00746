//! A whole run on files of the system.
use deny_base_disk::{MemoryOut, RealDisk};
use deny_base_lists::NoMemory;
use deny_cli::run;
use std::alloc::Global;
use std::fs;

/// `app` needs the procedural macro `p`, whose package has a native executable.
const GRAPH: &str = r#"{"packages":[
{"name":"app","version":"0.1.0","id":"app","manifest_path":"w/Cargo.toml","dependencies":[{"name":"p","req":"^1"}]},
{"name":"p","version":"1.0.0","id":"p","manifest_path":"r/p-1.0.0/Cargo.toml","source":"registry+https://github.com/rust-lang/crates.io-index",
"targets":[{"kind":["proc-macro"],"src_path":"r/p-1.0.0/src/lib.rs"}]}],
"workspace_members":["app"],"workspace_root":"w",
"resolve":{"nodes":[{"id":"app","deps":[{"pkg":"p"}]},{"id":"p"}]}}"#;

const POLICY: &str = "[bans]\nskip = [\"q@1\"]\n\n[bans.build]\n";

const ELF: &str = "\x7fELF\0\0\0\0\0\0\0\0\0\0\0\0";

fn make_texts(rt: &HostRuntime) -> bool {
    fs::write(rt, "deny.toml", POLICY).is_ok() && fs::write(rt, "metadata.json", GRAPH).is_ok()
}

fn make_folders(rt: &HostRuntime) -> bool {
    fs::create_dir_all(rt, "w").is_ok()
        && fs::create_dir_all(rt, "r/p-1.0.0").is_ok()
        && fs::write(rt, "w/Cargo.toml", "[package").is_ok()
        && fs::write(rt, "r/p-1.0.0/run", ELF).is_ok()
}

fn remove_all(rt: &HostRuntime) -> bool {
    fs::remove_dir_all(rt, "w").is_ok()
        && fs::remove_dir_all(rt, "r").is_ok()
        && fs::remove_file(rt, "deny.toml").is_ok()
        && fs::remove_file(rt, "metadata.json").is_ok()
}

fn arguments(alloc: Global) -> Result<Vec<String>, NoMemory> {
    let mut words = Vec::new(alloc);
    for word in ["check", "deny.toml", "metadata.json"] {
        words.push(String::from_str(alloc, word)?)?;
    }
    Ok(words)
}

const LINES: &str =
    "{\"fields\":{\"code\":\"detected-executable\",\"graphs\":[],\"message\":\"detected executable\",\
    \"notes\":[\"path = '$crate/run'\",\"executable-kind = 'elf'\"],\"severity\":\"error\"},\"type\":\"diagnostic\"}\n\
    {\"fields\":{\"code\":\"unmatched-skip\",\"graphs\":[],\
    \"labels\":[{\"column\":10,\"line\":2,\"message\":\"unmatched skip configuration\",\"span\":\"q\"}],\
    \"message\":\"skipped crate 'q = 1' was not encountered\",\"severity\":\"warning\"},\"type\":\"diagnostic\"}\n\
    {\"fields\":{\"end\":17,\"kind\":\"skip\",\"start\":16},\"type\":\"dead\"}\n\
    {\"fields\":{\"path\":\"w/Cargo.toml\"},\"type\":\"malformed\"}\n\
    {\"fields\":{\"bits\":2,\"verdict\":\"fail\"},\"type\":\"verdict\"}\n";

/// Whether a run writes these lines and nothing else, and ends with status 2.
fn is_run(rt: &HostRuntime) -> Result<bool, NoMemory> {
    let words = arguments(rt.alloc())?;
    let mut disk = RealDisk::new(rt);
    let mut out = MemoryOut::new(rt.alloc(), 10000)?;
    let mut err = MemoryOut::new(rt.alloc(), 10000)?;
    let ended = run(rt.alloc(), words.as_slice(), &mut disk, &mut out, &mut err);
    Ok(ended.status == 2 && out.bytes() == LINES.as_bytes() && err.bytes().is_empty())
}

#[test]
fn a_run_reads_the_files_of_the_system(rt: HostRuntime) {
    let made = make_texts(&rt) && make_folders(&rt);
    let ran = matches!(is_run(&rt), Ok(true));
    let removed = remove_all(&rt);
    assert!(rt; made && ran && removed);
}
