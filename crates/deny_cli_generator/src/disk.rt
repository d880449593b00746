//! The disk of the generated graph.
ghost use Rattle.std.specs.Prelude.{◌≡◌, codes, IfOk};
ghost use Rattle.std.specs.FinMap as finite;
ghost use Rattle.deny_base_disk.specs.MemoryDisk.{with_file};

use deny_base_disk::SureDisk;
use deny_base_lists::NoMemory;
use std::alloc::Global;

/// A disk that never fails and has one file, the manifest of the member `app`.
pub fn disk_of(alloc: Global) -> Result<SureDisk, NoMemory>
    ensures { IfOk result (λ disk. disk ≡ record {
      files = with_file finite.empty (codes "/w/Cargo.toml") (codes "[package]\nname = \"app\"\n");
      given = 0;
      listed = 0;
    }) }
{
    let mut disk = SureDisk::new(alloc);
    disk.put_file("/w/Cargo.toml", b"[package]\nname = \"app\"\n")?;
    Ok(disk)
}
