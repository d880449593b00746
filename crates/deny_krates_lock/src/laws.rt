ghost use Rattle.deny_krates_lock.specs.Text.{LinesAscend};

use deny_krates::Krates;

/// Of two crates, the line in the lock text of the one that is lower by name,
/// precedence and id ends before the line of the other begins.
pub fn lines_ascend(krates: &Krates)
    ensures { LinesAscend krates.now.crates }
{
    krates.krates();
}
