ghost use Rattle.std.specs.Prelude.{◌≤◌, ℕ, List, Option, OnOk, OnErr};
ghost use Rattle.deny_base_disk.specs.Count.{Rose};
ghost use Rattle.deny_base_disk.specs.Out.{Appends, AppendsPrefix};

use thiserror::Error;

/// An output did not take all bytes.
#[derive(Debug, Clone, Copy, Error)]
#[error("the output did not take all bytes")]
pub struct OutFault;

/// An output. `written` is the bytes that it took, where it tells that; `faults` counts the calls
/// that failed, and never falls.
pub trait Out {
    ghost written: { Self → Option (List ℕ) };

    ghost faults: { Self → ℕ };

    /// Writes all of `bytes`. After an `OutFault` the output took the first of them, maybe none.
    fn put(&mut self, bytes: &[u8]) -> Result<(), OutFault>
        ensures ok { OnOk result (Appends (written self.old) (written self.new) bytes.now) }
        ensures prefix { OnErr result
            (AppendsPrefix (written self.old) (written self.new) bytes.now) }
        ensures later { faults self.old ≤ faults self.new }
        ensures failed { OnErr result (Rose (faults self.old) (faults self.new)) };
}
