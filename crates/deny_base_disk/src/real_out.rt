ghost use Rattle.std.specs.Prelude.{◌≡◌, ◌≤◌, ℕ, length, take, None, OnOk, OnErr};
ghost use Rattle.std.specs.Io.KnownBytes.{Appends};

use crate::out::{Out, OutFault};
use std::io::Write;

#[derive(Clone, Copy)]
enum Stream {
    Out,
    Err,
}

/// Standard output or standard error. It tells nothing of what was written.
#[derive(Drop)]
pub struct RealOut<'r> {
    rt: &'r HostRuntime,
    stream: Stream,
    faults: u64,
}

impl<'r> RealOut<'r> {
    /// Standard output, with a count of 0.
    pub fn out(rt: &'r HostRuntime) -> RealOut<'r>
        ensures { ⟦<RealOut<'r> as Out>⟧.faults result ≡ 0 }
    {
        RealOut {
            rt,
            stream: Stream::Out,
            faults: 0,
        }
    }

    /// Standard error, with a count of 0.
    pub fn err(rt: &'r HostRuntime) -> RealOut<'r>
        ensures { ⟦<RealOut<'r> as Out>⟧.faults result ≡ 0 }
    {
        RealOut {
            rt,
            stream: Stream::Err,
            faults: 0,
        }
    }
}

/// Writes all of the bytes, or stops where a write fails or takes nothing.
fn write_all<W: Write>(writer: &mut W, bytes: &[u8]) -> Result<(), OutFault>
    ensures ok { OnOk result (Appends (W.contents writer.old) (W.contents writer.new) bytes.now) }
    ensures prefix { OnErr result ((n : ℕ) × (n ≤ length bytes.now)
        × Appends (W.contents writer.old) (W.contents writer.new) (take n bytes.now)) }
{
    let mut rest = bytes;
    while !rest.is_empty() {
        match writer.write(rest) {
            Ok(n) if n > 0 => rest = &rest[n..],
            _ => return Err(OutFault),
        }
    }
    Ok(())
}

impl<'r> Out for RealOut<'r> {
    ghost written = { λ _. None };

    ghost faults = { λ out. out.faults };

    fn put(&mut self, bytes: &[u8]) -> Result<(), OutFault> {
        let result = match self.stream {
            Stream::Out => write_all(&mut self.rt.stdout(), bytes),
            Stream::Err => write_all(&mut self.rt.stderr(), bytes),
        };
        if result.is_err() {
            self.faults = self.faults.saturating_add(1);
        }
        result
    }
}
