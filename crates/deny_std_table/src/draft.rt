//! Bytes that are being written. All are counted up to the limit, and kept as long as there is memory, so that
//! bytes that are too long are known as such with little memory.

ghost use Rattle.std.specs.Prelude.{◌≡◌, ◌≤◌, ◌<◌, ◌++◌, ◌↔◌, ℕ, nat_le, List, [], ◌∷◌, length, Err, IfOk};
ghost use Rattle.deny_std_table.specs.Spelling.{number_bytes, text_bytes};
ghost use Rattle.deny_std_table.specs.private.Draft.{IsDraft, Writes};

use crate::error::UpgradeError;
use std::alloc::Global;

/// The least number of bytes that is too many.
const LIMIT: usize = 268435456;

/// Bytes that are being written.
#[derive(Drop)]
pub(crate) struct Draft {
    pub bytes: Vec<u8>,
    pub size: usize,
    pub whole: bool,
}

impl Draft {
    /// No bytes yet.
    pub fn new(alloc: Global) -> Draft
        ensures { IsDraft result [] }
    {
        Draft {
            bytes: Vec::new(alloc),
            size: 0,
            whole: true,
        }
    }

    /// Whether there are too many bytes already.
    pub fn is_long(&self) -> bool
        ensures { result ≡ nat_le 268435456 self.now.size }
    {
        self.size >= LIMIT
    }

    /// Appends one byte.
    pub fn put(&mut self, byte: u8)
        ensures { Writes self.old self.new (byte ∷ []) }
    {
        if self.size < LIMIT {
            self.size += 1;
        }
        self.whole = self.whole && self.size < LIMIT && self.bytes.push(byte).is_ok();
    }

    /// Appends bytes.
    fn put_all(&mut self, bytes: &[u8])
        ensures { Writes self.old self.new bytes.now }
    {
        for byte in bytes {
            self.put(*byte);
        }
    }

    /// Appends a number in two bytes.
    fn put_two(&mut self, number: usize)
        ensures { Writes self.old self.new (number_bytes 2 number) }
    {
        self.put((number % 256) as u8);
        self.put((number / 256 % 256) as u8);
    }

    /// Appends a number in four bytes.
    pub fn put_four(&mut self, number: usize)
        ensures { Writes self.old self.new (number_bytes 4 number) }
    {
        self.put_two(number);
        self.put_two(number / 256 / 256);
    }

    /// Appends a text: its length, and its bytes.
    pub fn put_text(&mut self, text: &[u8])
        ensures { Writes self.old self.new (text_bytes text.now) }
    {
        self.put_two(text.len());
        self.put_all(text);
    }

    /// All bytes, with others after them.
    pub fn joined(self, later: Draft) -> Result<Vec<u8>, UpgradeError>
        ensures bytes { (xs ys : List ℕ) → IsDraft self xs → IsDraft later ys
            → IfOk result (λ bytes. bytes.items ≡ xs ++ ys) }
        ensures short { (xs ys : List ℕ) → IsDraft self xs → IsDraft later ys
            → IfOk result (λ bytes. length bytes.items < 268435456) }
        ensures long { (xs ys : List ℕ) → IsDraft self xs → IsDraft later ys
            → (result ≡ Err UpgradeError.Long) ↔ (268435456 ≤ length (xs ++ ys)) }
    {
        if self.size >= LIMIT || later.size >= LIMIT - self.size {
            return Err(UpgradeError::Long);
        }
        if !self.whole || !later.whole {
            return Err(UpgradeError::Memory);
        }
        let mut bytes = self.bytes;
        bytes.extend_from_slice(later.bytes.as_slice())?;
        Ok(bytes)
    }
}
