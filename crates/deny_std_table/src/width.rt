//! The length of a text, which has one byte in version 1 of the format and two in version 2.

ghost use Rattle.std.specs.Prelude.{◌≡◌, ◌+◌, ◌≤◌, ◌<◌, length};
ghost use Rattle.deny_std_table.specs.Reading.{number};
ghost use Rattle.deny_std_table.specs.Width.{width_of};

/// The number of bytes of the length of a text.
#[derive(Clone, Copy)]
pub(crate) enum Width {
    One,
    Two,
}

impl Width {
    /// The number as a `usize`.
    pub fn bytes(self) -> usize
        ensures value { result ≡ width_of self }
        ensures some { 0 < result }
        ensures few { result ≤ 2 }
    {
        match self {
            Width::One => 1,
            Width::Two => 2,
        }
    }

    /// The length at an offset.
    #[tactic(auto, unfolding(crate::specs::Reading::number))]
    pub fn length_at(self, bytes: &[u8], at: usize) -> usize
        requires { at + width_of self ≤ length bytes.now }
        ensures { result ≡ number (width_of self) bytes.now at }
    {
        match self {
            Width::One => bytes[at] as usize,
            Width::Two => u16::from_le_bytes([bytes[at], bytes[at + 1]]) as usize,
        }
    }
}
