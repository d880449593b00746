ghost use Rattle.std.specs.Prelude.{◌≡◌, Some, Ok, List, ℕ, length};
ghost use Rattle.hex.specs.Hex.{IsBytes, encode_lower};
ghost use Rattle.deny_cfg_tables.specs.Checksum.{checksum_in, checksum_of};
ghost use Rattle.deny_cfg_tables.specs.private.Checksum.{NamesCharacter, character_of, checksum_view};
ghost use Rattle.deny_cfg_entries.specs.Words.{faults_as, ReadsAs};

use deny_toml::{DeserError, Deserialize, Value};
use hex::FromHexError;
use std::alloc::Global;
use std::fmt;
use std::str::FromStr;
use thiserror::Error;

/// The SHA-256 digest of a file, as 64 hex digits: of either case where it is read, of lower case where it
/// is displayed.
#[derive(Clone, PartialEq, Eq, Drop)]
pub struct Checksum(pub [u8; 32]);

/// Why a text is no checksum.
#[derive(Debug, Clone, Copy, Error)]
pub enum ChecksumParseError {
    /// The text does not have 64 bytes; its length.
    #[error("a checksum has 64 hex digits, and not {0}")]
    InvalidLength(usize),
    /// The first byte that is no hex digit, as the character of that code.
    #[error("`{0}` is no hex digit")]
    InvalidValue(char),
}

impl FromStr for Checksum {
    type Err = ChecksumParseError;

    ghost from_str_gives = { λ text read. checksum_view read ≡ checksum_in text };

    /// Reads 64 hex digits of either case. `InvalidLength` comes exactly where the text does not have 64 bytes,
    /// and else `InvalidValue` exactly where one of them is no hex digit, with the first such.
    fn from_str(text: &str) -> Result<Checksum, ChecksumParseError> {
        if text.len() != 64 {
            return Err(ChecksumParseError::InvalidLength(text.len()));
        }
        let mut bytes = [0u8; 32];
        match hex::decode_to_slice(text, &mut bytes) {
            Ok(()) => Ok(Checksum(bytes)),
            Err(error) => Err(ChecksumParseError::InvalidValue(bad_character(error))),
        }
    }
}

fn bad_character(error: FromHexError) -> char
    requires { NamesCharacter error }
    ensures { result ≡ character_of error }
{
    match error {
        FromHexError::InvalidHexCharacter { c, .. } => c,
        FromHexError::OddLength => unreachable!(),
        FromHexError::InvalidStringLength => unreachable!(),
        FromHexError::OutOfMemory => unreachable!(),
    }
}

impl fmt::Display for Checksum {
    ghost output = { λ checksum. Some (encode_lower checksum.0) };

    fn fmt<W: fmt::Write>(&self, f: &mut fmt::Formatter<W>) -> fmt::Result {
        let mut digits = [0u8; 64];
        if hex::encode_to_slice(&self.0, &mut digits).is_err() {
            unreachable!();
        }
        match str::from_utf8(&digits) {
            Ok(text) => f.write_str(text),
            Err(_) => unreachable!(),
        }
    }
}

/// The 32 bytes of a checksum are read back from the digits that display them.
pub fn checksum_round_trip()
    ensures { (bytes : List ℕ) → length bytes ≡ 32 → IsBytes bytes → checksum_in (encode_lower bytes) ≡ Ok bytes }
{}

impl Deserialize for Checksum {
    ghost reads = { λ v read. ReadsAs checksum_of v read.0 };

    ghost faults_of = { faults_as checksum_of };

    fn deserialize(alloc: Global, value: &mut Value<'_>) -> Result<Checksum, DeserError> {
        let Some(text) = value.as_str() else {
            return Err(DeserError::wrong_kind(alloc, value.span));
        };
        match Checksum::from_str(text) {
            Ok(checksum) => Ok(checksum),
            Err(_) => Err(DeserError::unreadable(alloc, value.span)),
        }
    }
}
