//! The table of crates that the standard library replaces. Its bytes are read once from end to end, and each
//! text that is returned equals the bytes of its span.
//!
//! | Bytes | Meaning |
//! |---|---|
//! | `cd cd cd`, a version of 1 or 2, the number of entries | the head; numbers have four bytes, the lowest first |
//! | a number for each entry | the offset at which it begins; it reaches up to the next one |
//! | a text, three counts, items | an entry: a crate's name, the numbers of groups, unstable and unavailable items, and these |
//! | a minor version, a count that is not 0, replacements | a group: stable since this version of Rust |
//! | two APIs and a note | a replacement: the API of the crate, the API of std, and how they differ |
//! | a name and an address | an API |
//! | a length, UTF-8 | a text; the length has one byte in version 1 and two, the lowest first, in version 2 |
//!
//! Whether a table has an entry for a crate (a test of this call is proved):
//!
//! ```rust
//! pub fn has_entry(alloc: Global, bytes: &[u8], name: &str) -> Result<bool, ReplacementError> {
//!     let table = ReplacementData::from_bytes(alloc, bytes)?;
//!     Ok(table.entry(name).is_some())
//! }
//! ```
//!
//! # Choices
//!
//! The version of a table is how many bytes the length of a text has. The width is one parameter of the whole reading,
//! and a table keeps it beside its bytes.
//!
//! Nothing is copied or kept beside the bytes: an entry's items are read again as they are asked for, which is proved
//! to find what the first reading found. So reading takes no memory.
//!
//! In an entry the name is read first, then compared with the name before, then the rest is read. Bytes between the
//! offsets and the first entry, and after an entry's last item, are ignored. An entry without items and an empty name
//! are allowed.
//!
//! `next` is a method of `ReplacementIter`; callers loop with `while let`.
//!
//! `upgrade` gives the bytes that names, numbers and items determine, whichever version the table has, so to upgrade
//! twice changes nothing.
//!
//! `upgrade` reads the table once more and writes two texts, since an offset is known only when all entries before it
//! are written: the head with the offsets, and the entries. At the end the second is put after the first, so for a
//! moment the entries take their memory twice.
//!
//! `upgrade` goes on counting where memory runs out, so `Long` comes exactly where the bytes would be 2^28 or more, and
//! `Memory` only where they would be fewer. Once there are 2^28 no more are kept.
#![tactic(auto)]

mod cursor;
mod draft;
mod entries;
mod error;
mod head;
mod item;
mod names;
mod region;
mod replacement;
mod spans;
mod table;
mod upgrade;
mod width;

pub use error::{ReplacementError, UpgradeError};
pub use item::{Api, ApiReplacement, ReplacementItem};
pub use replacement::{Replacement, ReplacementIter};
pub use table::ReplacementData;
