//! Checks metadata: parses its versions, requirements and sources, and resolves its ids to numbers, or gives
//! the first fault.
//!
//! # Choices
//!
//! While metadata is read, contracts see an address by `url`'s own model, so that definitions build a source.
//!
//! The public registry is recognised by the text of `source`; another spelling of its address is a registry like
//! others. The names of the parts of a git address's query are read after decoding (`+` is a blank, an empty part is
//! none, what is no UTF-8 stays as written); the address keeps its query and loses its fragment. The reference is taken
//! from the query as `url` writes it, so that what `url` encodes is decoded from there. `url`'s answer that an address
//! is too long counts as out of memory.
//!
//! A `rust_version` is digits alone, leading zeros pass, and each number is under 2^32.
//!
//! Versions, requirements and sources are read once: the check for their faults keeps what it read (`PackageTexts`),
//! one list of each by the packages' numbers, since the versions of all packages are checked before the first
//! requirement. A crate is made of its package and of what was read of it, which are moved.
//!
//! Ids are compared by a hash first and byte by byte where it is the same, in an ordered map: ids of one graph share
//! long beginnings, and the time stays `n log n` also for ids that somebody chose for their hashes. Nothing but time
//! depends on the hash.
#![tactic(auto)]

mod checked;
mod index;
mod package_texts;
mod source;
mod versions;

pub use checked::{Link, Resolution, ResolvedNode, resolve};
pub use package_texts::{PackageTexts, PackageVersions};
pub use source::{GitSpec, Source, address_in, source_in};
