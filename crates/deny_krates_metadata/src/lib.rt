//! Reads what `cargo metadata` prints: the members that the graph is made of, or the first fault.
//!
//! # Choices
//!
//! `dep_kinds` missing or null is as empty: one normal kind. A `kind` with another text than its three is a shape fault
//! at its path. A `target` of a kind that is no text is a shape fault; missing or null it is none.
//!
//! A root that is no object is a shape fault at the empty path; a missing `resolve` comes where the root is an object,
//! before any shape fault. A value that has to be an object and is none is the fault of its own path, before its
//! members.
//!
//! Of a name that occurs twice in an object the last value counts, as `serde_json` keeps it, also for numbers that are
//! not whole; `-0` is not whole, since `serde_json` holds it as a float. A member, an enabled feature, a dependency of
//! a node or an edge that is written twice counts once.
//!
//! An element's path is needed for a fault alone: that of a text is made there, and those of the other elements of an
//! array are written into one text, one after another.
//!
//! The value of the JSON borrows its texts from the bytes, by `json`, and its meaning is the one that `serde_json`
//! gives: of a name the last value, features by their names. So it takes less time and memory than one that owns them.
//! A number that is not whole or out of range may be in a value that another of its name replaces: then the bytes are
//! read once more, by `serde_json`, which says what counts.
//!
//! Most of what cargo writes is never read: descriptions, authors, the fields of targets and dependencies that no rule
//! asks for. No value is made of it. `Selection` says by a member's name what is read of it, and a law says that
//! metadata without the rest reads as before. The rest is still read as JSON, and its numbers are checked. This reading
//! reports no faults: where it does not get through the text, all of the text is read once more, and that reading names
//! the fault. So a text is read twice only where it is no JSON, where it has a number that is not whole (also one that
//! its object replaces later), or where memory ran out in the first reading.
#![tactic(auto)]

mod borrowed;
mod declaration;
mod document;
mod elements;
mod fault;
mod feature;
mod floats;
mod kind;
mod member;
mod node;
mod owned;
mod package;
mod pruned;
mod selection;
mod text;
mod whole;

pub use declaration::Declaration;
pub use document::{Document, document_at};
pub use fault::MetadataFault;
pub use feature::Feature;
pub use node::{MetadataNode, NeededAs, NodeDependency};
pub use package::{MetadataPackage, Target};
