//! The grammar of TOML 1.0.0: from a text to its headers and assignments, with the span of every key and value.
//!
//! # Choices
//!
//! `CowStr` is the crate's own struct over std's: contracts see its bytes, so that trees are compared as values. A
//! float or a date keeps its text.
//!
//! A key has at most 64 parts; brackets and braces nest to 64, counted together, apart from keys.
//!
//! There is no byte order mark. U+007F is refused in comments and strings. CR LF in a multi-line string stays as
//! written; the line end after the opening quotes is in the span and not in the value. Hour and minute of an offset are
//! tested like those of a time.
//!
//! The reader's own failure carries the number of bytes left, so that no clause has to carry offsets upward.
//!
//! The span of a fault of the grammar is the empty span at the offset where reading stopped.
//!
//! A string between three delimiters is a variant of its own in the tree, so that a match that forgets it does not
//! compile.
#![tactic(auto)]

mod cow_str;
mod dates;
mod document;
mod expression;
mod keys;
mod lexical;
mod lines;
mod numbers;
mod parts;
mod read_error;
mod strings;
mod unquoted;
mod values;

pub use cow_str::CowStr;
pub use document::read_document;
pub use expression::{Assignment, Header, TomlExpression, Written, WrittenContent};
pub use parts::{Key, Scalar};
pub use read_error::ReadError;
