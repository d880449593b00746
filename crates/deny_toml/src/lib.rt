//! TOML 1.0.0 with the span of every key and value: the tree of a text, or its first clash, and the
//! calls that take values out of the tree and collect what is wrong with them.
//!
//! | Syntax | Meaning |
//! |---|---|
//! | `key = 1`, `a.b = 1` | a value under a key; a table in a table |
//! | `[a.b]`, `[[a]]` | the table, or one more table of the array, that the lines below fill |
//! | `"text"`, `'text'`, with three delimiters on several lines | a string with escapes, and as it is written |
//! | `1`, `0xff`, `1.5`, `true`, `1979-05-27T07:32:00Z` | integers, floats, booleans, dates and times |
//! | `[1, 2]`, `{ a = 1 }` | an array, a table on one line; brackets and braces nest to 64, a key has 64 parts |
//!
//! Whether a text has a key (a test of this call is proved):
//!
//! ```rust
//! pub fn names(alloc: Global, text: &str, key: &str) -> Result<bool, TomlError> {
//!     let value = parse(alloc, text)?;
//!     Ok(value.has_key(key))
//! }
//! ```
//!
//! # Choices
//!
//! A negative integer or one of 2^32 or more is Unreadable as a `u32`.
//!
//! That spans lie in the text is a clause of `parse` over the tree, since it needs that the text is UTF-8. "Without
//! escapes" is defined by the text alone: the span contains no backslash, or an apostrophe precedes it.
//!
//! That no two scalars of a tree begin at one offset is a clause of `parse`: written values follow one another, and the
//! tree puts each at one slot.
//!
//! A key that contains a dot is not marked as such in the path of a fault.
#![tactic(auto)]

mod deserialize;
mod error;
mod parser;
mod table_helper;

pub use deny_toml_grammar::{
    Assignment, CowStr, Header, Key, Scalar, TomlExpression, Written, WrittenContent,
};
pub use deny_toml_tree::{
    ConfigFault, Content, DeserError, FaultKind, Table, Value, put_faults_in_order,
};
pub use deserialize::Deserialize;
pub use error::{TomlError, TomlKind};
pub use parser::parse;
pub use table_helper::TableHelper;
