//! The `cfg(..)` expressions that name the targets of a dependency: their grammar, and when two of them agree.
//!
//! | Syntax | Meaning |
//! |---|---|
//! | `unix`, `feature = "std"` | a name, or a name with a text; a name is of letters, digits and `_`, and `all`, `any` and `not` are none |
//! | `all(unix, windows)`, `any()` | each, or one, of the arguments; the last may have a comma after it |
//! | `not(unix)` | not the one argument |
//! | `cfg(..)` | the key of a target, around one expression |
//!
//! Spaces and tabs may surround each token. A text is between `"`, and has no escapes. The grammar is in the
//! [reference of Rust](https://doc.rust-lang.org/reference/conditional-compilation.html). Nesting has no bound, and
//! takes no stack.
//!
//! # Choices
//!
//! Space and tab may surround each token of a key, also at both ends and between `cfg` and `(`. `all`, `any` and `not`
//! are no names; `not` takes one argument and no comma; a comma may follow the last argument of `all` and `any`, but
//! not after the expression in `cfg(..)`. This follows the grammar of Rust's reference.
//!
//! A text in quotes has no escapes, and a name is of ASCII letters, digits and `_`; raw names are not read.
//!
//! Nesting has no bound. An expression is kept as its tokens without the commas, which determine its tree, so comparing
//! and dropping it take no stack.
#![tactic(auto)]

mod error;
mod expression;
mod reader;
mod token;

pub use error::CfgError;
pub use expression::{CfgExpr, agree};
pub use token::CfgToken;
