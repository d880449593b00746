//! Licence expressions of SPDX: their grammar, the requirements that they name, and their truth.
//!
//! | Syntax | Meaning |
//! |---|---|
//! | `MIT`, `GPL-2.0+` | a licence: letters, digits, `-` and `.`; a `+` at its end is ignored |
//! | `GPL-2.0 WITH Classpath-exception-2.0` | a licence with an exception |
//! | `MIT AND Zlib` | both hold |
//! | `MIT OR Zlib`, `MIT/Zlib` | one of them holds; `AND` binds closer |
//! | `(MIT OR Zlib) AND ISC` | parentheses, nested to 64; spaces and tabs divide |
//!
//! Whether an expression holds where some of its requirements do (a test over this call is proved):
//!
//! ```rust
//! pub fn holds(alloc: Global, text: &str, values: &[bool]) -> Result<Option<bool>, SpdxError> {
//!     let expression = Expression::parse(alloc, text)?;
//!     if expression.requirements().len() != values.len() {
//!         return Ok(None);
//!     }
//!     Ok(Some(expression.evaluate(values)))
//! }
//! ```
//!
//! # Choices
//!
//! A word with `+` is never an operator: `AND+` is the word `AND`. The exception after `WITH` is a word too, so its `+`
//! is dropped as well. A `+` ends a word: `A+B` is bad at `B`, and a second `+` begins no token.
//!
//! Blanks are space and tab; a line end or any other byte is bad at its offset. The offset of the end of the text is
//! its length, blanks at the end included: `MIT AND ` is bad at 8.
//!
//! A level of a licence's tree with one part is that part, so parentheses take no memory of their own; the truth is the
//! same.
//!
//! One requirement is bad by the same law as an expression, with one requirement in its place: `A OR B` is bad at `OR`,
//! `(A)` at 0.
//!
//! What one requirement's text means is a function beside the grammar's relation (`requirement_in`), since the faults
//! of a value are computed; a clause of `Requirement::parse` ties the two. What a licence's whole text is read as is
//! one too (`reading_in`), since the rules compute with it; a clause of `Expression::parse` and the law `one_reading`
//! tie it to the grammar, which remains the definition. So no fact beside the circumstances says how a text is read.
#![tactic(auto)]

mod error;
mod expression;
mod laws;
mod level;
mod parse;
mod reader;
mod reading;
mod requirement;
mod requirement_reader;
mod token;
mod token_reader;

pub use error::SpdxError;
pub use expression::{Expression, Tree};
pub use laws::one_reading;
pub use requirement::Requirement;
