//! Globs: a pattern is read into tokens, and a set of globs says which of them fit a path.
//!
//! | Syntax | Meaning |
//! |---|---|
//! | `?`, `*` | one character, any characters; `/` is a character like others |
//! | `**/` at the start, `/**/`, `/**` at the end | nothing or any folders, a `/` or folders between, all below |
//! | `[a-z_]`, `[!a]` or `[^a]` | one character of a class, or of none of it; a first `]`, and a first or last `-`, is a member |
//! | `{a,b}` | one of these, nested to 16 |
//! | `\c` | the character itself, as is each other one |
//!
//! Whether a pattern fits a path (a test over this call is proved):
//!
//! ```rust
//! pub fn fits(alloc: Global, pattern: &str, path: &str) -> Result<bool, GlobError> {
//!     let mut set = GlobSet::empty(alloc);
//!     set.add(Glob::parse(alloc, pattern)?)?;
//!     let mut numbers = Vec::new(alloc);
//!     set.matches(path, &mut numbers)?;
//!     Ok(!numbers.is_empty())
//! }
//! ```
//!
//! # Choices
//!
//! A pattern is defined in two steps: its characters spell pieces, and pieces are tokens by braces. `**/` at the start
//! is a piece only at the first character, `/**` only at the end.
//!
//! A special form is a part together with its slashes: `**/**/a` is `**/`, `*`, `/`, `a`; `a/**/**` is `/**/`, `*`; a
//! run that became `*` is no part; `***` never forms one; an escaped `/` forms none; `a/**/` ends in `/**/`, `/**`
//! alone is the end form, `**/` alone the start form, `**` alone is `*`.
//!
//! In a class three characters `x-y` before the closing bracket are a range whatever x and y are, from left to right:
//! `[--a]` and `[+--]` are ranges, `[a--]` is bad at `a`, in `[a-b-c]` the second `-` is a member.
//!
//! Of several that are not closed the first in reading order is reported, and only where nothing else is bad; a
//! descending range in an unclosed class comes first. `[]` and `[!]` are unclosed.
//!
//! `}` and `,` in a class and `,` outside braces are themselves; `{}` has one empty alternative.
//!
//! Where memory runs out, the list of `matches` holds the first of the numbers: ascending, each of a glob that fits,
//! and none left out below one that is there. The code does more than the clause: the list is empty then.
//!
//! Contracts see a glob as its characters and its tokens, since the bound on steps distinguishes globs with the same
//! tokens (`*.sh` is simple, `**.sh` is not). That the characters are a glob with these tokens, and with no others, a
//! set says of each of its globs (`GlobSet::are_read`), to whoever has not seen them added.
//!
//! A set is compiled as globs are added. Simple globs are in one list that ascends by their extensions, and a binary
//! search finds the path's. The others are states, each from its last token back, so that a state leads on to states
//! with lower numbers alone, or stays. No glob has more states than characters and one: that is below the bound's twice
//! its characters and 2.
//!
//! A set of marks has a list of the marked states beside a mark for each state, so a character of the path takes time
//! in proportion to the states marked there, and clearing takes no more.
//!
//! A walk over a path starts only with the globs that can fit it. The literal characters with which a glob's tokens
//! begin, and those with which they end, begin and end each path that it fits. The longer of these two literals, the
//! end where both are as long, goes into a trie, an end with its last character first. A path is followed in the two
//! tries, from its first character and from its last, as far as edges lead: the globs whose literals end on its way
//! start. A glob without literals is at the root, and starts for every path. Following a path in a trie is none of the
//! three kinds of step that the bound counts.
//!
//! The numbers are noted as globs are found, then put in order and given, so they ascend however the globs were found,
//! and a path costs nothing for a glob that is not started.
//!
//! The bound is given for every list that has all extensions of simple globs, and every list that has the numbers of
//! those that fit: the shortest lists have each once, and give the least bound. It holds where memory runs out too.
#![tactic(auto)]

mod class;
mod compile;
mod error;
mod extensions;
mod glob;
mod literals;
mod marked;
mod piece;
mod reader;
mod reading;
mod set;
mod starts;
mod state;
mod stop;
mod token;
mod trie;
mod walk;

pub use error::GlobError;
pub use glob::Glob;
pub use set::GlobSet;
pub use token::{CharacterClass, CharacterRange, Token};
