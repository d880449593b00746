//! The tree of the headers and assignments of a TOML text, the first key that clashes with earlier ones, and the
//! calls on values: by kind, by name and by path.
//!
//! # Choices
//!
//! Each part of a pointer follows a `/`; the empty path is the value itself; a path that does not begin with `/` leads
//! nowhere. There are no escapes in it. A decimal index has no zero before another digit and no sign, so each element
//! has one path.
//!
//! A list of faults holds each fault once. The empty key is the value itself; a key whose own name is empty is named
//! nevertheless (`bans.` for the unknown key `""` of `bans`). A fault of the value under such a key is named so too:
//! `is_nameless` distinguishes it from a fault of the enclosing value, since both may have the empty path, and decides
//! the order of faults with the same span, kind and key.
//!
//! Look-ups walk the table, in step with its keys: a recursive type can hold no proof that it ascends. Readers of
//! policies ask for a fixed number of keys of each table.
//!
//! A table is known by the number of the segment that made it, so that the tables of two `[[a]]` are two, without a
//! search for the element. The clash rule is a test on the roles of the segments at one slot (a name in a table): a
//! header goes on from it or ends with it (as a table, as an array), a key goes on from it or ends with it.
//!
//! An inline table's keys are a document of their own: nothing from outside can enter it, and they are tested after the
//! key's own segments.
//!
//! The tree is defined for every list of expressions, also one that clashes: the first line that leads to a slot
//! determines its value. So the definition of the tree needs nothing of the clash rule, and where nothing clashes the
//! choice does not show.
//!
//! A table or an array of tables has the span of its segment in the first header or key that reaches it.
//!
//! The keys below a header stay with it and do not repeat its path, and values are moved; lines are grouped by name in
//! a map, which gives their order too. The recursion goes down by the most parts that a line has left, and a law says
//! that this leaves nothing out.
#![tactic(auto)]

mod calls;
mod clash;
mod error;
mod faults;
mod lines;
mod tables;
mod tree;
mod value;
mod values;

pub use calls::index_named;
pub use clash::first_clash;
pub use error::{ConfigFault, DeserError, FaultKind};
pub use faults::{keep_faults, put_faults_in_order, put_under};
pub use tree::tree_of;
pub use value::{Content, Table, Value};
