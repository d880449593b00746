//! Types and algorithms of no subject of their own: texts and lists that contracts see as such,
//! maps from texts, lists put in order, binary search, breadth-first search, and counters of steps.
//!
//! # Choices
//!
//! A graph that is walked says which places lead to which by a relation, and a bound on each row's length, so that
//! callers hand over their own rows and nothing is copied. A step of a walk is a place taken or a neighbour visited.
//!
//! Where records are put in order, the first of those with the same key stays.
//!
//! A `Text` is compared as a `str`: std compares many bytes of a `str` at a time, and those of a slice one by one.
//! Maps, sorts and searches of names and paths all depend on it.
#![tactic(auto)]

mod list;
mod memory;
mod order;
mod search;
mod steps;
mod text;
mod text_map;
mod walk;

pub use list::{List, Plain};
pub use memory::NoMemory;
pub use order::{Keyed, put_in_order, put_records_in_order};
pub use search::{Wanted, binary_search, binary_search_uncounted};
pub use steps::Steps;
pub use text::Text;
pub use text_map::TextMap;
pub use walk::{
    Neighbours, breadth_first, has_distance, marks_of, no_distances, reach, reach_from, take_back,
};
