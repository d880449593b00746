//! Laws on the inputs that are generated for a number of crates: the metadata have no fault, and each policy is
//! valid. The functions have empty bodies, and their contracts are the laws.
//!
//! # Choices
//!
//! That each policy of `generate N` is valid is a law in a crate above those that define policies, since the generator
//! stands on texts alone. Its proof derives the text in the grammar by one induction over the list `skip`, at any
//! offset, and no clause names the spans of the policy: what rules see of a policy is the same anyway (`one_policy`).
//!
//! That the metadata of `generate N` has no fault is a law here too. The text is what `serde_json` writes of one value,
//! and so is read again as that value; no two ids are alike since no two numbers have the same digits, which is a law
//! on numbers of 64 bits, and bounds this one.
#![tactic(auto)]

mod metadata;
mod policy;

pub use metadata::made_metadata;
pub use policy::made_policies;
