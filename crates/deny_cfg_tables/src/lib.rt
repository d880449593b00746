//! The tables of a policy: their keys, and what is read from them.
//!
//! # Choices
//!
//! A key that is left out and has a span (`allow`, `exact` of an entry of `features`) gets 0..0.
//!
//! An entry of `features` or of `bypass` is a table, and a bare text there is of another kind; an element of
//! `allow-build-scripts` may be a text or a table of a spec with no other key.
//!
//! `version` and `confidence-threshold` pass unread, whatever their kind; `clarify` and other keys of cargo-deny's
//! `[licenses]` are unknown keys, so faults.
#![tactic(auto)]

pub mod bans;
pub mod licenses;
