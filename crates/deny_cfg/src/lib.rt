//! A policy: its text, and the valid configuration that it writes.
//!
//! # Choices
//!
//! All faults of `[bans]` and `[licenses]` are found, and all clashes.
//!
//! Clashes are ordered by kind and then by the spans of their labels. Bad extensions are one kind, be they past ASCII
//! or not. The first equal entry is found by an index of the others, by name and requirement; the contract says first,
//! not how.
//!
//! The policy of a text is a relation through its tree, looked up by name; that a text has one policy for the rules
//! that are built is a law over the definitions, so that no clause has to say it again.
//!
//! The faults of `bans` and `licenses` are one list, ascending, as if each were a fault of the root, whose other keys
//! are not asked for and so pass unread.
//!
//! A policy is read in two steps: what is written, with its clashes, and of that the entries that count today. So the
//! globs of a bypass that has expired have to be globs, and an expired entry can clash.
//!
//! A bad character of an extension is labelled at its own byte where the policy's text has the extension without
//! escapes; a line end right at the start of a string on several lines does not count. Otherwise the whole is labelled.
//! Lengths alone cannot distinguish an escape from that line end, so the text is searched.
#![tactic(auto)]

pub mod bans;
mod clash;
mod clash_diag;
mod clashes;
mod expired;
mod first_spans;
mod laws;
pub mod licenses;
mod matching;
mod policy;
mod shown;
mod validate;
mod waiting;
mod warnings;

pub use deny_cfg_entries::{
    Day, DayError, Expiry, PackageSpec, PackageSpecOrExtended, Reason, Scope, Waiver,
    equal_specs_match_alike, parse_semver, read_day,
};
pub use deny_cfg_index::SpecIndex;
pub use expired::ExpiredWaiver;
pub use laws::{one_policy, one_refusal};
pub use matching::match_krate;
pub use policy::{Policy, PolicyError, read_policy};
pub use shown::spec_text;
pub use validate::{UnvalidatedConfig, ValidationContext};
pub use warnings::{deprecated_diag, expired_diag};
