//! Entries of a policy, and tables read key by key.
//!
//! # Choices
//!
//! A table is a list of its keys (`TableKey`): of each its name, the kind of its value, its default, and the field that
//! it fills. Its faults, what is read, and that an entry depends on its own keys alone come from that list; one law
//! turns the reads, one after another, into what the table says, so that a new key is one line of the list and one of
//! proof.
//!
//! `LintLevel` and `semver::Version` are read through types of the crate's own, since type and trait are both foreign.
//!
//! Beside `crate`, be it without fault or not, `name` and `version` are unknown. With neither `crate` nor `name` the
//! missing `name` is reported at the entry's table, and `version` is read. A table without other keys has no `inner`.
//!
//! A spec with an empty name (`@1`, `:1`, `name = ""`) is unreadable, and so is an empty requirement (`x@`). The text
//! of the key `name` is not divided. The first `@` divides, and only a text without one is divided by its first `:`, so
//! `x:y@1` names `x:y`. Blanks in front of a requirement stay in its text.
//!
//! A spec's name has its own bytes as its span where its string is on one line and as long as its span, which is so
//! exactly where it contains no escape, also after the name; else the string's span. The tree marks strings on several
//! lines for this.
//!
//! The parts of a `rust-version` may have leading zeros.
//!
//! A day is the date of its three numbers, and not read by the `FromStr` of dates, which takes further forms: a time
//! behind the date, a sign and six digits of a year, a date without `-`. So `2026-01-31` is the one text of its day.
//!
//! `expires` is a text or a date of TOML; a date with a time, or a time alone, is of the right kind and names no day.
#![tactic(auto)]

mod day;
mod expiry;
mod extended;
mod flag;
mod from_table;
mod level;
mod licence;
mod package_spec;
mod policy_key;
mod reason;
mod requirement;
mod rust_version;
mod scope;
mod spec;
mod spec_equal;
mod spec_or_extended;
pub mod table;
mod unread;
mod version_key;
mod waiver;
mod written_requirement;

pub use day::{Day, DayError, read_day};
pub use expiry::{Expiry, day_at};
pub use extended::{Extended, read_entry};
pub use flag::is_set;
pub use from_table::{FromTable, read_table};
pub use level::{level_if_set, level_or};
pub use licence::{licences, licences_if_there};
pub use package_spec::PackageSpec;
pub use policy_key::PolicyKey;
pub use reason::Reason;
pub use rust_version::{RustVersion, parse_semver};
pub use scope::Scope;
pub use spec_equal::equal_specs_match_alike;
pub use spec_or_extended::PackageSpecOrExtended;
pub use unread::pass_unread;
pub use waiver::Waiver;
