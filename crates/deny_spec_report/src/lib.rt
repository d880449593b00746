//! Which keys hold in circumstances, and their messages: tables with a line for each code and no default case, so that
//! a code that is forgotten is refused. Functions with empty bodies carry laws of these definitions.
//!
//! # Choices
//!
//! Every proof follows the tables by code: for each code one lemma says that its keys have the code and are in its
//! section (`deny_spec_report/proofs/Made.antt`).
//!
//! That two records of true facts give one list of keys is proved code by code
//! (`deny_spec_report/proofs/EachCode.antt`).
//!
//! What a table of replacements says enters the definitions as a function from names to items (`Saying`), which the
//! bytes give by their grammar (`said_by`); bytes that are no table say nothing. The rule's part of the policy is a
//! record of its own (`Replacing`), none where the policy does not write it.
//!
//! Of the codes on features, `FeatureNotExplicitlyAllowed` has a relation, since what a feature leads to is a chain of
//! any length; the keys of the other four are lists that are computed.
//!
//! A feature is reached where a feature that the walk reaches lists it as a plain entry: so an enabled feature that is
//! no key of the table can be reached, no chain has length zero, and features between need not be enabled.
//!
//! A plain entry of a table of features does not begin with `dep:` and contains no `/`.
//!
//! `default` is no unlisted feature where the crate's own level of it is written and is not deny, also at allow.
//!
//! A crate has the features of its table. An enabled feature that the table lacks is unknown where an entry lists it.
//!
//! What a policy says of licences is a part of the circumstances beside the policy of the bans, so that neither check's
//! rules depend on the other's part; that is a law for the bans check (`bans_unlicensed`), and the clauses of the
//! licence check hold in any circumstances with its licensing and graph.
//!
//! What expired of a policy is a part of the circumstances of its own. The other parts are those of the policy without
//! it, so that no rule asks for a day: an expired waiver holds by its key alone, and changes nothing in the bans check
//! (`bans_unexpired`).
//!
//! The warnings about the policy itself, which are made as it is read, have a section of their own (`is_of_policy`)
//! and are of no check's rules. Their packs are of the bans check.
//!
//! Which crates count for the licence check is a question of its own (`include-dev` of `licenses`), answered by a test
//! that is an argument of its definitions: two true tests agree on each crate of the graph, so the keys and the hits
//! are the same.
//!
//! A requirement is granted by the first exception that matches the crate *and* lists it, else by the first licence
//! that all crates may have; so where an exception matches the crate and does not list the requirement, later ones are
//! asked. It counts as used also where the expression could do without it (`MIT OR Zlib` uses both), and where the
//! crate is rejected in the end. A text that cannot be read uses nothing.
//!
//! A crate is private by what its manifest says of where it may be published, also where it is no member of the
//! workspace, and that is judged before its licence.
//!
//! `allow-wildcard-paths` without `wildcards` has no effect.
//!
//! A build script that is not allowed, but has the checksum of its bypass, passes with its whole package where no
//! feature is enabled that the bypass requires. With another checksum, or where it could not be read, the script is
//! reported and its checksum too.
//!
//! A build script that is not allowed is reported with its path and its checksum, both or neither: neither where it
//! could not be read.
//!
//! What a bypass says of the paths and globs of a package that is not walked is not reported as unmatched: where the
//! check ends with the script, no file was compared with them.
//!
//! A folder that was not listed is one finding and one entry of what is unread; the rest of the package is still
//! scanned, and paths and globs that matched nothing in it are reported.
//!
//! Features that a bypass requires and the crate does not have are reported only where the script has its checksum.
//!
//! The label of a duplicate marks the lines of its crates in the lock text, from the first to the last, since its
//! crates are there one after the other; it depends on the lock text's number and the graph, so that duplicates need no
//! manifest and no package.
//!
//! A wildcard has labels for each declaration: its own, and then that of the workspace's entry.
//!
//! Keys of a rule that the policy does not write never hold; the table of messages, which is total, gives them an empty
//! warning (`not_built`).
#![tactic(auto)]

mod laws;
mod message;

pub use laws::{
    bans_unexpired, bans_unlicensed, first_hits, first_wrapper, joined_keys, message_unseen,
    one_check, one_report, one_unseen, policy_keys,
};
pub use message::{Message, pack_of};
