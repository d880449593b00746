//! Laws of reports: which keys hold and which entries are hit where entries are taken out of a policy, and where its
//! spans are replaced. Each is a function with an empty body, whose contract is the law.
//!
//! # Choices
//!
//! Where entries are taken out of a policy, one table says for each code which part of the policy its rule reads
//! (`deny_spec_removal/proofs/PolicyParts.antt`): a record for each part, with a field for each of its codes. It has no
//! default case, nor has the table for spans that are replaced (`Renaming.antt`).
//!
//! A skip, a skipped tree, a wrapper, an ignore of what the standard library replaces, a bypass, its paths and its
//! globs can be taken out where nothing hits it, all at once. Ignores need no further premise: the first that matches a
//! replaced crate is hit, so it stays, and no other counts there. Wrappers need one: no entry may lose its last
//! wrapper, since an entry without wrappers bans what a wrapper waives. A crate without dependents is waived by any
//! wrapper, though none is hit (`deny_spec_removal/proofs/PremiseRows.antt`).
//!
//! "Dead" is defined by two lists of the report: a finding names the entry as unused, and the entry has no hit. So the
//! laws on removal need the report, and no rule.
//!
//! One law takes entries of all kinds: one filter, by kind and span, and one premise, that no hit is of any of them.
//! The laws by kind are its parts: the wrappers go first, then the ignores, and then the others, which by then still
//! have no hit. An entry is identified by its kind and its span, so that no law requires that no two entries have the
//! same span.
//!
//! Entries of `deny` and of `allow` have no hits and no finding that names them as unused, so the laws on removal leave
//! them: only wrappers of `deny` go.
//!
//! Where spans are replaced, nothing is said of the order of the new ones, since a policy that is printed anew need not
//! keep it: the law is about membership, and a report's list is the ascending one of the keys that hold. Each of the
//! two policies has true facts of its own, and nothing relates these, so that a skipped tree may get another number.
//! Spans are compared only where an entry counts because it is the first: a wrapper of its name, an ignore or a bypass
//! of a crate, a licence or an exception of what it grants, a path of its components; so only there two different spans
//! have to stay different (`deny_spec_removal/proofs/RenamingRows.antt`).
//!
//! Licences and exceptions that nothing hits can go with the other entries: the first that grants is hit and stays, so
//! each requirement is granted as before. Dead entries of every kind are found by the hits of both checks, as a report
//! has one list of hits.
//!
//! What expired of a policy stays where entries are taken out, and the warnings about it with it: an expired waiver is
//! in no list of entries any more, so nothing hits it, and its warning names no entry as unused. Where spans are
//! replaced, it has new ones like any entry.
//!
//! A law on removal for one kind takes entries of that kind alone; the law over all kinds takes any.
//!
//! Wildcards read only whether a crate counts, is marked and is in a skipped tree, so entries that can go change none
//! of them, by the argument for duplicates. `unresolved-workspace-dependency` and `unused-workspace-dependency` name
//! spans of manifests, so a policy that is printed anew leaves their keys as they are.
#![tactic(auto)]

ghost use Rattle.deny_spec_removal.specs.Asking.{PackagesStay};
ghost use Rattle.deny_spec_removal.specs.BypassRemoval.{BypassesCanGo};
ghost use Rattle.deny_spec_removal.specs.Dead.{DeadBypassesCanGo, DeadCanGo, DeadIgnoresCanGo, DeadLicencesCanGo};
ghost use Rattle.deny_spec_removal.specs.Dead.{DeadSkipsCanGo, DeadWrappersCanGo};
ghost use Rattle.deny_spec_removal.specs.IgnoreRemoval.{IgnoresCanGo};
ghost use Rattle.deny_spec_removal.specs.LicenceRemoval.{LicencesCanGo};
ghost use Rattle.deny_spec_removal.specs.Removal.{EntriesCanGo, HitsStay};
ghost use Rattle.deny_spec_removal.specs.Renaming.{SpansCanBeReplaced};
ghost use Rattle.deny_spec_removal.specs.SkipRemoval.{SkipsCanGo};
ghost use Rattle.deny_spec_removal.specs.WrapperRemoval.{WrappersCanGo};

/// Entries of any kind without a hit of either check can go, all at once, where no ban loses its last wrapper: the same
/// keys hold, but for those that named them as unused, and each entry that is hit is hit as before.
pub fn entries_can_go()
    ensures { EntriesCanGo }
{
    deny_base::entry_order();
}

/// Where entries of any kind without a hit of either check go, each witness hits the entries that it hit before, and no
/// others: not the first witness of an entry alone stays, but all.
pub fn hits_stay()
    ensures { HitsStay }
{
    deny_base::entry_order();
}

/// Entries that a report lists as dead can go, all at once, where no ban loses its last wrapper.
pub fn dead_can_go()
    ensures { DeadCanGo }
{
    deny_base::entry_order();
}

/// Skips and skipped trees without a hit can go by themselves.
pub fn skips_can_go()
    ensures { SkipsCanGo }
{}

/// Wrappers without a hit can go by themselves, where no ban loses its last one.
pub fn wrappers_can_go()
    ensures { WrappersCanGo }
{}

/// Ignores without a hit, which pass over crates that the standard library replaces, can go by themselves.
pub fn ignores_can_go()
    ensures { IgnoresCanGo }
{}

/// Licences that every crate may ask for, and exceptions for some, can go by themselves where nothing hits them.
pub fn licences_can_go()
    ensures { LicencesCanGo }
{}

/// Bypasses, and paths and globs of bypasses, can go by themselves where nothing hits them.
pub fn bypasses_can_go()
    ensures { BypassesCanGo }
{}

/// Where entries without a hit go, what is asked of packages stays: which crates are checked and walked, of which
/// scripts a checksum is wanted, and which rule decides on each file. A run without them scans the same packages.
pub fn packages_stay()
    ensures { PackagesStay }
{
    deny_base::entry_order();
}

/// Dead skips and skipped trees can go by themselves.
pub fn dead_skips_can_go()
    ensures { DeadSkipsCanGo }
{
    deny_base::entry_order();
}

/// Dead wrappers can go by themselves, where no ban loses its last one.
pub fn dead_wrappers_can_go()
    ensures { DeadWrappersCanGo }
{
    deny_base::entry_order();
}

/// Dead ignores can go by themselves.
pub fn dead_ignores_can_go()
    ensures { DeadIgnoresCanGo }
{
    deny_base::entry_order();
}

/// Dead licences and exceptions can go by themselves.
pub fn dead_licences_can_go()
    ensures { DeadLicencesCanGo }
{
    deny_base::entry_order();
}

/// Dead bypasses, and dead paths and globs of bypasses, can go by themselves.
pub fn dead_bypasses_can_go()
    ensures { DeadBypassesCanGo }
{
    deny_base::entry_order();
}

/// The spans of a policy can be replaced by others in any order, as where its text is printed anew: the same keys hold,
/// each with its new span, and the same entries are hit, by the same witnesses, as long as different spans stay
/// different: those of wrappers of one ban, of ignores, of licences that every crate may ask for, of exceptions, of
/// bypasses, and of paths of one bypass.
pub fn spans_can_be_replaced()
    ensures { SpansCanBeReplaced }
{}
