//! The code that a program exits with, by how many errors each check has.
use deny_gate::{AllStats, Stats, stats_to_exit_code};

/// The counts of a check that is made where it has an error, and otherwise is not.
fn stats_if(has_error: bool) -> Option<Stats> {
    if has_error {
        Some(Stats {
            errors: 1,
            warnings: 0,
            notes: 0,
            helps: 0,
        })
    } else {
        None
    }
}

/// The code where these checks have errors, and the others are not made.
fn code_of(advisories: bool, bans: bool, licenses: bool, sources: bool) -> Option<i32> {
    stats_to_exit_code(AllStats {
        advisories: stats_if(advisories),
        bans: stats_if(bans),
        licenses: stats_if(licenses),
        sources: stats_if(sources),
    })
}

#[test]
fn each_check_has_a_bit(rt: HostRuntime) {
    assert!(rt; code_of(true, false, false, false) == Some(1));
    assert!(rt; code_of(false, true, false, false) == Some(2));
    assert!(rt; code_of(false, false, true, false) == Some(4));
    assert!(rt; code_of(false, false, false, true) == Some(8));
}

#[test]
fn bits_are_added(rt: HostRuntime) {
    assert!(rt; code_of(true, true, true, true) == Some(15));
    assert!(rt; stats_to_exit_code(AllStats::default()).is_none());
}
