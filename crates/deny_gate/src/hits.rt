//! The hits of a report.
ghost use Rattle.std.specs.Prelude.{◌++◌, IfOk, OnOk};
ghost use Rattle.deny_gate.specs.Hits.{AreHits};
ghost use Rattle.deny_gate.specs.private.Hits.{IsOneEach};

use deny_base::{Hit, entry_order};
use deny_base_lists::{List, NoMemory};

/// Puts hits in the order of their entries, each once.
fn put_hits_in_order(hits: &mut List<Hit>) -> Result<(), NoMemory>
    requires { IsOneEach hits.old }
    ensures { OnOk result (AreHits hits.old hits.new) }
{
    entry_order();
    hits.vec.sort_by(|a, b| a.entry.cmp(&b.entry))?;
    hits.vec.dedup_by(|a, b| a.entry == b.entry);
    Ok(())
}

/// The hits of two checks, in the order of their entries.
pub fn joined_hits(hits: List<Hit>, others: List<Hit>) -> Result<List<Hit>, NoMemory>
    requires { IsOneEach (hits ++ others) }
    ensures { IfOk result (AreHits (hits ++ others)) }
{
    let mut hits = hits;
    let mut others = others;
    hits.vec.append(&mut others.vec)?;
    put_hits_in_order(&mut hits)?;
    Ok(hits)
}
