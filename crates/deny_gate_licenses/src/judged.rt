//! The packs of crates, and the entries that grant them a licence.
ghost use Rattle.std.specs.Prelude.{◌≡◌, ◌++◌, ◌∷◌, ℕ, [], IfOk, List, OnOk};
ghost use Rattle.std.specs.List.{flat_map};
ghost use Rattle.deny_base_lists.specs.First.{FindsFirst};
ghost use Rattle.deny_krates.specs.Crates.{crate_view};
ghost use Rattle.deny_cfg.specs.LicensingView.{licensing_view};
ghost use Rattle.deny_gate_licenses.specs.declared.granter.Granter.{Granter};
ghost use Rattle.deny_gate_licenses.specs.private.JudgedCrates.{packs_at, witnessed_at};
ghost use Rattle.deny_gate_licenses.specs.private.Judgements.{granters_in};
ghost use Rattle.deny_gate_licenses.specs.private.Reported.{judged_pack};
ghost use Rattle.deny_gate_licenses.specs.private.Witnesses.{place_in, same_granter, witnessed};

use crate::diags::judged_pack;
use crate::granting::Granting;
use crate::judgement::{Judgement, judgement_of};
use crate::witnesses::Witnesses;
use deny_base::Pack;
use deny_base_lists::{List, NoMemory};
use deny_krates::{Krate, Krates, krate_at};
use std::alloc::Global;

/// The packs of crates, and the first crate to which each entry grants a licence.
#[derive(Drop)]
pub struct JudgedCrates {
    pub packs: List<Pack>,
    pub witnesses: Witnesses,
}

impl JudgedCrates {
    fn new(alloc: Global) -> JudgedCrates
        ensures packs { result.packs ≡ [] }
        ensures witnesses { FindsFirst same_granter [] (place_in result.witnesses) }
    {
        JudgedCrates {
            packs: List::new(alloc),
            witnesses: Witnesses::new(alloc),
        }
    }

    /// Adds a crate with its judgement.
    fn add(
        &mut self,
        alloc: Global,
        place: u32,
        krate: &Krate,
        judgement: Judgement,
    ) -> Result<(), NoMemory>
        ensures packs { OnOk result (self.new.packs
            ≡ self.old.packs ++ judged_pack (crate_view place krate.now) judgement ∷ []) }
        ensures witnesses { OnOk result ((entries : List (Granter × ℕ))
            → FindsFirst same_granter entries (place_in self.old.witnesses)
            → FindsFirst same_granter (entries ++ witnessed (granters_in judgement) place)
            (place_in self.new.witnesses)) }
    {
        self.witnesses.add_each(judgement.granters(), place)?;
        self.packs
            .push(judged_pack(alloc, place, krate, judgement)?)
    }

    /// Judges the crate at a place and adds it.
    fn add_at(
        &mut self,
        alloc: Global,
        granting: &Granting<'_>,
        krates: &Krates,
        place: u32,
    ) -> Result<(), NoMemory>
        ensures packs { OnOk result (self.new.packs
            ≡ self.old.packs ++ packs_at (licensing_view granting.now.cfg.now) krates.now place) }
        ensures witnesses { OnOk result ((entries : List (Granter × ℕ))
            → FindsFirst same_granter entries (place_in self.old.witnesses)
            → FindsFirst same_granter
            (entries ++ witnessed_at (licensing_view granting.now.cfg.now) krates.now place)
            (place_in self.new.witnesses)) }
    {
        match krate_at(krates, place) {
            Some(krate) => self.add(alloc, place, krate, judgement_of(alloc, granting, krate)?),
            None => Ok(()),
        }
    }
}

/// Judges the crates at these places.
pub fn judge_places(
    alloc: Global,
    granting: &Granting<'_>,
    krates: &Krates,
    places: &[u32],
) -> Result<JudgedCrates, NoMemory>
    ensures packs { IfOk result (λ judged. judged.packs
        ≡ flat_map (packs_at (licensing_view granting.now.cfg.now) krates.now) places.now) }
    ensures witnesses { IfOk result (λ judged. FindsFirst same_granter
        (flat_map (witnessed_at (licensing_view granting.now.cfg.now) krates.now) places.now)
        (place_in judged.witnesses)) }
{
    let mut judged = JudgedCrates::new(alloc);
    for place in places {
        judged.add_at(alloc, granting, krates, *place)?;
    }
    Ok(judged)
}
