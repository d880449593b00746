//! What messages are made from.
ghost use Rattle.std.specs.Prelude.{◌≡◌, IfOk, IsTrue, Some, ℕ, find, is_some, map};
ghost use Rattle.std.specs.List.{list_any};
ghost use Rattle.deny_diags_build.specs.Sums.{AreSumsOf};
ghost use Rattle.deny_cfg.specs.PolicyView.{allow_view, entry_view, feature_view, policy_view, root_view};
ghost use Rattle.deny_spec_report.specs.Features.{feature_entry_at};
ghost use Rattle.deny_spec.specs.Duplicates.{is_denied_multiple};
ghost use Rattle.deny_spec.specs.DiagParts.{allow_at, ban_at, crates_at, root_at, skip_at};
ghost use Rattle.deny_spec.specs.Wrappers.{same_span};
ghost use Rattle.deny_rules_match.specs.Marks.{mark_at};
ghost use Rattle.deny_rules_match.specs.Matches.{AreBanMatches, IsBanMatch, ban_of};
ghost use Rattle.deny_diags_manifests.specs.Found.{AreUnusedOf, AreUsesOf};
ghost use Rattle.deny_diags.specs.private.EntryNumbers.{NumbersEntries};
ghost use Rattle.deny_diags.specs.private.Features.{named_features};
ghost use Rattle.deny_diags_parts.specs.BySpan.{IsBySpan};

use crate::entry_numbers::{EntryList, EntryNumbers};
use crate::features_by_span::named_by_span;
use deny_base::{Span, Spanned};
use deny_base_lists::{NoMemory, Text};
use deny_cfg::PackageSpecOrExtended;
use deny_cfg::bans::cfg::{Checksum, CrateAllow, CrateSkip, TreeSkipExtended, ValidKrateFeatures};
use deny_diags_build::script_sums;
use deny_diags_parts::{BySpan, DiagContext};
use deny_rules_manifests::Uses;
use deny_rules_match::{BanMatch, Matches, mark_at};
use deny_spans::UnusedWorkspaceDep;
use std::alloc::Global;

/// What messages are made from, with what finds the policy's entries by their numbers, and the features that
/// it names, its checksums and the workspace's entries by their spans.
#[derive(Drop)]
pub struct DiagWriter<'c> {
    pub ctx: DiagContext<'c>,
    pub uses: &'c Uses<'c, 'c>,
    pub unused: BySpan<'c, UnusedWorkspaceDep>,
    pub sums: BySpan<'c, Spanned<Checksum>>,
    found: &'c Matches<'c>,
    numbers: EntryNumbers,
    features: BySpan<'c, Spanned<Text>>,
    ghost uses_fit: { AreUsesOf ctx uses.now },
    ghost unused_found: { AreUnusedOf ctx unused },
    ghost sums_found: { AreSumsOf ctx.cfg.now sums },
    ghost bans_found: { AreBanMatches (policy_view ctx.cfg.now) ctx.krates.now (policy_view ctx.cfg.now).deny
        found.now.bans },
    ghost several_marked: { found.now.several ≡ map (is_denied_multiple (policy_view ctx.cfg.now))
        ctx.krates.now.crates },
    ghost entries_numbered: { NumbersEntries ctx.cfg.now found.now.bans numbers },
    ghost features_found: { IsBySpan (λ w. w.span) (named_features ctx.cfg.now) features },
}

impl<'c> DiagWriter<'c> {
    /// Numbers the policy's entries, and finds the workspace's by their spans; its bans are those that were
    /// matched for the check.
    pub fn new(
        alloc: Global,
        ctx: DiagContext<'c>,
        found: &'c Matches<'c>,
        uses: &'c Uses<'c, 'c>,
    ) -> Result<DiagWriter<'c>, NoMemory>
        requires uses { AreUsesOf ctx uses.now }
        requires cfg { found.now.cfg.now ≡ ctx.cfg.now }
        requires krates { found.now.krates.now ≡ ctx.krates.now }
        ensures { IfOk result (λ writer. writer.ctx ≡ ctx.entry) }
    {
        let cfg = ctx.cfg;
        Ok(DiagWriter {
            uses,
            unused: BySpan::new(alloc, ctx.spans.unused_workspace_deps.as_slice())?,
            sums: script_sums(alloc, cfg)?,
            found,
            numbers: EntryNumbers::of_policy(alloc, cfg, found.bans.as_slice())?,
            features: named_by_span(alloc, cfg)?,
            ctx,
        })
    }

    /// The ban with this span, with the crates that it concerns.
    pub fn ban(&self, span: Span) -> &'c BanMatch<'c>
        requires { IsTrue (is_some (ban_at (policy_view self.now.ctx.cfg.now) span)) }
        ensures ban { Some (ban_of result.now) ≡ ban_at (policy_view self.now.ctx.cfg.now) span }
        ensures is { IsBanMatch (policy_view self.now.ctx.cfg.now) self.now.ctx.krates.now result.now }
    {
        let bans = self.found.bans.as_slice();
        self.numbers.first(EntryList::Deny, bans, span)
    }

    /// The allow list's entry with this span.
    pub fn allow(&self, span: Span) -> &'c CrateAllow
        requires { IsTrue (is_some (allow_at (policy_view self.now.ctx.cfg.now) span)) }
        ensures { Some (allow_view result.now) ≡ allow_at (policy_view self.now.ctx.cfg.now) span }
    {
        let allowed = self.ctx.cfg.allowed.as_slice();
        self.numbers.first(EntryList::Allow, allowed, span)
    }

    /// The skip with this span.
    pub fn skip(&self, span: Span) -> &'c CrateSkip
        requires { IsTrue (is_some (skip_at (policy_view self.now.ctx.cfg.now) span)) }
        ensures { Some (entry_view result.now) ≡ skip_at (policy_view self.now.ctx.cfg.now) span }
    {
        let skipped = self.ctx.cfg.skipped.as_slice();
        self.numbers.first(EntryList::Skip, skipped, span)
    }

    /// The skipped tree with this span.
    pub fn root(&self, span: Span) -> &'c PackageSpecOrExtended<TreeSkipExtended>
        requires { IsTrue (is_some (root_at (policy_view self.now.ctx.cfg.now) span)) }
        ensures { (number : ℕ)
            × (root_at (policy_view self.now.ctx.cfg.now) span ≡ Some (root_view number result.now)) }
    {
        let roots = self.ctx.cfg.tree_skipped.as_slice();
        self.numbers.first(EntryList::SkipTree, roots, span)
    }

    /// The entry on features with this span.
    pub fn feature_entry(&self, span: Span) -> &'c ValidKrateFeatures
        requires { IsTrue (is_some (feature_entry_at (policy_view self.now.ctx.cfg.now) span)) }
        ensures { Some (feature_view result.now) ≡ feature_entry_at (policy_view self.now.ctx.cfg.now) span }
    {
        let entries = self.ctx.cfg.features.as_slice();
        self.numbers.first(EntryList::Features, entries, span)
    }

    /// The feature with this span, of those that entries allow or deny or that bypasses require.
    pub fn named_feature(&self, span: Span) -> &'c Spanned<Text>
        requires { IsTrue (is_some (find (λ w. same_span w.span span) (named_features self.now.ctx.cfg.now))) }
        ensures { Some result.now ≡ find (λ w. same_span w.span span) (named_features self.now.ctx.cfg.now) }
    {
        match self.features.at(span) {
            Some(feature) => feature,
            None => unreachable!(),
        }
    }

    /// Whether an entry denies several versions of a crate at one of these places.
    pub fn denies_several(&self, places: &[u32]) -> bool
        ensures { result ≡ list_any (is_denied_multiple (policy_view self.now.ctx.cfg.now))
            (crates_at self.now.ctx.krates.now places.now) }
    {
        is_one_marked(self.found.several.as_slice(), places)
    }
}

// Whether one of these places is marked.
fn is_one_marked(marks: &[bool], places: &[u32]) -> bool
    ensures { result ≡ list_any (mark_at marks.now) places.now }
{
    places.iter().any(|place| mark_at(marks, *place))
}
