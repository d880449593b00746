//! The wrappers of a ban, by their names.
ghost use Rattle.std.specs.Prelude.{◌≡◌, IfOk};
ghost use Rattle.deny_cfg.specs.PolicyView.{ban_view, words_or_none};
ghost use Rattle.deny_rules_match.specs.Wrappers.{AreFirstSpans, span_at};

use deny_base::{Span, Spanned};
use deny_base_lists::{List, NoMemory, Text, TextMap};
use deny_cfg::PackageSpecOrExtended;
use deny_cfg::bans::cfg::KrateBan;
use deny_krates::{Krates, krate_at};
use std::alloc::Global;

/// The wrappers of a ban.
pub fn wrappers_of(ban: &PackageSpecOrExtended<KrateBan>) -> &[Spanned<Text>]
    ensures { result.now ≡ (ban_view ban.now).wrappers }
{
    match &ban.inner {
        Some(inner) => words_or_none(&inner.wrappers),
        None => &[],
    }
}

fn words_or_none(words: &Option<List<Spanned<Text>>>) -> &[Spanned<Text>]
    ensures { result.now ≡ words_or_none words.now }
{
    match words {
        Some(words) => words.as_slice(),
        None => &[],
    }
}

/// The span of the first wrapper of each name.
pub fn spans_by_name(alloc: Global, wrappers: &[Spanned<Text>]) -> Result<TextMap<Span>, NoMemory>
    ensures { IfOk result (AreFirstSpans wrappers.now) }
{
    let mut spans = TextMap::new(alloc);
    for wrapper in wrappers {
        if !spans.contains_key(wrapper.value.as_str()) {
            spans.insert(wrapper.value.clone()?, wrapper.span)?;
        }
    }
    Ok(spans)
}

/// The span at the name of the crate at a place.
pub fn span_at(krates: &Krates, spans: &TextMap<Span>, place: u32) -> Option<Span>
    ensures { result ≡ span_at krates.now spans.now place }
{
    let krate = krate_at(krates, place)?;
    spans.get(krate.name.as_str()).copied()
}
