//! The first spans of specs and words: of equal ones, that of the first.
ghost use Rattle.std.specs.Prelude.{◌≡◌, [], IfOk, OnOk, is_some, map, not};
ghost use Rattle.deny_base_lists.specs.First.{FindsFirst, GainsEntry};
ghost use Rattle.deny_cfg.specs.private.FirstSpans.{entry_span, first_span, plain_wording};
ghost use Rattle.deny_cfg.specs.private.FirstSpans.{same_wording, spec_wording, word_span};

use deny_base::{Span, Spanned};
use deny_base_lists::{NoMemory, Text};
use deny_cfg_entries::{PackageSpec, PackageSpecOrExtended};
use std::alloc::Global;
use std::collections::BTreeMap;

/// A spec or a word without its span, by which it is compared with others.
#[derive(PartialEq, Eq, PartialOrd, Ord, Drop)]
pub struct Wording {
    /// The name of a spec, or the word.
    pub name: Text,
    /// The requirement of a spec, as it is written.
    pub requirement: Option<Text>,
}

impl Wording {
    /// The name and the written requirement of a spec.
    pub fn of_spec(spec: &PackageSpec) -> Result<Wording, NoMemory>
        ensures { IfOk result (λ wording. wording ≡ spec_wording spec.now) }
    {
        Ok(Wording {
            name: spec.name.value.clone()?,
            requirement: spec.req_text.clone()?,
        })
    }

    /// A word, which has no requirement.
    pub fn of_word(word: &Text) -> Result<Wording, NoMemory>
        ensures { IfOk result (λ wording. wording ≡ plain_wording word.now) }
    {
        Ok(Wording {
            name: word.clone()?,
            requirement: None,
        })
    }
}

/// The span of each wording; of equal wordings that of the first.
#[derive(Drop)]
pub struct FirstSpans {
    spans: BTreeMap<Wording, Span>,
}

impl FirstSpans {
    fn new(alloc: Global) -> FirstSpans
        ensures { FindsFirst same_wording [] (first_span result) }
    {
        FirstSpans {
            spans: BTreeMap::new(alloc),
        }
    }

    fn is_new(&self, wording: &Wording) -> bool
        ensures { result ≡ not (is_some (first_span self.now wording.now)) }
    {
        !self.spans.contains_key(wording)
    }

    /// Adds a wording with its span behind the others.
    fn add(&mut self, wording: Wording, span: Span) -> Result<(), NoMemory>
        ensures { OnOk result (GainsEntry same_wording wording span (first_span self.old) (first_span self.new)) }
    {
        if self.is_new(&wording) {
            self.spans.insert(wording, span)?;
        }
        Ok(())
    }

    /// The span of the first equal wording.
    pub fn find(&self, wording: &Wording) -> Option<Span>
        ensures { result ≡ first_span self.now wording.now }
    {
        self.spans.get(wording).copied()
    }

    /// The spans of the specs of entries.
    pub fn of_specs<T>(
        alloc: Global,
        entries: &[PackageSpecOrExtended<T>],
    ) -> Result<FirstSpans, NoMemory>
        ensures { IfOk result (λ found. FindsFirst same_wording (map entry_span entries.now) (first_span found)) }
    {
        let mut found = FirstSpans::new(alloc);
        for entry in entries {
            found.add(Wording::of_spec(&entry.spec)?, entry.spec.name.span)?;
        }
        Ok(found)
    }

    /// The spans of words.
    pub fn of_words(alloc: Global, words: &[Spanned<Text>]) -> Result<FirstSpans, NoMemory>
        ensures { IfOk result (λ found. FindsFirst same_wording (map word_span words.now) (first_span found)) }
    {
        let mut found = FirstSpans::new(alloc);
        for word in words {
            found.add(Wording::of_word(&word.value)?, word.span)?;
        }
        Ok(found)
    }
}
