//! The target keys of a manifest by numbers: keys that agree have the same number.
ghost use Rattle.std.specs.Prelude.{◌≡◌, ◌++◌, ◌∷◌, [], ℕ, Bool, List, IfOk, map};
ghost use Rattle.deny_spans_manifest.specs.Agreement.{ReportsAgreement};
ghost use Rattle.deny_spans_manifest.specs.private.Targets.{IsForm, NumbersTargets, key_word, number_of, word_of};

use crate::firsts::Firsts;
use deny_base_lists::{List, NoMemory, Text};
use deny_spans_cfg_expr::{CfgError, CfgExpr, CfgToken};
use deny_toml::{Key, Value};
use std::alloc::Global;

/// The number of each key is the index of the first key that agrees with it. Each key is parsed once.
#[derive(Drop)]
pub struct Targets {
    numbers: Firsts<List<Text>, usize>,
    count: usize,
}

impl Targets {
    /// No keys.
    pub fn none(alloc: Global) -> Targets
        ensures { NumbersTargets [] result }
    {
        Targets {
            numbers: Firsts::new(alloc),
            count: 0,
        }
    }

    /// The keys of a table.
    pub fn of(alloc: Global, entries: &[(Key<'_>, Value<'_>)]) -> Result<Targets, NoMemory>
        ensures { IfOk result (NumbersTargets (map (λ e. e.0.name) entries.now)) }
    {
        let mut numbers = Firsts::new(alloc);
        for (number, entry) in entries.iter().enumerate() {
            numbers.add(form_of(alloc, entry.0.name.as_str())?, number)?;
        }
        Ok(Targets {
            numbers,
            count: entries.len(),
        })
    }

    /// The number of a key; the count of keys where it agrees with none.
    pub fn number(&self, alloc: Global, key: &str) -> Result<usize, NoMemory>
        ensures { IfOk result (λ number. (agrees : List ℕ → List ℕ → Bool) → ReportsAgreement agrees
            → (keys : List (List ℕ)) → NumbersTargets keys self.now
            → number ≡ number_of agrees keys key.now) }
    {
        let form = form_of(alloc, key)?;
        Ok(self.numbers.find(&form).unwrap_or(self.count))
    }
}

/// The form of a key, as a list of words: two keys have equal forms exactly where they agree.
fn form_of(alloc: Global, key: &str) -> Result<List<Text>, NoMemory>
    ensures { IfOk result (IsForm key.now) }
{
    match CfgExpr::parse(alloc, key) {
        Ok(expression) => words_of(alloc, expression.tokens.as_slice()),
        Err(CfgError::Bad) => whole_key(alloc, key),
        Err(CfgError::Memory) => Err(NoMemory),
    }
}

/// The form of a key that is no expression: the key itself.
fn whole_key(alloc: Global, key: &str) -> Result<List<Text>, NoMemory>
    ensures { IfOk result (λ words. words ≡ key_word key.now ∷ []) }
{
    let mut words = List::new(alloc);
    words.push(marked(alloc, "key ", key)?)?;
    Ok(words)
}

fn words_of(alloc: Global, tokens: &[CfgToken]) -> Result<List<Text>, NoMemory>
    ensures { IfOk result (λ words. words ≡ map word_of tokens.now) }
{
    let mut words = List::new(alloc);
    for token in tokens {
        words.push(word_of(alloc, token)?)?;
    }
    Ok(words)
}

fn word_of(alloc: Global, token: &CfgToken) -> Result<Text, NoMemory>
    ensures { IfOk result (λ word. word ≡ word_of token.now) }
{
    match token {
        CfgToken::Name(name) => marked(alloc, "word ", name.as_str()),
        CfgToken::Quoted(text) => marked(alloc, "text ", text.as_str()),
        CfgToken::All => Text::from_str(alloc, "all"),
        CfgToken::Any => Text::from_str(alloc, "either"),
        CfgToken::Not => Text::from_str(alloc, "not"),
        CfgToken::Equals => Text::from_str(alloc, "="),
        CfgToken::Comma => Text::from_str(alloc, ","),
        CfgToken::Open => Text::from_str(alloc, "("),
        CfgToken::Close => Text::from_str(alloc, ")"),
    }
}

fn marked(alloc: Global, mark: &str, text: &str) -> Result<Text, NoMemory>
    ensures { IfOk result (λ marked. marked ≡ mark.now ++ text.now) }
{
    let mut marked = Text::from_str(alloc, mark)?;
    marked.push_str(text)?;
    Ok(marked)
}
