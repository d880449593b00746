//! The generated crates.
ghost use Rattle.std.specs.Prelude.{◌≡◌, ◌++◌, IfOk, OnOk};
ghost use Rattle.deny_cli_generator.specs.Made.{below, name_at, name_of, version_at};
ghost use Rattle.deny_cli_generator.specs.MetadataText.{id_at, registry};
ghost use Rattle.deny_cli_generator.specs.PolicyText.{divided};

use deny_base_lists::{NoMemory, Text};
use std::alloc::{AllocError, Global};

/// The source of each generated crate.
#[tactic(auto, unfolding(crate::specs::MetadataText::registry))]
pub fn registry() -> &'static str
    ensures { result.now ≡ registry }
{
    "registry+https://github.com/rust-lang/crates.io-index"
}

/// Appends the name of a number.
#[tactic(auto, unfolding(crate::specs::Made::name_of))]
pub fn push_name(alloc: Global, text: &mut Text, number: u32) -> Result<(), NoMemory>
    ensures { OnOk result (text.new ≡ text.old ++ name_of number) }
{
    let name = format!(in alloc; "c{number}")?;
    text.push_str(name.as_str())
}

/// Appends the name of a crate by the crate's number; two crates share each name.
#[tactic(auto, unfolding(crate::specs::Made::name_at))]
pub fn push_name_at(alloc: Global, text: &mut Text, number: u32) -> Result<(), NoMemory>
    ensures { OnOk result (text.new ≡ text.old ++ name_at number) }
{
    push_name(alloc, text, number / 2)
}

/// The version of a crate.
#[tactic(auto, unfolding(crate::specs::Made::version_at))]
pub fn version_at(number: u32) -> &'static str
    ensures { result.now ≡ version_at number }
{
    if number % 2 == 0 { "1.0.0" } else { "2.0.0" }
}

/// Appends the id of a crate.
#[tactic(auto, unfolding(crate::specs::MetadataText::id_at))]
pub fn push_id_at(alloc: Global, text: &mut Text, number: u32) -> Result<(), NoMemory>
    ensures { OnOk result (text.new ≡ text.old ++ id_at number) }
{
    text.push_str(registry())?;
    text.push_str("#")?;
    push_name_at(alloc, text, number)?;
    text.push_str("@")?;
    text.push_str(version_at(number))
}

/// The divider before an element of a list; empty before the first element.
pub fn divided(number: u32, divider: &'static str) -> &'static str
    ensures { result.now ≡ divided number divider.now }
{
    if number == 0 { "" } else { divider }
}

/// The numbers below a bound.
pub fn below(alloc: Global, bound: u32) -> Result<Vec<u32>, AllocError>
    ensures { IfOk result (λ numbers. numbers.items ≡ below bound) }
{
    (0..bound).collect(alloc)
}
