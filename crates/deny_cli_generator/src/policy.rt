//! The generated policy.
ghost use Rattle.std.specs.Prelude.{◌≡◌, ◌++◌, IfOk, OnOk, flat_map};
ghost use Rattle.deny_cli_generator.specs.PolicyText.{policy_text, skip_text};

use crate::made::{below, divided, push_name};
use deny_base_lists::{NoMemory, Text};
use std::alloc::Global;

/// Appends the entry of `skip` for a name, where ten divides the name's number.
#[tactic(auto, unfolding(crate::specs::PolicyText::skip_text))]
fn push_skip(alloc: Global, text: &mut Text, number: u32) -> Result<(), NoMemory>
    ensures { OnOk result (text.new ≡ text.old ++ skip_text number) }
{
    if number % 10 != 0 {
        return Ok(());
    }
    text.push_str(divided(number, ", "))?;
    text.push_str("\"")?;
    push_name(alloc, text, number)?;
    text.push_str("@=1.0.0\"")
}

fn push_skips(alloc: Global, text: &mut Text, numbers: &[u32]) -> Result<(), NoMemory>
    ensures { OnOk result (text.new ≡ text.old ++ flat_map skip_text numbers.now) }
{
    for number in numbers {
        push_skip(alloc, text, *number)?;
    }
    Ok(())
}

/// The policy for a number of crates: it denies the crate `c1`, and several versions of any crate but those of
/// every tenth name.
#[tactic(auto, unfolding(crate::specs::PolicyText::policy_text))]
pub fn policy_of(alloc: Global, crates: u32) -> Result<Text, NoMemory>
    ensures { IfOk result (λ text. text ≡ policy_text crates) }
{
    let names = below(alloc, crates / 2 + crates % 2)?;
    let mut text = Text::new(alloc);
    text.push_str("[bans]\nmultiple-versions = \"deny\"\ndeny = [\"c1\"]\nskip = [")?;
    push_skips(alloc, &mut text, names.as_slice())?;
    text.push_str("]\n")?;
    Ok(text)
}
