//! Specs as messages show them.
ghost use Rattle.std.specs.Prelude.{◌≡◌, IfOk};
ghost use Rattle.deny_spec.specs.DiagParts.{spec_text};
ghost use Rattle.deny_cfg_entries.specs.SpecView.{spec_view};

use deny_base_lists::{NoMemory, Text};
use deny_cfg_entries::PackageSpec;
use std::alloc::Global;

/// How messages show a spec: its name, and its requirement as it is written.
#[tactic(auto, unfolding(deny_spec::specs::DiagParts::spec_text))]
pub fn spec_text(alloc: Global, spec: &PackageSpec) -> Result<Text, NoMemory>
    ensures { IfOk result (λ text. text ≡ spec_text (spec_view spec.now)) }
{
    let name = &spec.name.value;
    match &spec.req_text {
        Some(written) => Ok(Text::from_string(format!(in alloc; "{name} = {written}")?)),
        None => Ok(name.clone()?),
    }
}
