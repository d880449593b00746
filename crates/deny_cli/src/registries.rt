//! The registries that options name.
ghost use Rattle.std.specs.Prelude.{◌≡◌, ◌++◌, [], IfOk, OnOk, option_map};
ghost use Rattle.std.specs.List.{cons_option};
ghost use Rattle.deny_cli.specs.private.Commands.{registry_view};
ghost use Rattle.deny_cli.specs.Registries.{named_by, nonempty_registry, registries_in, registry_of};
ghost use Rattle.deny_cli.specs.Arguments.{texts};

use crate::options::behind;
use deny_base_lists::{List, NoMemory, Text};
use deny_spans_workspace::Registry;
use std::alloc::Global;

/// A registry that an option names.
#[derive(Clone, Copy)]
pub struct RegistryOption<'a> {
    pub name: &'a str,
    pub address: &'a str,
}

/// A registry by its name and address, of which neither is empty.
fn nonempty_registry<'w>(name: &'w str, address: &'w str) -> Option<RegistryOption<'w>>
    ensures { option_map registry_view result ≡ nonempty_registry name.now address.now }
{
    if name.is_empty() || address.is_empty() {
        return None;
    }
    Some(RegistryOption { name, address })
}

/// The registry of `NAME=ADDRESS`: the first `=` divides the two.
fn named_by(text: &str) -> Option<RegistryOption<'_>>
    ensures { option_map registry_view result ≡ named_by text.now }
{
    match text.split_once('=') {
        Some((name, address)) => nonempty_registry(name, address),
        None => None,
    }
}

/// The registry that an option names: `--registry=NAME=ADDRESS`.
pub fn registry_of(argument: &str) -> Option<RegistryOption<'_>>
    ensures { option_map registry_view result ≡ registry_of argument.now }
{
    match behind("--registry=", argument) {
        Some(text) => named_by(text),
        None => None,
    }
}

/// Adds the registry that an argument names, if it is such an option.
fn push_registry(
    alloc: Global,
    argument: &str,
    registries: &mut List<Registry>,
) -> Result<(), NoMemory>
    ensures { OnOk result (registries.new ≡ registries.old ++ cons_option (registry_of argument.now) []) }
{
    if let Some(named) = registry_of(argument) {
        registries.push(Registry {
            name: Text::from_str(alloc, named.name)?,
            address: Text::from_str(alloc, named.address)?,
        })?;
    }
    Ok(())
}

/// The registries that the options among arguments name, in their order.
#[tactic(auto, unfolding(crate::specs::Registries::registries_in))]
pub fn registries_in(alloc: Global, arguments: &[String]) -> Result<List<Registry>, NoMemory>
    ensures { IfOk result (λ registries. registries ≡ registries_in (texts arguments.now)) }
{
    let mut registries = List::new(alloc);
    for argument in arguments {
        push_registry(alloc, argument.as_str(), &mut registries)?;
    }
    Ok(registries)
}
