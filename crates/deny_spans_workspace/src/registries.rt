//! The known registries, and the sources of crates that they stand for.
ghost use Rattle.std.specs.Prelude.{◌≡◌, IfOk, find, option_copied};
ghost use Rattle.deny_krates.specs.Crates.{source_view};
ghost use Rattle.deny_spans_workspace.specs.Registries.{begins_with, has_prefix, has_registry_name, is_same_source};
ghost use Rattle.deny_spans_workspace.specs.Registries.{source_of_registry, source_text_of};

use deny_base_lists::{NoMemory, Text};
use deny_krates::{Source, source_in};
use std::alloc::Global;

/// A registry that manifests can name.
#[derive(Drop)]
pub struct Registry {
    pub name: Text,
    /// The address of its index, as a source of metadata writes it: with `registry+` or `sparse+` before
    /// it, or without, which is as with `registry+`.
    pub address: Text,
}

/// Whether an address begins with the kind of its source.
#[tactic(auto, unfolding(crate::specs::Registries::has_prefix))]
fn has_prefix(address: &str) -> bool
    ensures { result ≡ has_prefix address.now }
{
    begins_with("registry+", address)
        || begins_with("sparse+", address)
        || begins_with("git+", address)
}

fn begins_with(prefix: &str, text: &str) -> bool
    ensures { result ≡ begins_with prefix.now text.now }
{
    text.as_bytes().starts_with(prefix.as_bytes())
}

#[tactic(auto, unfolding(crate::specs::Registries::source_text_of))]
fn source_text_of(alloc: Global, address: &str) -> Result<Text, NoMemory>
    ensures { IfOk result (λ text. text ≡ source_text_of address.now) }
{
    if has_prefix(address) {
        return Text::from_str(alloc, address);
    }
    let mut text = Text::from_str(alloc, "registry+")?;
    text.push_str(address)?;
    Ok(text)
}

fn first_named<'r>(registries: &'r [Registry], name: &str) -> Option<&'r Registry>
    ensures { option_copied result ≡ find (has_registry_name name.now) registries.now }
{
    registries
        .iter()
        .find(|registry| registry.name.as_str() == name)
}

/// The source that the address of the first registry with a name parses as.
#[tactic(auto, unfolding(crate::specs::Registries::source_of_registry))]
pub fn source_of_registry(
    alloc: Global,
    registries: &[Registry],
    name: &str,
) -> Result<Option<Source>, NoMemory>
    ensures { IfOk result (λ source. source ≡ source_of_registry registries.now name.now) }
{
    let Some(registry) = first_named(registries, name) else {
        return Ok(None);
    };
    let text = source_text_of(alloc, registry.address.as_str())?;
    source_in(alloc, text.as_str())
}

/// Whether sources are equal by their kind and the text of their address.
#[tactic(auto, unfolding(crate::specs::Registries::is_same_source))]
pub fn is_same_source(a: &Source, b: &Source) -> bool
    ensures { result ≡ is_same_source (source_view a.now) (source_view b.now) }
{
    match (a, b) {
        (Source::CratesIo(a), Source::CratesIo(b)) => *a == *b,
        (Source::Registry(a), Source::Registry(b)) => a.as_str() == b.as_str(),
        (Source::Sparse(a), Source::Sparse(b)) => a.as_str() == b.as_str(),
        (Source::Git { url: a, .. }, Source::Git { url: b, .. }) => a.as_str() == b.as_str(),
        (Source::CratesIo(_) | Source::Registry(_) | Source::Sparse(_) | Source::Git { .. }, _) =>
            false,
    }
}
