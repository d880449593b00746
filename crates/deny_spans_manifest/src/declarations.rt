//! The declarations of a crate that its manifest writes.
ghost use Rattle.std.specs.Prelude.{◌≡◌, ◌++◌, [], ℕ, Bool, List, IfOk, IfSome};
ghost use Rattle.std.specs.Prelude.{OnOk, All, Some, map, option_map, slice_get};
ghost use Rattle.std.specs.List.{cons_option};
ghost use Rattle.deny_krates.specs.Crates.{crate_view, dependency_view};
ghost use Rattle.deny_spans_manifest.specs.Agreement.{ReportsAgreement};
ghost use Rattle.deny_spans_manifest.specs.Declarations.{declared_at, declared_in};
ghost use Rattle.deny_spans_manifest.specs.Manifest.{IsOfGraph, dep_view};
ghost use Rattle.deny_spec.specs.Resolution.{declaration_at};
ghost use Rattle.deny_spans_manifest.specs.private.Sections.{IsIndexOf};
ghost use Rattle.deny_toml.specs.value.Value.{Value};

use crate::found::{rename_of, version_of, workspace_of};
use crate::sections::Sections;
use deny_base::{Span, Spanned};
use deny_base_lists::{List, NoMemory, Text};
use deny_krates::{Dependency, Krate, Krates};
use semver::VersionReq;
use std::alloc::Global;

/// A declaration of a crate that resolves, and that its manifest writes.
#[derive(Drop)]
pub struct ManifestDep<'k> {
    /// The declaration, and its index among those of the crate.
    pub dep: &'k Dependency,
    pub index: usize,
    /// The crate that it resolves to, and its place in the graph.
    pub krate: &'k Krate,
    pub place: u32,
    /// The key that it is written under.
    pub key_span: Span,
    /// The value that it is written by.
    pub value_span: Span,
    /// The requirement that semver reads in the value's text, or in the text at `version`.
    pub version_req: Option<Spanned<VersionReq>>,
    /// The flag at `workspace`.
    pub workspace: Option<Spanned<bool>>,
    /// The text at `package`.
    pub rename: Option<Spanned<Text>>,
}

/// The declarations of the crate at a place that resolve and that the manifest writes, in their order.
pub fn deps_of<'k>(
    alloc: Global,
    krates: &'k Krates,
    place: u32,
    krate: &'k Krate,
    sections: &Sections<'_, '_>,
) -> Result<List<ManifestDep<'k>>, NoMemory>
    requires at_place { slice_get krates.now.crates place ≡ Some (crate_view place krate.now) }
    ensures declared { IfOk result (λ deps. (agrees : List ℕ → List ℕ → Bool) → ReportsAgreement agrees
        → (tree : Value) → IsIndexOf tree sections.now
        → map dep_view deps ≡ declared_in agrees krates.now (crate_view place krate.now) tree) }
    ensures krates { IfOk result (All (IsOfGraph krates.now)) }
{
    let mut deps = List::new(alloc);
    for (index, dep) in krate.deps.as_slice().iter().enumerate() {
        let found = dep_at(alloc, krates, place, index, dep, sections)?;
        push_found(&mut deps, found)?;
    }
    Ok(deps)
}

fn push_found<'k>(
    deps: &mut List<ManifestDep<'k>>,
    found: Option<ManifestDep<'k>>,
) -> Result<(), NoMemory>
    ensures { OnOk result (deps.new ≡ deps.old ++ cons_option found.entry []) }
{
    match found {
        Some(dep) => deps.push(dep),
        None => Ok(()),
    }
}

/// A declaration of the crate at a place, where it resolves and the manifest writes it.
fn dep_at<'k>(
    alloc: Global,
    krates: &'k Krates,
    place: u32,
    index: usize,
    dep: &'k Dependency,
    sections: &Sections<'_, '_>,
) -> Result<Option<ManifestDep<'k>>, NoMemory>
    requires numbered { declaration_at krates.now place index ≡ Some (dependency_view dep.now) }
    ensures declared { IfOk result (λ found. (agrees : List ℕ → List ℕ → Bool) → ReportsAgreement agrees
        → (tree : Value) → IsIndexOf tree sections.now
        → option_map dep_view found
        ≡ declared_at agrees krates.now place tree (index, dependency_view dep.now)) }
    ensures krates { IfOk result (λ found. IfSome found (IsOfGraph krates.now)) }
{
    let Some(child) = krates.resolved_dependency(place, index) else {
        return Ok(None);
    };
    let Some(krate) = krates.krates().get(child as usize) else {
        return Ok(None);
    };
    let Some((key, value)) = sections.find(alloc, dep)? else {
        return Ok(None);
    };
    Ok(Some(ManifestDep {
        dep,
        index,
        krate,
        place: child,
        key_span: key.span,
        value_span: value.span,
        version_req: version_of(alloc, value)?,
        workspace: workspace_of(value),
        rename: rename_of(alloc, value)?,
    }))
}
