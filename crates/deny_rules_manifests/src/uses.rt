//! The declarations of members that count for what a workspace shares, by the crates that they resolve
//! to.
ghost use Rattle.std.specs.Prelude.{◌≡◌, ◌++◌, ◌∷◌, ◌<◌, ℕ, [], All, IfOk, List, OnOk, length, replicate};
ghost use Rattle.deny_cfg.specs.PolicyView.{policy_view, sharing_view};
ghost use Rattle.deny_spec_report.specs.Sharing.{Use as Counted, all_uses, is_unshared, uses_at, uses_in};
ghost use Rattle.deny_spans_manifest.specs.Manifest.{dep_view, deps_in};
ghost use Rattle.deny_spans.specs.SpansView.{AreSpansOf, manifest_view, spans_view};
ghost use Rattle.deny_rules_manifests.specs.Uses.{AreUses, row_at, rows_in, use_view};
ghost use Rattle.deny_rules_manifests.specs.private.Rows.{AreRowsOf, counted_in, counts_by};

use deny_base::FileId;
use deny_base_lists::{List, NoMemory};
use deny_cfg::bans::cfg::{ValidConfig, WorkspaceDepsConfig};
use deny_krates::Krates;
use deny_rules_match::are_placed;
use deny_spans::{KrateSpans, Manifest, ManifestDep};
use std::alloc::Global;

/// A declaration, and the file that it is in.
#[derive(Clone, Copy)]
pub struct Use<'s, 'k> {
    /// The file that the declaration's spans point into.
    pub file: FileId,
    pub dep: &'s ManifestDep<'k>,
}

/// The declarations that count, by the place of the crate that they resolve to.
#[derive(Drop)]
pub struct Uses<'s, 'k> {
    rows: List<List<Use<'s, 'k>>>,
}

impl<'s, 'k> Uses<'s, 'k> {
    /// The declarations that resolve to the crate at a place, by the places of the members that write
    /// them and in the order of their manifests.
    pub fn at(&self, place: u32) -> &[Use<'s, 'k>]
        ensures { result.now ≡ row_at (rows_in self.now) place }
    {
        let Some(row) = self.rows.as_slice().get(place as usize) else {
            return no_uses();
        };
        row.as_slice()
    }
}

fn no_uses<'a, 's, 'k>() -> &'a [Use<'s, 'k>]
    ensures { result.now ≡ [] }
{
    &[]
}

/// The declarations of all members that count, as the policy says. Without `workspace-dependencies` none do.
pub fn uses_of<'s, 'k>(
    alloc: Global,
    cfg: &ValidConfig,
    krates: &Krates,
    spans: &'s KrateSpans<'k>,
) -> Result<Uses<'s, 'k>, NoMemory>
    requires { AreSpansOf krates.now spans.now }
    ensures { IfOk result (AreUses (policy_view cfg.now) krates.now (spans_view spans.now)) }
{
    match &cfg.workspace_dependencies {
        Some(sharing) => Ok(Uses {
            rows: rows_of(alloc, sharing, krates, spans)?,
        }),
        None => Ok(Uses {
            rows: List::new(alloc),
        }),
    }
}

/// The row of each crate: the declarations that resolve to it.
fn rows_of<'s, 'k>(
    alloc: Global,
    sharing: &WorkspaceDepsConfig,
    krates: &Krates,
    spans: &'s KrateSpans<'k>,
) -> Result<List<List<Use<'s, 'k>>>, NoMemory>
    requires { AreSpansOf krates.now spans.now }
    ensures { IfOk result (AreRowsOf (length krates.now.crates)
        (all_uses (sharing_view sharing.now) krates.now (spans_view spans.now))) }
{
    let mut rows = no_rows(alloc, krates.krates().len())?;
    let members = krates.workspace_members();
    for member in members {
        put_uses_at(sharing, krates, spans, *member, &mut rows)?;
    }
    Ok(List::from_vec(rows))
}

/// An empty row for each crate.
fn no_rows<'s, 'k>(alloc: Global, crates: usize) -> Result<Vec<List<Use<'s, 'k>>>, NoMemory>
    ensures { IfOk result (λ rows. rows.items ≡ replicate crates []) }
{
    let mut rows: Vec<List<Use<'s, 'k>>> = Vec::new(alloc);
    for _place in 0..crates {
        let row: List<Use<'s, 'k>> = List::new(alloc);
        rows.push(row)?;
    }
    Ok(rows)
}

/// Adds the declarations of the member at a place to the rows.
fn put_uses_at<'s, 'k>(
    sharing: &WorkspaceDepsConfig,
    krates: &Krates,
    spans: &'s KrateSpans<'k>,
    member: u32,
    rows: &mut Vec<List<Use<'s, 'k>>>,
) -> Result<(), NoMemory>
    requires spans { AreSpansOf krates.now spans.now }
    requires long { length rows.old.items ≡ length krates.now.crates }
    ensures { OnOk result ((uses : List Counted) → AreRowsOf (length krates.now.crates) uses rows.old.items
        → AreRowsOf (length krates.now.crates) (uses
        ++ uses_at (sharing_view sharing.now) krates.now (spans_view spans.now) member) rows.new.items) }
{
    are_placed(krates);
    match spans.manifest_at(member) {
        Some(manifest) => put_manifest_uses(sharing, manifest, rows),
        None => Ok(()),
    }
}

/// Adds the declarations of a manifest to the rows.
fn put_manifest_uses<'s, 'k>(
    sharing: &WorkspaceDepsConfig,
    manifest: &'s Manifest<'k>,
    rows: &mut Vec<List<Use<'s, 'k>>>,
) -> Result<(), NoMemory>
    requires { All (λ d. d.place < length rows.old.items) (deps_in manifest.now) }
    ensures { OnOk result ((uses : List Counted) (crates : ℕ) → AreRowsOf crates uses rows.old.items
        → AreRowsOf crates (uses ++ uses_in (sharing_view sharing.now) (manifest_view manifest.now)) rows.new.items) }
{
    for dep in manifest.deps(true) {
        put_counted(sharing, manifest.id, dep, rows)?;
    }
    Ok(())
}

/// Adds a declaration to the row of its crate, where it counts.
fn put_counted<'s, 'k>(
    sharing: &WorkspaceDepsConfig,
    file: FileId,
    dep: &'s ManifestDep<'k>,
    rows: &mut Vec<List<Use<'s, 'k>>>,
) -> Result<(), NoMemory>
    requires { dep.now.place < length rows.old.items }
    ensures long { length rows.new.items ≡ length rows.old.items }
    ensures put { OnOk result ((uses : List Counted) (crates : ℕ) → AreRowsOf crates uses rows.old.items
        → AreRowsOf crates (uses ++ counted_in file (sharing_view sharing.now) (dep.now ∷ [])) rows.new.items) }
{
    if !counts(sharing, dep) {
        return Ok(());
    }
    put_use(rows, Use { file, dep })
}

/// Whether a declaration counts: one by a path does only where the policy says so.
fn counts(sharing: &WorkspaceDepsConfig, dep: &ManifestDep<'_>) -> bool
    ensures { result ≡ counts_by (sharing_view sharing.now) (dep_view dep.now) }
{
    sharing.include_path_dependencies || dep.dep.path.is_none()
}

/// Adds a declaration at the end of the row of its crate.
fn put_use<'s, 'k>(rows: &mut Vec<List<Use<'s, 'k>>>, one: Use<'s, 'k>) -> Result<(), NoMemory>
    requires { one.dep.now.place < length rows.old.items }
    ensures long { length rows.new.items ≡ length rows.old.items }
    ensures put { OnOk result ((uses : List Counted) (crates : ℕ) → AreRowsOf crates uses rows.old.items
        → AreRowsOf crates (uses ++ use_view one.entry ∷ []) rows.new.items) }
{
    let row = &mut rows[one.dep.place as usize];
    row.push(one)?;
    Ok(())
}

/// Whether a declaration has no key `workspace`.
#[tactic(auto, unfolding(deny_spec_report::specs::Sharing::is_unshared))]
pub fn is_unshared(one: &Use<'_, '_>) -> bool
    ensures { result ≡ is_unshared (use_view one.now) }
{
    one.dep.workspace.is_none()
}
