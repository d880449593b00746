//! The manifest of a crate.
ghost use Rattle.std.specs.Prelude.{◌≡◌, ◌≢◌, ◌<◌, ◌^◌, ℕ, List, IfNone, IfOk, IfSome, Err, None, Some};
ghost use Rattle.std.specs.Prelude.{length, not, position, slice_get, if◌then◌else◌};
ghost use Rattle.std.specs.Iterator.{YieldsFirstRef, item_count};
ghost use Rattle.deny_krates.specs.Crates.{crate_view};
ghost use Rattle.deny_krates.specs.Ids.{crate_of};
ghost use Rattle.deny_spans_manifest.specs.Fault.{HasNoTree};
ghost use Rattle.deny_spans_manifest.specs.Ignored.{is_among};
ghost use Rattle.deny_spans_manifest.specs.Manifest.{HasNoNode, IsManifestBy, IsManifestOf, IsOwn};
ghost use Rattle.deny_spans_manifest.specs.Manifest.{deps_in, deps_left, ignored_by, without};
ghost use Rattle.deny_toml.specs.Parser.{IsTreeOf};

use crate::declarations::{ManifestDep, deps_of};
use crate::fault::ManifestFault;
use crate::ignored::{ignored_at, is_among};
use crate::sections::Sections;
use deny_base::FileId;
use deny_base_lists::{List, NoMemory};
use deny_krates::{DepKind, Krate, Krates};
use deny_toml::{Value, parse};
use std::alloc::Global;

/// The manifest of a crate: which of its declarations are written there, and where.
#[derive(Drop)]
pub struct Manifest<'k> {
    /// The file that spans point into; 0 until the text is added to files.
    pub id: FileId,
    /// The crate.
    pub krate: &'k Krate,
    deps: List<ManifestDep<'k>>,
    ignored: List<DepKind>,
}

impl<'k> Manifest<'k> {
    /// The manifest of a crate with this text.
    ///
    /// `Toml` comes exactly where the text is no TOML or goes past the limits, and is tested first. `NoNode`
    /// comes exactly where no crate of the graph has the crate's id.
    pub fn parse(
        alloc: Global,
        krate: &'k Krate,
        krates: &'k Krates,
        contents: &str,
    ) -> Result<Manifest<'k>, ManifestFault>
        requires small { length contents.now < 2 ^ 28 }
        requires own { IsOwn krates.now krate.now }
        ensures manifest { IfOk result (IsManifestOf krates.now krate.now.id.0 contents.now) }
        ensures krate { IfOk result (λ m. m.krate.now ≡ krate.now) }
        ensures id { IfOk result (λ m. m.id ≡ 0) }
        ensures toml { result ≡ Err ManifestFault.Toml → HasNoTree contents.now }
        ensures no_node { result ≡ Err ManifestFault.NoNode
            → HasNoNode krates.now krate.now.id.0 contents.now }
    {
        let tree = parse(alloc, contents)?;
        manifest_by(alloc, krates, krate, &tree)
    }

    /// The declarations in their order; with `filter` without the kinds that the manifest ignores.
    pub fn deps(&self, filter: bool) -> ManifestDeps<'_, 'k>
        ensures { deps_left result
            ≡ (if filter then without (ignored_by self.now) (deps_in self.now) else deps_in self.now) }
    {
        ManifestDeps {
            left: self.deps.as_slice(),
            ignored: if filter { self.ignored.as_slice() } else { &[] },
        }
    }
}

/// The manifest of a crate, where it is in the graph, by the tree of its text.
fn manifest_by<'k>(
    alloc: Global,
    krates: &'k Krates,
    krate: &'k Krate,
    tree: &Value<'_>,
) -> Result<Manifest<'k>, ManifestFault>
    requires { IsOwn krates.now krate.now }
    ensures manifest { (text : List ℕ) → IsTreeOf text tree.now
        → IfOk result (IsManifestOf krates.now krate.now.id.0 text) }
    ensures krate { IfOk result (λ m. m.krate.now ≡ krate.now) }
    ensures id { IfOk result (λ m. m.id ≡ 0) }
    ensures toml { result ≢ Err ManifestFault.Toml }
    ensures no_node { result ≡ Err ManifestFault.NoNode → crate_of krates.now krate.now.id.0 ≡ None }
{
    let Some(place) = place_of(krates, krate) else {
        return Err(ManifestFault::NoNode);
    };
    Ok(manifest_at_place(alloc, krates, place, krate, tree)?)
}

/// The place of a crate, where it is in the graph.
fn place_of(krates: &Krates, krate: &Krate) -> Option<u32>
    requires { IsOwn krates.now krate.now }
    ensures none { IfNone result (crate_of krates.now krate.now.id.0 ≡ None) }
    ensures some { IfSome result
        (λ place. crate_of krates.now krate.now.id.0 ≡ Some (crate_view place krate.now)) }
    ensures at_place { IfSome result
        (λ place. slice_get krates.now.crates place ≡ Some (crate_view place krate.now)) }
{
    let _krates = krates.krates();
    krates.nid_for_kid(&krate.id)
}

/// The manifest of the crate at a place, by the tree of its text.
fn manifest_at_place<'k>(
    alloc: Global,
    krates: &'k Krates,
    place: u32,
    krate: &'k Krate,
    tree: &Value<'_>,
) -> Result<Manifest<'k>, NoMemory>
    requires { slice_get krates.now.crates place ≡ Some (crate_view place krate.now) }
    ensures is { IfOk result (IsManifestBy krates.now (crate_view place krate.now) tree.now) }
    ensures krate { IfOk result (λ m. m.krate.now ≡ krate.now) }
    ensures id { IfOk result (λ m. m.id ≡ 0) }
{
    let sections = Sections::of(alloc, tree)?;
    Ok(Manifest {
        id: 0,
        krate,
        deps: deps_of(alloc, krates, place, krate, &sections)?,
        ignored: ignored_at(alloc, krates, place, tree)?,
    })
}

/// An iterator over declarations of a manifest.
#[derive(Drop)]
pub struct ManifestDeps<'m, 'k> {
    left: &'m [ManifestDep<'k>],
    ignored: &'m [DepKind],
}

impl<'m, 'k> Iterator for ManifestDeps<'m, 'k> {
    type Item = &'m ManifestDep<'k>;

    ghost next_gives = { YieldsFirstRef deps_left };

    ghost remaining = { item_count deps_left };

    /// The next declaration; after the last one none.
    fn next(&mut self) -> Option<&'m ManifestDep<'k>> {
        let left = self.left;
        match first_kept(left, self.ignored) {
            Some(place) => {
                self.left = &left[place + 1..];
                Some(&left[place])
            }
            None => {
                self.left = &[];
                None
            }
        }
    }
}

/// The index of the first declaration that is not of an ignored kind.
fn first_kept(deps: &[ManifestDep<'_>], ignored: &[DepKind]) -> Option<usize>
    ensures { result ≡ position (λ m. not (is_among ignored.now m.dep.now.kind)) deps.now }
{
    deps.iter().position(|dep| !is_among(ignored, dep.dep.kind))
}
