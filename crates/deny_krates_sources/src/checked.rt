ghost use Rattle.std.specs.Prelude.{◌≡◌, ◌<◌, ◌^◌, ◌++◌, List, Ok, Err};
ghost use Rattle.std.specs.Prelude.{Some, OnOk, IfOk, length};
ghost use Rattle.deny_base_lists.specs.Reader.{Answers, Gives, IsFault, Passes, each, each_passes};
ghost use Rattle.deny_krates_sources.specs.Checked.{resolved, resolved_by, number_or, known};
ghost use Rattle.deny_krates_sources.specs.Checked.{links_to, links_of, resolved_node, manifest_path_reads};
ghost use Rattle.deny_krates_sources.specs.Checked.{packages_read};
ghost use Rattle.deny_krates_sources.specs.private.Index.{number_by};
ghost use Rattle.deny_krates_sources.specs.PackageTexts.{AreTextsOf};

use crate::index::{HashedId, index_of, number_by};
use crate::package_texts::{PackageTexts, requirements_of, sources_of, versions_of};
use deny_base_lists::{List, NoMemory, Text};
use deny_krates_metadata::{
    Document, MetadataFault, MetadataNode, MetadataPackage, NeededAs, NodeDependency,
};
use std::alloc::Global;
use std::collections::BTreeMap;

/// A dependency on a node, by the node's number, with the kind and the target for which it is needed.
#[derive(Drop)]
pub struct Link {
    pub node: u32,
    pub needed_as: NeededAs,
}

/// The row of a node, to which it resolves: the number of its package, and its links.
#[derive(Drop)]
pub struct ResolvedNode {
    pub owner: u32,
    pub links: List<Link>,
}

/// The numbers of the packages and of the nodes, by their ids.
#[derive(Drop)]
struct IdIndexes<'d> {
    pub packages: BTreeMap<HashedId<'d>, u32>,
    pub nodes: BTreeMap<HashedId<'d>, u32>,
}

// The fault of an id that no package or no node has.
fn dangles<T>(alloc: Global, id: &str) -> Result<T, MetadataFault>
    ensures { Answers MetadataFault.Memory (Err (MetadataFault.DanglingId id.now)) result }
{
    Err(MetadataFault::DanglingId(Text::from_str(alloc, id)?))
}

// The number of an id in an index, or the fault of an id that is not there.
#[tactic(auto, unfolding(crate::specs::Checked::number_or))]
fn required_number<'d>(
    alloc: Global,
    index: &BTreeMap<HashedId<'d>, u32>,
    id: &'d str,
) -> Result<u32, MetadataFault>
    ensures { Answers MetadataFault.Memory (number_or id.now (number_by index.now id.now)) result }
{
    match number_by(index, id) {
        Some(number) => Ok(number),
        None => dangles(alloc, id),
    }
}

// The number of the node of an id, or the fault of an id that no package or no node has.
#[tactic(auto, unfolding(crate::specs::Checked::known))]
fn known_number<'d>(
    alloc: Global,
    indexes: &IdIndexes<'d>,
    id: &'d str,
) -> Result<u32, MetadataFault>
    ensures { Answers MetadataFault.Memory
        (known (number_by indexes.now.packages) (number_by indexes.now.nodes) id.now) result }
{
    required_number(alloc, &indexes.packages, id)?;
    required_number(alloc, &indexes.nodes, id)
}

// The numbers of the members' nodes.
fn numbers<'d>(
    alloc: Global,
    indexes: &IdIndexes<'d>,
    members: &'d [Text],
) -> Result<List<u32>, MetadataFault>
    ensures { Answers MetadataFault.Memory
        (each (known (number_by indexes.now.packages) (number_by indexes.now.nodes)) members.now) result }
{
    let mut numbers = List::new(alloc);
    for member in members {
        numbers.push(known_number(alloc, indexes, member.as_str())?)?;
    }
    Ok(numbers)
}

// Appends a link for each kind.
fn push_links(links: &mut List<Link>, node: u32, kinds: &[NeededAs]) -> Result<(), NoMemory>
    ensures { OnOk result (links.new ≡ links.old ++ links_to node kinds.now) }
{
    for kind in kinds {
        links.push(Link {
            node,
            needed_as: kind.clone()?,
        })?;
    }
    Ok(())
}

// The links of dependencies, in their order.
fn links_in<'d>(
    alloc: Global,
    indexes: &IdIndexes<'d>,
    deps: &'d [NodeDependency],
) -> Result<List<Link>, MetadataFault>
    ensures { Answers MetadataFault.Memory
        (links_of (number_by indexes.now.packages) (number_by indexes.now.nodes) deps.now) result }
{
    let mut links = List::new(alloc);
    for dep in deps {
        let node = known_number(alloc, indexes, dep.pkg.as_str())?;
        push_links(&mut links, node, dep.kinds.as_slice())?;
    }
    Ok(links)
}

// Resolves a node to its row.
#[tactic(auto, unfolding(crate::specs::Checked::resolved_node))]
fn resolve_node<'d>(
    alloc: Global,
    indexes: &IdIndexes<'d>,
    node: &'d MetadataNode,
) -> Result<ResolvedNode, MetadataFault>
    ensures { Answers MetadataFault.Memory
        (resolved_node (number_by indexes.now.packages) (number_by indexes.now.nodes) node.now) result }
{
    let owner = required_number(alloc, &indexes.packages, node.id.as_str())?;
    let links = links_in(alloc, indexes, node.deps.as_slice())?;
    Ok(ResolvedNode { owner, links })
}

// Resolves each node to its row.
fn resolve_nodes<'d>(
    alloc: Global,
    indexes: &IdIndexes<'d>,
    nodes: &'d [MetadataNode],
) -> Result<List<ResolvedNode>, MetadataFault>
    ensures { Answers MetadataFault.Memory
        (each (resolved_node (number_by indexes.now.packages) (number_by indexes.now.nodes)) nodes.now) result }
{
    let mut rows = List::new(alloc);
    for node in nodes {
        rows.push(resolve_node(alloc, indexes, node)?)?;
    }
    Ok(rows)
}

// Checks that the path of a package's manifest names a folder.
#[tactic(auto, unfolding(crate::specs::Checked::manifest_path_reads))]
fn check_manifest_path(listed: &MetadataPackage) -> Result<(), MetadataFault>
    ensures { Answers MetadataFault.Memory (manifest_path_reads listed.now) result }
{
    if listed.manifest_path.as_str().as_bytes().contains(&b'/') {
        Ok(())
    } else {
        Err(MetadataFault::ManifestPath(listed.id.clone()?))
    }
}

// Checks that the path of each package's manifest names a folder.
fn check_manifest_paths(packages: &[MetadataPackage]) -> Result<(), MetadataFault>
    ensures { Answers MetadataFault.Memory (each_passes manifest_path_reads packages.now) result }
{
    for listed in packages {
        check_manifest_path(listed)?;
    }
    Ok(())
}

// Parses the texts of the packages, or gives the first fault in them.
#[tactic(auto, unfolding(crate::specs::Checked::packages_read))]
fn read_packages(alloc: Global, packages: &[MetadataPackage]) -> Result<PackageTexts, MetadataFault>
    ensures faults { Passes MetadataFault.Memory (packages_read packages.now) result }
    ensures texts { IfOk result (AreTextsOf packages.now) }
{
    let versions = versions_of(alloc, packages)?;
    let requirements = requirements_of(alloc, packages)?;
    let sources = sources_of(alloc, packages)?;
    check_manifest_paths(packages)?;
    Ok(PackageTexts {
        versions,
        requirements,
        sources,
    })
}

/// What a document resolves to: the numbers of the members' nodes, the row of each node, and the parsed texts of
/// the packages.
#[derive(Drop)]
pub struct Resolution {
    pub starts: List<u32>,
    pub rows: List<ResolvedNode>,
    pub texts: PackageTexts,
}

// Resolves a document by the indexes of its ids.
#[tactic(auto, unfolding(crate::specs::Checked::resolved_by))]
fn resolve_indexed<'d>(
    alloc: Global,
    indexes: &IdIndexes<'d>,
    document: &'d Document,
) -> Result<Resolution, MetadataFault>
    ensures numbers { Gives MetadataFault.Memory (λ r.
        resolved_by (number_by indexes.now.packages) (number_by indexes.now.nodes) document.now
        ≡ Ok (record { document = document.now; starts = r.starts; rows = r.rows }))
        (IsFault (resolved_by (number_by indexes.now.packages) (number_by indexes.now.nodes) document.now)) result }
    ensures texts { IfOk result (λ r. AreTextsOf document.now.packages r.texts) }
{
    let starts = numbers(alloc, indexes, document.members.as_slice())?;
    let rows = resolve_nodes(alloc, indexes, document.nodes.as_slice())?;
    let texts = read_packages(alloc, document.packages.as_slice())?;
    Ok(Resolution {
        starts,
        rows,
        texts,
    })
}

/// Resolves the ids of a document to the numbers of its nodes, and parses the texts of its packages; or
/// gives its first fault.
pub fn resolve(alloc: Global, document: &Document) -> Result<Resolution, MetadataFault>
    requires packages { length document.now.packages < 2 ^ 28 }
    requires nodes { length document.now.nodes < 2 ^ 28 }
    ensures numbers { Gives MetadataFault.Memory (λ r.
        resolved document.now ≡ Ok (record { document = document.now; starts = r.starts; rows = r.rows }))
        (IsFault (resolved document.now)) result }
    ensures texts { IfOk result (λ r. AreTextsOf document.now.packages r.texts) }
{
    let packages = index_of(alloc, document.packages.as_slice())?;
    let nodes = index_of(alloc, document.nodes.as_slice())?;
    let indexes = IdIndexes { packages, nodes };
    resolve_indexed(alloc, &indexes, document)
}
