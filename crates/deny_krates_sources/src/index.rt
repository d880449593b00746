ghost use Rattle.std.specs.Prelude.{◌≡◌, ◌<◌, ◌^◌, ℕ, List, Ok, Err, IfOk, length, map};
ghost use Rattle.deny_krates_sources.specs.Checked.{distinct};
ghost use Rattle.deny_krates_sources.specs.private.Index.{IsIndex, hash_of, number_by};
ghost use Rattle.deny_base_lists.specs.Reader.{Passes};

use deny_base_lists::Text;
use deny_krates_metadata::{MetadataFault, MetadataNode, MetadataPackage};
use std::alloc::Global;
use std::collections::BTreeMap;

/// An id with its hash. Ids are compared by their hashes first, since the ids of one graph share long
/// prefixes.
#[derive(Clone, Copy, PartialEq, Eq, PartialOrd, Ord)]
pub struct HashedId<'d> {
    pub hash: u32,
    pub id: &'d str,
}

// An id with its hash.
fn hashed(id: &str) -> HashedId<'_>
    ensures hash { result.hash ≡ hash_of id.now }
    ensures id { result.id.now ≡ id.now }
{
    HashedId {
        hash: hash_of(id.as_bytes()),
        id,
    }
}

// The hash of a text.
fn hash_of(text: &[u8]) -> u32
    ensures { result ≡ hash_of text.now }
{
    let mut hash: u32 = 0;
    for byte in text {
        hash = hash.wrapping_mul(31).wrapping_add(u32::from(*byte));
    }
    hash
}

/// The number of an id in an index.
pub fn number_by<'d>(index: &BTreeMap<HashedId<'d>, u32>, id: &'d str) -> Option<u32>
    ensures { result ≡ number_by index.now id.now }
{
    let key = hashed(id);
    index.get(&key).copied()
}

/// An item that has an id.
pub trait Identified {
    ghost id_of: { Self → List ℕ };

    /// The id.
    fn id(&self) -> &str
        ensures { result.now ≡ id_of self.now };
}

impl Identified for MetadataPackage {
    ghost id_of = { λ p. p.id };

    fn id(&self) -> &str {
        self.id.as_str()
    }
}

impl Identified for MetadataNode {
    ghost id_of = { λ n. n.id };

    fn id(&self) -> &str {
        self.id.as_str()
    }
}

/// The indices of a list's items by their ids, or the fault of the first id that an earlier item has.
pub fn index_of<'n, T: Identified>(
    alloc: Global,
    things: &'n [T],
) -> Result<BTreeMap<HashedId<'n>, u32>, MetadataFault>
    requires { length things.now < 2 ^ 28 }
    ensures index { IfOk result (λ index. IsIndex index (map T.id_of things.now)) }
    ensures distinct { Passes MetadataFault.Memory (distinct (map T.id_of things.now)) result }
{
    let mut index = BTreeMap::new(alloc);
    for (number, thing) in things.iter().enumerate() {
        let id = thing.id();
        let key = hashed(id);
        if index.contains_key(&key) {
            return Err(MetadataFault::DuplicateId(Text::from_str(alloc, id)?));
        }
        index.insert(key, number as u32)?;
    }
    Ok(index)
}
