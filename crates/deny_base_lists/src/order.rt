ghost use Rattle.std.specs.Prelude.{◌≡◌, Contains, OnOk, OnErr, map};
ghost use Rattle.std.specs.FinMap.{IsAntisymmetric};
ghost use Rattle.std.specs.Ordering.{eq_by_cmp};
ghost use Rattle.deny_base_lists.specs.Ascending.{AreFirst, Lists};

use crate::list::List;
use crate::memory::NoMemory;

/// Puts a list in ascending order, each item once. Where memory runs out, the list stays as it was.
pub fn put_in_order<T: Ord + Drop>(list: &mut List<T>) -> Result<(), NoMemory>
    requires { IsAntisymmetric T.cmp }
    ensures ok { OnOk result (Lists T.cmp (Contains list.old) list.new) }
    ensures err { OnErr result (list.new ≡ list.old) }
{
    list.vec.sort()?;
    list.vec.dedup();
    Ok(())
}

/// A record with a key by which lists of it are put in order.
pub trait Keyed {
    type Key: Ord;

    ghost key: { Self → Self.Key };

    /// The key of the record.
    fn key(&self) -> &Self::Key
        ensures { result.now ≡ key self.now };
}

/// Puts records in ascending order of their keys, one for each key: the first of the list that
/// has it. Where memory runs out, the list stays as it was.
pub fn put_records_in_order<T: Keyed + Drop>(list: &mut List<T>) -> Result<(), NoMemory>
    requires { IsAntisymmetric T.Key.cmp }
    ensures keys { OnOk result (Lists T.Key.cmp (Contains (map T.key list.old)) (map T.key list.new)) }
    ensures records { OnOk result (AreFirst T.Key.cmp T.key list.old list.new) }
    ensures err { OnErr result (list.new ≡ list.old) }
{
    list.vec.sort_by(|a, b| a.key().cmp(b.key()))?;
    list.vec.dedup_by(|a, b| have_same_key(a, b));
    Ok(())
}

fn have_same_key<T: Keyed>(a: &T, b: &T) -> bool
    ensures { result ≡ eq_by_cmp T.Key.cmp (T.key a.now) (T.key b.now) }
{
    a.key() == b.key()
}
