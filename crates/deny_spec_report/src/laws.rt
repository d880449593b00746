ghost use Rattle.std.specs.Prelude.{◌≡◌, ◌++◌, Bool, Contains, IsTrue, List, Option};
ghost use Rattle.deny_base_lists.specs.Ascending.{Lists};
ghost use Rattle.deny_base.specs.Code.{asks_no_file};
ghost use Rattle.deny_base.specs.KeyOrder.{key_cmp};
ghost use Rattle.deny_base.specs.declared.key.Key.{Key};
ghost use Rattle.deny_base.specs.declared.key.Section.{Section};
ghost use Rattle.deny_spec.specs.declared.package.Package.{Package};
ghost use Rattle.deny_spec.specs.Bans.{wrapper_of};
ghost use Rattle.deny_spec.specs.Expired.{PastWaiver, expired_keys};
ghost use Rattle.deny_spec.specs.Graph.{Crate};
ghost use Rattle.deny_spec.specs.Licensing.{Licensing};
ghost use Rattle.deny_spec.specs.Policy as policy;
ghost use Rattle.deny_spec.specs.View.{View};
ghost use Rattle.deny_spec.specs.Wrappers.{wraps};
ghost use Rattle.deny_spec_report.specs.Bans.{bears_name};
ghost use Rattle.deny_spec_report.specs.Circumstances.{Circumstances, licensed, seen_anew, with_expired};
ghost use Rattle.deny_spec_report.specs.Codes.{is_of_bans, is_of_licenses, is_of_policy, unseeing};
ghost use Rattle.deny_spec_report.specs.Facts.{Facts};
ghost use Rattle.deny_spec_report.specs.FirstMatch.{first_of, is_first};
ghost use Rattle.deny_spec_report.specs.Hitting.{HitsAreFirst};
ghost use Rattle.deny_spec_report.specs.Holding.{AreKeys, AreOwnKeys, ListsOwn, Holds, HoldsIn};
ghost use Rattle.deny_spec_report.specs.Diags.{key_pack, key_message};
ghost use Rattle.deny_spec_report.specs.Packages.{deprecated_keys_in};

/// The circumstances of a report determine its keys: two lists of all keys that hold, ascending, are equal.
pub fn one_report()
    ensures { (c : Circumstances) → (xs ys : List Key) → AreKeys c xs → AreKeys c ys → xs ≡ ys }
{
    deny_base::key_order();
}

/// Circumstances determine the keys of one check: two lists of all keys that hold in its sections,
/// ascending, are equal.
pub fn one_check()
    ensures { (mine : Section → Bool) → (c : Circumstances) → (xs ys : List Key)
        → AreOwnKeys mine c xs → AreOwnKeys mine c ys → xs ≡ ys }
{
    deny_base::key_order();
}

/// Other manifests and packages change no key whose code needs none of them: in circumstances that
/// differ in these alone, the same keys of such codes hold.
pub fn one_unseen()
    ensures { (c : Circumstances) → (view : View) → (packages : List Package) → (xs ys : List Key)
        → AreKeys c xs → AreKeys (seen_anew c view packages) ys → unseeing xs ≡ unseeing ys }
{
    deny_base::key_order();
}

/// Other manifests and packages do not change the message of a key whose code needs none of them.
pub fn message_unseen()
    ensures { (c : Circumstances) → (view : View) → (packages : List Package) → (key : Key)
        → IsTrue (asks_no_file key.code)
        → key_message (seen_anew c view packages) key ≡ key_message c key }
{}

/// The keys that hold in the section of the policy itself, followed by those that hold in the sections of the bans
/// check, and these by those that hold in the sections of the licence check, are all keys that hold, in order.
pub fn joined_keys()
    ensures { (c : Circumstances) → (facts : Facts) → (ws xs ys : List Key)
        → ListsOwn is_of_policy c facts ws → ListsOwn is_of_bans c facts xs → ListsOwn is_of_licenses c facts ys
        → Lists key_cmp (Holds c facts) (ws ++ (xs ++ ys)) }
{}

/// The key of the policy's older key and those of its expired waivers, ascending, are all keys that hold in the
/// section of the policy itself.
pub fn policy_keys()
    ensures { (c : Circumstances) → (facts : Facts) → (keys : List Key)
        → Lists key_cmp (Contains (deprecated_keys_in c ++ expired_keys c.expired)) keys
        → ListsOwn is_of_policy c facts keys }
{}

/// What a policy says of licences changes nothing in the bans check: the same keys hold in its sections
/// (`holds`), and each is reported by the same pack (`reported`).
pub fn bans_unlicensed()
    ensures holds { (c : Circumstances) → (licensing : Option Licensing) → (facts : Facts) → (keys : List Key)
        → ListsOwn is_of_bans c facts keys → ListsOwn is_of_bans (licensed c licensing) facts keys }
    ensures reported { (c : Circumstances) → (licensing : Option Licensing) → (facts : Facts) → (key : Key)
        → HoldsIn is_of_bans c facts key → key_pack (licensed c licensing) key ≡ key_pack c key }
{}

/// What expired of a policy changes nothing in the bans check: the same keys hold in its sections (`holds`), and each
/// is reported by the same pack (`reported`).
pub fn bans_unexpired()
    ensures holds { (c : Circumstances) → (waivers : List PastWaiver) → (facts : Facts) → (keys : List Key)
        → ListsOwn is_of_bans c facts keys → ListsOwn is_of_bans (with_expired c waivers) facts keys }
    ensures reported { (c : Circumstances) → (waivers : List PastWaiver) → (facts : Facts) → (key : Key)
        → HoldsIn is_of_bans c facts key → key_pack (with_expired c waivers) key ≡ key_pack c key }
{}

/// The wrapper of a ban that lets a dependent pass is the first with the dependent's name: a wrapper wraps
/// the dependent exactly where that first one has its span.
pub fn first_wrapper()
    ensures { (wrappers : List policy.SpannedText) → (w : policy.SpannedText) → (parent : Crate)
        → (wrapper_of wrappers parent ≡ first_of bears_name wrappers parent)
        × (wraps wrappers w parent
        ≡ is_first (λ (first : policy.SpannedText). first.span) bears_name wrappers w parent) }
{}

/// The hits of a report are those of entries that a witness hits, each by its first witness: the first crate in the
/// graph's order, and for one crate the first dependent, or the first file of its package.
pub fn first_hits()
    ensures { HitsAreFirst }
{}
