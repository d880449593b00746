ghost use Rattle.std.specs.Prelude.{◌≡◌, ◌++◌, [], ◌∷◌, ◌+◌, ◌-◌, ◌^◌, ◌<◌, ◌≤◌, true, false};
ghost use Rattle.std.specs.Prelude.{All, Contains, List, fold, length, map, nat_eq, sum_by, IfOk, IfSome, OnOk, Some, ℕ};
ghost use Rattle.std.specs.BTreeSet.{insert_key};
ghost use Rattle.std.specs.BTreeMap.Range.{IsLtBy};
ghost use Rattle.std.specs.Cmp.Lexicographic.{slice_cmp};
ghost use Rattle.std.specs.List.{filter_map, starts_with};
ghost use Rattle.std.specs.List.Sorted.{IsPermutation, IsStrictlySortedBy};
ghost use Rattle.std.specs.Ordering.{nat_cmp};
ghost use Rattle.deny_base_lists.specs.Ascending.{Lists};
ghost use Rattle.deny_base_disk.specs.Children.{prefix_of};
ghost use Rattle.deny_base_disk.specs.Disk.{Disk, IsLater};
ghost use Rattle.deny_base_unread.specs.Added.{IsLonger, added};
ghost use Rattle.deny_base_unread.specs.Bound.{Folders};
ghost use Rattle.deny_base_unread.specs.Causes.{AreCaused};
ghost use Rattle.deny_base.specs.Unread.{asked};
ghost use Rattle.deny_base_unread.specs.View.{view_of};
ghost use Rattle.deny_base.specs.declared.purpose.Purpose.TheVariants as purpose;
ghost use Rattle.deny_base.specs.declared.unread.Unread.{Unread};
ghost use Rattle.deny_build_walk.specs.Walk.{IsFile, IsFolder, is_left_out};
ghost use Rattle.deny_build_walk.specs.private.Taking.{is_taken, path_taken};
ghost use Rattle.deny_build_walk.specs.Cause.{HasCause};
ghost use Rattle.deny_build_walk.specs.Entries.{AreListedOnce, IsPastBound};
ghost use Rattle.deny_build_walk.specs.Folder.{failed_calls};
ghost use Rattle.deny_build_walk.specs.declared.folder.NoList.TheVariants.{Crowded};
ghost use Rattle.deny_build_walk.specs.declared.walk.Unlisted.{Unlisted};
ghost use Rattle.deny_build_walk.specs.private.Noted.{AreNoted};
ghost use Rattle.deny_build_walk.specs.private.Walking.{Walking};

use crate::folder::{NoList, list_folder};
use deny_base::Kid;
use deny_base_disk::{Entry, PackageFiles, child_path};
use deny_base_lists::{List, NoMemory, Text, put_in_order};
use deny_base_unread::Unread;
use std::alloc::Global;
use std::collections::BTreeSet;

/// The largest number of entries that the folders of a package may list together.
const MOST_ENTRIES: usize = 0x100_0000;

/// A folder that has no list.
#[derive(Drop)]
pub struct Unlisted {
    pub path: Text,
    pub why: NoList,
}

/// The paths of the files of a package, ascending.
#[derive(Drop)]
pub struct Walked {
    pub files: List<Text>,
    /// The folders without a list, in the order of their entries in `unread`.
    pub unlisted: List<Unlisted>,
}

/// The state of a walk: the folders that are pending, the files found, the folders without a list,
/// and the number of entries listed.
#[derive(Drop)]
struct Walk {
    pending: BTreeSet<Text>,
    files: List<Text>,
    unlisted: List<Unlisted>,
    count: usize,
}

/// The paths of the files of a crate whose folder is `root`, ascending: the entries of its folder
/// and of the folders below it that are no folders. Folders are entered in byte order of their
/// paths, and each is listed once. A folder whose list fails, or has with those of the folders before
/// it more than 2^24 entries, is answered with its cause, has an entry at the end of `unread`, and is
/// not entered; no other call fails. Of a crate that came by git, `.git` directly in `root` is left
/// out.
pub fn walk_package<D: PackageFiles>(
    alloc: Global,
    disk: &mut D,
    krate: &Kid,
    root: &str,
    by_git: bool,
    unread: &mut List<Unread>,
) -> Result<Walked, NoMemory>
    ensures files { IfOk result (λ walked. IfSome (D.seen disk.old).files (λ files. Lists (slice_cmp nat_cmp)
        (IsFile by_git root.now (view_of files (added unread.old unread.new) (Some krate.now)).list) walked.files)) }
    ensures ascending { IfOk result (λ walked. IsStrictlySortedBy (slice_cmp nat_cmp) walked.files) }
    ensures unlisted { IfOk result (λ walked. map (λ n. n.path) walked.unlisted
        ≡ map (λ u. u.path) (added unread.old unread.new)) }
    ensures why { IfOk result (λ walked. (folder : Folders) → folder (Some krate.now) ≡ root.now → (n : Unlisted)
        → Contains walked.unlisted n → HasCause folder (D.seen disk.old) (D.seen disk.new) krate.now n) }
    ensures lists { IfOk result (λ _. (u : Unread) → Contains (added unread.old unread.new) u →
        u ≡ asked (Some krate.now) purpose.List u.path) }
    ensures ordered { IfOk result (λ _. IsStrictlySortedBy (slice_cmp nat_cmp)
        (map (λ u. u.path) (added unread.old unread.new))) }
    ensures longer { IfOk result (λ _. IsLonger unread.old unread.new) }
    ensures caused { IfOk result (λ _. (folder : Folders) → folder (Some krate.now) ≡ root.now →
        AreCaused folder (D.seen disk.old) (D.seen disk.new) (added unread.old unread.new)) }
    ensures wanted { IfOk result (λ _. IfSome (D.seen disk.old).files (λ files.
        (u : Unread) → Contains (added unread.old unread.new) u → IsFolder by_git root.now
        (view_of files (added unread.old unread.new) (Some krate.now)).list u.path)) }
    ensures faults { IfOk result (λ walked. (D.seen disk.new).faults ≤ (D.seen disk.old).faults
        + sum_by (λ n. failed_calls n.why) walked.unlisted) }
    ensures once { IfOk result (λ _. IfSome (D.seen disk.old).files (λ files. AreListedOnce by_git root.now
        (view_of files (added unread.old unread.new) (Some krate.now)).list files (D.seen disk.old)
        (D.seen disk.new) (map (λ u. u.path) (added unread.old unread.new)))) }
    ensures few { IfOk result (λ walked. length walked.files ≤ 2 ^ 24) }
    ensures past { IfOk result (λ walked. IfSome (D.seen disk.old).files (λ files. (n : Unlisted)
        → Contains walked.unlisted n → n.why ≡ Crowded → IsPastBound by_git root.now
        (view_of files (added unread.old unread.new) (Some krate.now)).list files n.path)) }
    ensures below { IfOk result (λ walked. (path : List ℕ) → Contains walked.files path
        → starts_with nat_eq path (prefix_of root.now) ≡ true) }
    ensures later { IsLater (D.seen disk.old) (D.seen disk.new) }
{
    let mut walk = walk_from(alloc, root)?;
    while let Some(folder) = walk.pending.pop_first() {
        visit(
            alloc,
            disk,
            krate,
            root,
            by_git,
            folder.as_str(),
            &mut walk,
            unread,
        )?;
    }
    let mut files = walk.files;
    put_in_order(&mut files)?;
    Ok(Walked {
        files,
        unlisted: walk.unlisted,
    })
}

/// The start of a walk: its root is pending.
fn walk_from(alloc: Global, root: &str) -> Result<Walk, NoMemory>
    ensures pending { IfOk result (λ walk. walk.pending.keys ≡ root.now ∷ []) }
    ensures files { IfOk result (λ walk. walk.files ≡ []) }
    ensures unlisted { IfOk result (λ walk. walk.unlisted ≡ []) }
    ensures count { IfOk result (λ walk. walk.count ≡ 0) }
{
    let mut pending = BTreeSet::new(alloc);
    pending.insert(Text::from_str(alloc, root)?)?;
    Ok(Walk {
        pending,
        files: List::new(alloc),
        unlisted: List::new(alloc),
        count: 0,
    })
}

/// Lists a folder, and takes its entries into the walk.
fn visit<D: PackageFiles>(
    alloc: Global,
    disk: &mut D,
    krate: &Kid,
    root: &str,
    by_git: bool,
    folder: &str,
    walk: &mut Walk,
    unread: &mut List<Unread>,
) -> Result<(), NoMemory>
    requires count { walk.old.count ≤ 2 ^ 24 }
    requires least { All (IsLtBy (slice_cmp nat_cmp) folder.now) walk.old.pending.keys }
    ensures count { OnOk result (walk.new.count ≤ 2 ^ 24) }
    ensures work { OnOk result (length walk.new.pending.keys + (2 ^ 24 - walk.new.count) ≤
        length walk.old.pending.keys + (2 ^ 24 - walk.old.count)) }
    ensures walking { OnOk result ((start : Disk) (first : List Unread) →
        Walking krate.now root.now by_git start first (D.seen disk.old) unread.old
        (folder.now ∷ walk.old.pending.keys) walk.old.files walk.old.count →
        Walking krate.now root.now by_git start first (D.seen disk.new) unread.new
        walk.new.pending.keys walk.new.files walk.new.count) }
    ensures noted { OnOk result ((start : Disk) (first : List Unread) →
        Walking krate.now root.now by_git start first (D.seen disk.old) unread.old
        (folder.now ∷ walk.old.pending.keys) walk.old.files walk.old.count →
        AreNoted krate.now root.now by_git start first (D.seen disk.old) unread.old walk.old.unlisted →
        AreNoted krate.now root.now by_git start first (D.seen disk.new) unread.new walk.new.unlisted) }
    ensures later { IsLater (D.seen disk.old) (D.seen disk.new) }
{
    let room = MOST_ENTRIES - walk.count;
    let listed = list_folder(alloc, disk, krate, folder, room, unread)?;
    match listed {
        Err(why) => {
            note(alloc, folder, why, &mut walk.unlisted)?;
            Ok(())
        }
        Ok(entries) => {
            let start = walk.files.len();
            take_folder(alloc, root, by_git, folder, entries.as_slice(), walk)?;
            move_behind(&mut walk.files, start);
            Ok(())
        }
    }
}

/// Moves the files from an index on to where the first of them belongs among those before it. The
/// files of one folder ascend, and no other file belongs between them, so files stay ascending as
/// they are found and the sort at the end has nothing to move.
fn move_behind(files: &mut List<Text>, start: usize)
    ensures { IsPermutation files.old files.new }
{
    if start < files.len() {
        let index = index_of(files.as_slice(), start);
        rotate(files.vec.as_mut_slice(), index, start);
    }
}

/// How many of the files before an index are less than the one at that index, if they ascend.
fn index_of(files: &[Text], start: usize) -> usize
    requires { start < length files.now }
    ensures { result ≤ start }
{
    let file = &files[start];
    files[..start].partition_point(|other| other < file)
}

/// Moves the files from `start` on before those from `index` on.
fn rotate(files: &mut [Text], index: usize, start: usize)
    requires before { index ≤ start }
    requires within { start ≤ length files.old }
    ensures { IsPermutation files.old files.new }
{
    files[index..].rotate_left(start - index);
}

fn note(
    alloc: Global,
    folder: &str,
    why: NoList,
    unlisted: &mut List<Unlisted>,
) -> Result<(), NoMemory>
    ensures { OnOk result (unlisted.new ≡ unlisted.old ++ record { path = folder.now; why = why } ∷ []) }
{
    unlisted.push(Unlisted {
        path: Text::from_str(alloc, folder)?,
        why,
    })
}

/// Takes the entries of a folder: folders become pending, the others are files found.
fn take_folder(
    alloc: Global,
    root: &str,
    by_git: bool,
    folder: &str,
    entries: &[Entry],
    walk: &mut Walk,
) -> Result<(), NoMemory>
    requires { walk.old.count + length entries.now ≤ 2 ^ 24 }
    ensures count { OnOk result (walk.new.count ≡ walk.old.count + length entries.now) }
    ensures pending { OnOk result (walk.new.pending.keys ≡ fold (insert_key (slice_cmp nat_cmp))
        walk.old.pending.keys (filter_map (path_taken by_git root.now folder.now true) entries.now)) }
    ensures files { OnOk result (walk.new.files ≡ walk.old.files ++
        filter_map (path_taken by_git root.now folder.now false) entries.now) }
    ensures unlisted { OnOk result (walk.new.unlisted ≡ walk.old.unlisted) }
{
    walk.count += entries.len();
    take_folders(alloc, root, by_git, folder, entries, &mut walk.pending)?;
    take_files(alloc, root, by_git, folder, entries, &mut walk.files)?;
    Ok(())
}

fn take_folders(
    alloc: Global,
    root: &str,
    by_git: bool,
    folder: &str,
    entries: &[Entry],
    pending: &mut BTreeSet<Text>,
) -> Result<(), NoMemory>
    ensures { OnOk result (pending.new.keys ≡ fold (insert_key (slice_cmp nat_cmp)) pending.old.keys
        (filter_map (path_taken by_git root.now folder.now true) entries.now)) }
{
    for entry in entries {
        if let Some(path) = path_taken(alloc, root, by_git, folder, true, entry)? {
            pending.insert(path)?;
        }
    }
    Ok(())
}

fn take_files(
    alloc: Global,
    root: &str,
    by_git: bool,
    folder: &str,
    entries: &[Entry],
    files: &mut List<Text>,
) -> Result<(), NoMemory>
    ensures { OnOk result (files.new ≡ files.old ++
        filter_map (path_taken by_git root.now folder.now false) entries.now) }
{
    for entry in entries {
        if let Some(path) = path_taken(alloc, root, by_git, folder, false, entry)? {
            files.push(path)?;
        }
    }
    Ok(())
}

/// The path of an entry, if it is of the kind asked for (folder or file) and is not left out.
fn path_taken(
    alloc: Global,
    root: &str,
    by_git: bool,
    folder: &str,
    is_folder: bool,
    entry: &Entry,
) -> Result<Option<Text>, NoMemory>
    ensures { IfOk result (λ path. path ≡ path_taken by_git root.now folder.now is_folder entry.now) }
{
    if is_taken(root, by_git, folder, is_folder, entry) {
        Ok(Some(child_path(alloc, folder, entry.name.as_str())?))
    } else {
        Ok(None)
    }
}

#[tactic(auto, unfolding(crate::specs::private::Taking::is_taken))]
fn is_taken(root: &str, by_git: bool, folder: &str, is_folder: bool, entry: &Entry) -> bool
    ensures { result ≡ is_taken by_git root.now folder.now is_folder entry.now }
{
    let is_same = if is_folder {
        entry.folder
    } else {
        !entry.folder
    };
    is_same && !is_left_out(root, by_git, folder, entry.name.as_str())
}

/// Whether a name is left out of a folder: `.git` directly in the folder of a crate that came by
/// git.
#[tactic(auto, unfolding(crate::specs::Walk::is_left_out))]
fn is_left_out(root: &str, by_git: bool, folder: &str, name: &str) -> bool
    ensures { result ≡ is_left_out by_git root.now folder.now name.now }
{
    by_git && folder == root && name == ".git"
}
