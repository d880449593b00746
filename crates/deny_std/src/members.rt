//! The members of the workspace, as marks.
ghost use Rattle.std.specs.Prelude.{◌≡◌, ◌<◌, All, IfOk, false, length, slice_index_or};
ghost use Rattle.deny_std.specs.private.Members.{AreMemberMarks, GainsMarks, is_among};

use deny_base_lists::{List, NoMemory};
use deny_krates::Krates;
use std::alloc::Global;

/// A mark for each crate by its place: whether it is a member of the workspace.
pub fn member_marks(alloc: Global, krates: &Krates) -> Result<List<bool>, NoMemory>
    ensures { IfOk result (AreMemberMarks krates.now) }
{
    let mut marks = List::from_vec(vec![in alloc; false; krates.krates().len()]?);
    mark_each(&mut marks, krates.workspace_members());
    Ok(marks)
}

/// Sets the marks at the given places.
fn mark_each(marks: &mut List<bool>, places: &[u32])
    requires { All (λ place. place < length marks.old) places.now }
    ensures { GainsMarks (is_among places.now) marks.old marks.new }
{
    for place in places {
        marks.vec[*place as usize] = true;
    }
}

/// The mark at a place, or `false` where there is none.
pub fn mark_at(marks: &[bool], place: u32) -> bool
    ensures { result ≡ slice_index_or marks.now place false }
{
    marks.get(place as usize).copied().unwrap_or(false)
}
