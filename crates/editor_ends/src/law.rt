//! Laws of the calls that a set is driven as, and of the set that calls come to: each function does nothing, and
//! its contract is the law.
ghost use Rattle.editor_ends.specs.Laws.{DriveForMemoryAlone, DriveGoesDown, DriveHasTheEffect, DriveIsNested};
ghost use Rattle.editor_ends.specs.Laws.{DriveIsTaken, IsRefusedForMemoryAlone, IsTaken, OneBuiltSet, PiecesOfAText};

use dump_load::ChangeSet;
use path_tree::Tree;
use path_tree::limits::has_root;

/// Where a set has no fault, the calls that it is driven as have its effect.
pub fn drive_has_the_effect()
    ensures { DriveHasTheEffect }
{}

/// Where a set has no fault, the calls that it is driven as keep the nesting: each directory and file from its
/// opening to its close, and a text's calls in their order.
pub fn drive_is_nested()
    ensures { DriveIsNested }
{}

/// Where changes have no fault and what they give is within the limits, none of the calls that they are driven as is
/// refused by an editor that builds over the same trees, but for want of memory.
pub fn drive_is_taken()
    ensures { DriveIsTaken }
{}

/// And where there are no more than 4,096 of them, want of memory is all that a drive to such an editor is refused
/// for.
pub fn drive_is_refused_for_memory_alone()
    ensures { DriveForMemoryAlone }
{}

/// The same of a set and trees, whose types keep the limits: where the set has no fault, none of its calls is refused.
pub fn set_is_taken(trees: &[Tree], set: &ChangeSet)
    ensures { IsTaken trees.now set.now }
{
    has_root(trees);
    set.changes();
}

/// And want of memory is all that a drive of it is refused for.
pub fn set_is_refused_for_memory_alone(trees: &[Tree], set: &ChangeSet)
    ensures { IsRefusedForMemoryAlone trees.now set.now }
{
    has_root(trees);
    set.changes();
}

/// What a set's calls open, add or delete is right below the directory in which it is.
pub fn drive_goes_down()
    ensures { DriveGoesDown }
{}

/// The pieces that a text is sent in make the text, and each has a byte at least and 65,536 at most.
pub fn pieces_of_a_text()
    ensures { PiecesOfAText }
{}

/// Calls come to one set at most: what an editor that builds a set makes of them is determined.
pub fn one_built_set()
    ensures { OneBuiltSet }
{}
