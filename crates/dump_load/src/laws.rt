//! Laws of sets of changes and of their effects, over all trees and sets. Each is proved as the contract of a
//! function that does nothing.
ghost use Rattle.dump_load.specs.Laws.{TreesAreEffects, NoChanges, OneMore, OneMoreInOrder, NormalFollows};
ghost use Rattle.dump_load.specs.Laws.{FollowsClear, OneMoreFault, Replaced, Reparted, Bare, NumberedFromBelow};
ghost use Rattle.dump_load.specs.Laws.{Permuted, OneSet};

/// The tree that a set makes, as one map, has the set's effect at each path.
#[tactic(auto, using(crate::proofs::EffectTrees::effect_tree_at))]
pub fn trees_are_effects()
    ensures { TreesAreEffects }
{}

/// A set without changes makes the newest tree once more, its root numbered.
pub fn no_changes()
    ensures { NoChanges }
{}

/// One change more does to the effect what one step does to a tree, wherever it stands among the others: none of
/// them has its path, and where it adds, deletes or replaces none is below.
pub fn one_more()
    ensures anywhere { OneMore }
    ensures in_order { OneMoreInOrder }
    ensures clear { FollowsClear }
    ensures normal { NormalFollows }
{}

/// The first fault of a set with one change more is that of the set, and else that of the change where it comes.
pub fn one_more_fault()
    ensures { OneMoreFault }
{}

/// A change that adds, deletes or replaces becomes another of its path: a deletion and then an add are one replace.
pub fn replaced()
    ensures { Replaced }
{}

/// The change of a path is given another text or other properties, also after changes below it.
pub fn reparted()
    ensures { Reparted }
{}

/// A change without text and properties may go where another numbers its path, as one below it does.
pub fn bare()
    ensures dropped { Bare }
    ensures below { NumberedFromBelow }
{}

/// A set has its effect in whatever order its paths are listed.
pub fn permuted()
    ensures { Permuted }
{}

/// Records give one set at most over the same trees.
pub fn one_set()
    ensures { OneSet }
{}
