//! What holds of every repository and every moment. Each function does nothing: its contract is the law.
ghost use Rattle.repo_core.specs.Laws.{EntriesJoin, FreshIsOne, SetsMakeTrees, EntriesKeep, OneDate};

/// The revisions after a list of entries are those after its first entries and then the others.
#[tactic(auto, using(crate::proofs::LawsOf::entries_join))]
pub fn entries_join()
    ensures { EntriesJoin }
{}

/// A repository as it begins is one.
pub fn fresh_is_one()
    ensures { FreshIsOne }
{}

/// In a repository the set of each revision has no fault over the trees of the revisions before, and makes its tree.
pub fn sets_make_trees()
    ensures { SetsMakeTrees }
{}

/// A repository that takes an entry is a repository after it.
pub fn entries_keep()
    ensures { EntriesKeep }
{}

/// Whatever civil time is found for a moment, its text is the same.
#[tactic(auto, using(crate::proofs::LawsOf::one_date))]
pub fn one_date()
    ensures { OneDate }
{}
