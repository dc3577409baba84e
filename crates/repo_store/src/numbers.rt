//! The law of the numbers that a journal commits.
ghost use Rattle.repo_store.specs.Numbers.{CommitsInOrder, KeptByEntries};

/// An image that keeps a repository has entries that tell it, and the revisions that these commit are 1 to the
/// repository's head, in order, each once.
pub fn commits_in_order()
    ensures entries { KeptByEntries }
    ensures order { CommitsInOrder }
{}
