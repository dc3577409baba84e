//! What holds of the files of every folder. The functions do nothing: their contracts are the laws.
ghost use Rattle.fleet_main.specs.Laws.{OneDump, OneHead};

use repo_store::one_verdict;

/// The files of a folder fix what is dumped of them: all repositories that they keep, with whatever sets of changes,
/// have one dump of a range. So of `dump` what `run` writes is one text.
pub fn one_dump()
    ensures { OneDump }
{
    one_verdict();
}

/// They fix the newest revision too: so of `head` what `run` writes is one number.
pub fn one_head()
    ensures { OneHead }
{
    one_verdict();
}
