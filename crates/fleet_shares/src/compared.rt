//! Whether what a mirror has besides is its master's.
ghost use Rattle.std.specs.Prelude.{◌↔◌, ◌<◌, IsTrue, length};
ghost use Rattle.fleet_shares.specs.Agreed.{HaveSet, IsAddedTo};

use crate::same::is_same_set;
use node_base::RevNo;
use repo_core::Repo;
use repo_core::laws::sets_make_trees;

/// Whether each revision above that number is the master's.
pub(crate) fn adds(mirror: &Repo, master: &Repo, above: RevNo) -> bool
    ensures { IsAddedTo result above mirror.now master.now }
{
    sets_make_trees();
    mirror.is_repository();
    master.is_repository();
    let _head = master.head();
    let last = mirror.head().index();
    for number in above.index() + 1..last + 1 {
        if !has_same(mirror, master, RevNo::new(number as u16)) {
            return false;
        }
    }
    true
}

// Whether both have a revision of the mirror's, with the same changes.
fn has_same(mirror: &Repo, master: &Repo, number: RevNo) -> bool
    requires { number < length mirror.now.revisions }
    ensures { IsTrue result ↔ HaveSet mirror.now master.now number }
{
    let _ours = mirror.head();
    let _theirs = master.head();
    let Some(ours) = mirror.set(number) else {
        unreachable!();
    };
    match master.set(number) {
        Some(theirs) => is_same_set(ours, theirs),
        None => false,
    }
}
