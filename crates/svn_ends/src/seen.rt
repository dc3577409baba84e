//! What a seat reads of a share.

ghost use Rattle.std.specs.Prelude.{◌≡◌, ◌≤◌, ◌<◌, true, false, length, Some, IfOk, OnOk};
ghost use Rattle.store_share.specs.Seats.{known_by, seen_by};
ghost use Rattle.svn_ends.specs.Seats.{AreRead, Keeps, GivesTree, GivesSet, ReplaysSet};

use crate::shares::ServedShare;
use dump_load::ChangeSet;
use node_base::RevNo;
use path_tree::Tree;
use ra_serve::Replay;
use repo_store::StoreFault;
use std::alloc::{AllocError, Global};
use std::sync::Wait;
use store_share::{ReaderSeat, RowName};

/// Whether a seat has seen a revision. Where it hasn't, the newest revision is asked for first.
pub(crate) fn sees<R: Wait, L: RowName, S: ServedShare<L>>(
    rt: &R,
    share: &S,
    seat: &mut ReaderSeat<L>,
    number: RevNo,
) -> bool
    ensures there { result ≡ true → number ≤ seen_by seat.new }
    ensures above { result ≡ false → seen_by seat.new < number }
    ensures asked { result ≡ false → S.is_newest share.now (seen_by seat.old) (known_by seat.new) (seen_by seat.new) }
    ensures keeps { Keeps seat.old seat.new }
{
    if number <= seat.seen() {
        return true;
    }
    number <= share.latest(rt, seat)
}

/// The tree of a revision that the seat has seen, for another owner. It waits for nobody.
pub(crate) fn seen_tree<L: RowName, S: ServedShare<L>>(
    share: &S,
    seat: &mut ReaderSeat<L>,
    number: RevNo,
) -> Result<Tree, AllocError>
    requires { number ≤ seen_by seat.old }
    ensures tree { GivesTree seat.new number result }
    ensures keeps { Keeps seat.old seat.new }
    ensures seen { seen_by seat.new ≡ seen_by seat.old }
{
    let Some(rev) = share.read_at(seat, number) else {
        unreachable!()
    };
    rev.tree.share()
}

/// The changes of a revision that the seat has seen, for another owner. It waits for nobody.
pub(crate) fn seen_set<L: RowName, S: ServedShare<L>>(
    alloc: Global,
    share: &S,
    seat: &mut ReaderSeat<L>,
    number: RevNo,
) -> Result<ChangeSet, AllocError>
    requires { number ≤ seen_by seat.old }
    ensures set { GivesSet seat.new number result }
    ensures keeps { Keeps seat.old seat.new }
    ensures seen { seen_by seat.new ≡ seen_by seat.old }
{
    let Some(rev) = share.read_at(seat, number) else {
        unreachable!()
    };
    rev.set.share(alloc)
}

/// Reads the trees of the revisions below one that the seat has seen, each for another owner, behind those that were
/// read before. It waits for nobody.
pub(crate) fn read_trees<L: RowName, S: ServedShare<L>>(
    share: &S,
    seat: &mut ReaderSeat<L>,
    trees: &mut Vec<Tree>,
    number: RevNo,
) -> Result<(), AllocError>
    requires below { number ≤ seen_by seat.old }
    requires few { length trees.old.items ≤ seen_by seat.old }
    requires read { AreRead seat.old trees.old.items }
    ensures enough { OnOk result (number ≤ length trees.new.items) }
    ensures few { length trees.new.items ≤ seen_by seat.new }
    ensures read { AreRead seat.new trees.new.items }
    ensures keeps { Keeps seat.old seat.new }
    ensures seen { seen_by seat.new ≡ seen_by seat.old }
{
    for i in trees.len()..number.index() {
        trees.push(seen_tree(share, seat, RevNo::new(i as u16))?)?;
    }
    Ok(())
}

/// What a replay takes of a revision that the seat has seen beside the trees before it. It waits for the revision's
/// properties alone.
pub(crate) fn seen_replay<R: Wait, L: RowName, S: ServedShare<L>>(
    rt: &R,
    alloc: Global,
    share: &S,
    seat: &mut ReaderSeat<L>,
    number: RevNo,
) -> Result<Replay, StoreFault>
    requires { number ≤ seen_by seat.old }
    ensures set { ReplaysSet seat.new number result }
    ensures props { IfOk result (λ p. S.has_props share.now number p.props) }
    ensures keeps { Keeps seat.old seat.new }
    ensures seen { seen_by seat.new ≡ seen_by seat.old }
{
    let set = seen_set(alloc, share, seat, number)?;
    let props = share.fetch_props(rt, number)?;
    Ok(Replay { set, props })
}
