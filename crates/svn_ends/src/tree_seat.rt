//! A session's seat, with the trees that were read from it.

ghost use Rattle.std.specs.Prelude.{◌≡◌, ◌≤◌, ◌<◌, true, false, length, IfOk, OnOk};
ghost use Rattle.store_share.specs.Seats.{known_by, seen_by};
ghost use Rattle.svn_ends.specs.Seats.{AreRead, Keeps, AreReadBelow, GivesTree, ReplaysSet};

use crate::seen::{read_trees, seen_replay, seen_tree, sees};
use crate::shares::ServedShare;
use node_base::RevNo;
use path_tree::Tree;
use ra_serve::Replay;
use repo_store::StoreFault;
use std::alloc::{AllocError, Global};
use std::sync::Wait;
use store_share::{ReaderSeat, RowName};

/// A reader's seat, and the trees of the revisions from 0 up that were read from it, each for another owner. A replay
/// reads those that lie below its revision and aren't there yet, so a session shares each tree once.
#[derive(Drop)]
pub(crate) struct TreeSeat<L: RowName> {
    pub(crate) seat: ReaderSeat<L>,
    pub(crate) trees: Vec<Tree>,
    ghost read: { AreRead seat trees.items },
    ghost few: { length trees.items ≤ seen_by seat },
}

impl<L: RowName> TreeSeat<L> {
    /// A seat from which no tree was read.
    pub(crate) fn new(alloc: Global, seat: ReaderSeat<L>) -> TreeSeat<L>
        ensures { result.seat ≡ seat }
    {
        TreeSeat {
            seat,
            trees: Vec::new(alloc),
        }
    }

    /// The newest revision, which the seat has seen then.
    pub(crate) fn latest<R: Wait, S: ServedShare<L>>(&mut self, rt: &R, share: &S) -> RevNo
        ensures most { seen_by self.old.seat ≤ result }
        ensures seen { seen_by self.new.seat ≡ result }
        ensures keeps { Keeps self.old.seat self.new.seat }
        ensures newest { S.is_newest share.now (seen_by self.old.seat) (known_by self.new.seat) result }
    {
        share.latest(rt, &mut self.seat)
    }

    /// Whether it has seen a revision. Where it hasn't, the newest revision is asked for first.
    pub(crate) fn sees<R: Wait, S: ServedShare<L>>(
        &mut self,
        rt: &R,
        share: &S,
        number: RevNo,
    ) -> bool
        ensures there { result ≡ true → number ≤ seen_by self.new.seat }
        ensures above { result ≡ false → seen_by self.new.seat < number }
        ensures asked { result ≡ false → S.is_newest share.now (seen_by self.old.seat) (known_by self.new.seat)
            (seen_by self.new.seat) }
        ensures keeps { Keeps self.old.seat self.new.seat }
    {
        sees(rt, share, &mut self.seat, number)
    }

    /// The tree of a revision that it has seen, for another owner. It waits for nobody.
    pub(crate) fn tree<S: ServedShare<L>>(
        &mut self,
        share: &S,
        number: RevNo,
    ) -> Result<Tree, AllocError>
        requires { number ≤ seen_by self.old.seat }
        ensures tree { GivesTree self.new.seat number result }
        ensures keeps { Keeps self.old.seat self.new.seat }
        ensures seen { seen_by self.new.seat ≡ seen_by self.old.seat }
    {
        seen_tree(share, &mut self.seat, number)
    }

    /// What a replay takes of a revision that it has seen. The trees of the revisions below are read then. It waits for
    /// the revision's properties alone.
    pub(crate) fn replay<R: Wait, S: ServedShare<L>>(
        &mut self,
        rt: &R,
        alloc: Global,
        share: &S,
        number: RevNo,
    ) -> Result<Replay, StoreFault>
        requires { number ≤ seen_by self.old.seat }
        ensures set { ReplaysSet self.new.seat number result }
        ensures props { IfOk result (λ p. S.has_props share.now number p.props) }
        ensures trees { OnOk result (AreReadBelow self.new.seat self.new.trees.items number) }
        ensures enough { OnOk result (number ≤ length self.new.trees.items) }
        ensures keeps { Keeps self.old.seat self.new.seat }
        ensures seen { seen_by self.new.seat ≡ seen_by self.old.seat }
    {
        read_trees(share, &mut self.seat, &mut self.trees, number)?;
        seen_replay(rt, alloc, share, &mut self.seat, number)
    }
}
