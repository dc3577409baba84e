//! A repository that is lent, as a port.

ghost use Rattle.std.specs.Prelude.{◌≡◌, ◌≤◌, ◌<◌, IfOk, take, length};
ghost use Rattle.fleet_disk.specs.Rules.{Rose};
ghost use Rattle.repo_core.specs.Repository.{trees_of};
ghost use Rattle.ra_serve.specs.Ports.{IsReplay};
ghost use Rattle.session_road.specs.Served.{lent_in};

use node_base::{PropName, Props, RevNo};
use path_tree::Tree;
use ra_serve::{PortFault, Replay, RepoPort};
use repo_core::{Expected, Repo};
use std::alloc::{AllocError, Global};
use uuid::Uuid;

/// A repository that is lent to a server, which takes no changes.
#[derive(Drop)]
pub struct LentRepo<'a> {
    repo: &'a Repo,
    refusals: u64,
    alloc: Global,
}

impl<'a> LentRepo<'a> {
    /// A port over a repository.
    pub fn new(alloc: Global, repo: &'a Repo) -> LentRepo<'a>
        ensures { lent_in result ≡ repo.now }
    {
        LentRepo {
            repo,
            refusals: 0,
            alloc,
        }
    }

    // A call was refused for want of memory, which is counted.
    fn refuse(&mut self) -> PortFault
        ensures fault { result ≡ PortFault.OutOfMemory }
        ensures count { Rose self.old.refusals self.new.refusals }
        ensures later { self.old.refusals ≤ self.new.refusals }
        ensures repo { self.new.repo ≡ self.old.repo }
    {
        self.refusals = self.refusals.saturating_add(1);
        PortFault::OutOfMemory
    }
}

impl<'a> RepoPort for LentRepo<'a> {
    ghost use Rattle.std.specs.Prelude.{Some, true};
    ghost use Rattle.repo_core.specs.Repository.{trees_of};

    ghost repository = { λ p. Some p.repo.now };

    ghost refusals = { λ p. p.refusals };

    ghost is_mirror = { λ p. true };

    ghost lent = { λ p. trees_of p.repo.now.revisions };

    fn is_repository(&self) {
        self.repo.is_repository()
    }

    fn identity(&self) -> Uuid {
        self.repo.identity()
    }

    fn read_only(&self) -> bool {
        true
    }

    fn latest(&mut self) -> Result<RevNo, PortFault> {
        Ok(self.repo.head())
    }

    fn tree(&mut self, number: RevNo) -> Result<Tree, PortFault> {
        let shared = match self.repo.tree(number) {
            None => return Err(PortFault::NoSuchRevision),
            Some(tree) => tree.share(),
        };
        match shared {
            Ok(tree) => Ok(tree),
            Err(_) => Err(self.refuse()),
        }
    }

    fn props(&mut self, number: RevNo) -> Result<Props, PortFault> {
        let shared = match self.repo.props(number) {
            None => return Err(PortFault::NoSuchRevision),
            Some(props) => props.share(),
        };
        match shared {
            Ok(props) => Ok(props),
            Err(_) => Err(self.refuse()),
        }
    }

    // A server asks a mirror for no change.
    fn change_prop(
        &mut self,
        _number: RevNo,
        _name: &PropName,
        _value: Option<&[u8]>,
        _expected: &Expected,
    ) -> Result<(), PortFault> {
        Err(self.refuse())
    }

    fn replay_of(&mut self, number: RevNo) -> Result<Replay, PortFault> {
        if number > self.repo.head() {
            return Err(PortFault::NoSuchRevision);
        }
        match replay_from(self.alloc, self.repo, number) {
            Ok(replay) => Ok(replay),
            Err(_) => Err(self.refuse()),
        }
    }

    fn trees(&self) -> &[Tree] {
        self.repo.trees()
    }
}

// What a replay of a revision of a repository takes beside the trees before it.
fn replay_from(alloc: Global, repo: &Repo, number: RevNo) -> Result<Replay, AllocError>
    requires { number < length repo.now.revisions }
    ensures replay { IfOk result (λ p. IsReplay repo.now number p.set (take number (trees_of repo.now.revisions)) p.props) }
{
    let Some(set) = repo.set(number) else {
        unreachable!()
    };
    let Some(props) = repo.props(number) else {
        unreachable!()
    };
    Ok(Replay {
        set: set.share(alloc)?,
        props: props.share()?,
    })
}
