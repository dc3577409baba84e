//! A repository in memory as a port.

ghost use Rattle.std.specs.Prelude.{◌≡◌, ◌≤◌, ◌<◌, IfOk, take, length};
ghost use Rattle.fleet_disk.specs.Rules.{Rose};
ghost use Rattle.repo_core.specs.Repository.{trees_of};
ghost use Rattle.ra_serve.specs.Ports.{IsReplay};
ghost use Rattle.ra_serve.specs.Held.{repo_of};

use crate::fault::PortFault;
use crate::port::{Replay, RepoPort};
use node_base::{PropName, Props, RevNo};
use path_tree::Tree;
use repo_core::{Expected, Repo, RepoFault};
use std::alloc::{AllocError, Global};
use uuid::Uuid;

/// A repository in memory, which takes changes of properties or, as a mirror, none.
#[derive(Drop)]
pub struct HeldRepo {
    repo: Repo,
    mirror: bool,
    refusals: u64,
    alloc: Global,
}

impl HeldRepo {
    ghost use Rattle.ra_serve.specs.Held.{repo_of, takes_none};

    /// A port over a repository.
    pub fn new(alloc: Global, repo: Repo, mirror: bool) -> HeldRepo
        ensures repo { repo_of result ≡ repo }
        ensures mirror { takes_none result ≡ mirror }
    {
        HeldRepo {
            repo,
            mirror,
            refusals: 0,
            alloc,
        }
    }

    /// The repository.
    pub fn repo(&self) -> &Repo
        ensures { result.now ≡ repo_of self.now }
    {
        &self.repo
    }

    // A growth was refused, which is counted.
    fn refuse(&mut self) -> PortFault
        ensures fault { result ≡ PortFault.OutOfMemory }
        ensures count { Rose self.old.refusals self.new.refusals }
        ensures later { self.old.refusals ≤ self.new.refusals }
        ensures repo { self.new.repo ≡ self.old.repo }
        ensures mirror { self.new.mirror ≡ self.old.mirror }
    {
        self.refusals = self.refusals.saturating_add(1);
        PortFault::OutOfMemory
    }
}

impl RepoPort for HeldRepo {
    ghost use Rattle.std.specs.Prelude.{Some};
    ghost use Rattle.repo_core.specs.Repository.{trees_of};

    ghost repository = { λ p. Some p.repo };

    ghost refusals = { λ p. p.refusals };

    ghost is_mirror = { λ p. p.mirror };

    ghost lent = { λ p. trees_of p.repo.revisions };

    fn is_repository(&self) {
        self.repo.is_repository()
    }

    fn identity(&self) -> Uuid {
        self.repo.identity()
    }

    fn read_only(&self) -> bool {
        self.mirror
    }

    fn latest(&mut self) -> Result<RevNo, PortFault> {
        Ok(self.repo.head())
    }

    fn tree(&mut self, number: RevNo) -> Result<Tree, PortFault> {
        let shared = match self.repo.tree(number) {
            None => return Err(PortFault::NoSuchRevision),
            Some(tree) => tree.share(),
        };
        match shared {
            Ok(tree) => Ok(tree),
            Err(_) => Err(self.refuse()),
        }
    }

    fn props(&mut self, number: RevNo) -> Result<Props, PortFault> {
        let shared = match self.repo.props(number) {
            None => return Err(PortFault::NoSuchRevision),
            Some(props) => props.share(),
        };
        match shared {
            Ok(props) => Ok(props),
            Err(_) => Err(self.refuse()),
        }
    }

    fn change_prop(
        &mut self,
        number: RevNo,
        name: &PropName,
        value: Option<&[u8]>,
        expected: &Expected,
    ) -> Result<(), PortFault> {
        match self
            .repo
            .change_prop(self.alloc, number, name, value, expected)
        {
            Ok(()) => Ok(()),
            Err(RepoFault::NoSuchRevision) => Err(PortFault::NoSuchRevision),
            Err(RepoFault::BaseMismatch(_)) => Err(PortFault::BaseMismatch),
            Err(RepoFault::TooLong) => Err(PortFault::TooLong),
            Err(_) => Err(self.refuse()),
        }
    }

    fn replay_of(&mut self, number: RevNo) -> Result<Replay, PortFault> {
        if number > self.repo.head() {
            return Err(PortFault::NoSuchRevision);
        }
        match replay_from(self.alloc, &self.repo, number) {
            Ok(replay) => Ok(replay),
            Err(_) => Err(self.refuse()),
        }
    }

    fn trees(&self) -> &[Tree] {
        self.repo.trees()
    }
}

/// What a replay of a revision of a repository takes beside the trees before it.
pub(crate) fn replay_from(alloc: Global, repo: &Repo, number: RevNo) -> Result<Replay, AllocError>
    requires { number < length repo.now.revisions }
    ensures replay { IfOk result
        (λ p. IsReplay repo.now number p.set (take number (trees_of repo.now.revisions)) p.props) }
{
    let Some(set) = repo.set(number) else {
        unreachable!()
    };
    let Some(props) = repo.props(number) else {
        unreachable!()
    };
    Ok(Replay {
        set: set.share(alloc)?,
        props: props.share()?,
    })
}
