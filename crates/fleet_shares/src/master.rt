//! A shared master as the port of a job.
ghost use Rattle.std.specs.Prelude.{◌≡◌, ◌≤◌, ◌∷◌, [], IfOk, IfErr, IfSome, OnErr};
ghost use Rattle.uuid.specs.Text.{hyphenated_text, lower};
ghost use Rattle.dump_load.specs.Trees.{Makes};
ghost use Rattle.node_base.specs.declared.refusal.Refusal.TheVariants as refusal;
ghost use Rattle.store_share.specs.Seats.{seen_by, KeepsSeen, SeesOn};
ghost use Rattle.sync_job.specs.Added.{Adds};
ghost use Rattle.sync_job.specs.Masters.{GivesIdentity, GivesNewest, GivesProps, GivesRevisionOver, IsTrue};
ghost use Rattle.sync_job.specs.Questions.{Identity, Latest, Fetch, FetchProps};
ghost use Rattle.sync_job.specs.declared.master.MasterFault.TheVariants as fault;
ghost use Rattle.fleet_shares.specs.Brought.{HasSeen};
ghost use Rattle.fleet_shares.specs.Faults.{master_fault, IsNoRevision};

use fleet_disk::Disk;
use node_base::{PropValue, Props, Refusal, RevNo};
use path_tree::Tree;
use repo_store::StoreFault;
use std::alloc::{AllocError, Global};
use std::sync::Wait;
use store_share::{MasterShare, ReaderSeat, RowName};
use sync_job::{Fetched, MasterFault, MasterPort};
use uuid::Uuid;

/// A shared master as one job sees it, from a reader's seat. What it tells of a revision is what its seat, and so every
/// reader, has seen there for good; its newest revision never falls.
#[derive(Drop)]
pub struct SharedMaster<'a, R: Wait, L: RowName, D: Disk> {
    rt: &'a R,
    share: &'a MasterShare<L, D>,
    seat: ReaderSeat<L>,
}

impl<'a, R: Wait, L: RowName, D: Disk> SharedMaster<'a, R, L, D> {
    ghost use Rattle.fleet_shares.specs.Ports.{share_of};

    /// The port over a share, whose seat has seen what is shown now. Only want of memory (70) refuses it.
    pub fn new(
        rt: &'a R,
        alloc: Global,
        share: &'a MasterShare<L, D>,
    ) -> Result<SharedMaster<'a, R, L, D>, AllocError>
        ensures { IfOk result (λ p. share_of p ≡ share.now) }
    {
        Ok(SharedMaster {
            rt,
            share,
            seat: share.enter_reader(rt, alloc)?,
        })
    }
}

impl<R: Wait, L: RowName, D: Disk> MasterPort for SharedMaster<'_, R, L, D> {
    ghost use Rattle.std.proofs.Common.{refl};
    ghost use Rattle.fleet_shares.specs.Ports.{seat_of, IsNowhere, WasTold};

    // Others change the master between two calls of a job, and no clause knows what is under a lock.
    ghost is_at = { λ _ o. IsNowhere o };

    // What it answers is its share's.
    ghost answered = { λ now first made. WasTold now first made };

    ghost unasked = { λ _. record { share = refl; told = tt } };

    fn identity(&mut self, alloc: Global) -> Result<PropValue, MasterFault>
        ensures seat { seat_of self.new ≡ seat_of self.old }
        ensures refused { IfErr result (λ f. f ≡ fault.Refused refusal.OutOfMemory) }
        ensures value { IsTrue IsNowhere IsNowhere (GivesIdentity result) }
        ensures answered { Adds WasTold self.old self.new (Identity result ∷ []) }
    {
        match identity_text(alloc, self.share.identity(self.rt)) {
            Ok(text) => Ok(text),
            Err(_) => Err(MasterFault::Refused(Refusal::OutOfMemory)),
        }
    }

    /// The newest revision, which the seat has seen then. It is never refused, and never falls.
    fn latest(&mut self, _alloc: Global) -> Result<RevNo, MasterFault>
        ensures most { IfOk result (λ n. seen_by (seat_of self.old) ≤ n) }
        ensures seen { IfOk result (λ n. seen_by (seat_of self.new) ≡ n) }
        ensures taken { OnErr result ⊥ }
        ensures kept { KeepsSeen (seat_of self.old) (seat_of self.new) }
        ensures value { IsTrue IsNowhere IsNowhere (GivesNewest result) }
        ensures answered { Adds WasTold self.old self.new (Latest result ∷ []) }
    {
        Ok(self.share.latest(self.rt, &mut self.seat))
    }

    /// The changes of the revision that the seat has seen then under that number, and the properties that it has now.
    /// NoSuchRevision (21) above the head, OutOfMemory (70).
    fn fetch(
        &mut self,
        alloc: Global,
        number: RevNo,
        trees: &[Tree],
    ) -> Result<Fetched, MasterFault>
        ensures changes { IfOk result (λ r. HasSeen (seat_of self.new) number r.set) }
        ensures kept { KeepsSeen (seat_of self.old) (seat_of self.new) }
        ensures seen { SeesOn (seat_of self.old) (seat_of self.new) }
        ensures refused { IfErr result IsNoRevision }
        ensures set { IsTrue IsNowhere IsNowhere (GivesRevisionOver trees.now number result) }
        ensures tree { IfOk result (λ r. IfSome r.tree (Makes trees.now r.set)) }
        ensures answered { Adds WasTold self.old self.new (Fetch number trees.now result ∷ []) }
    {
        let _ = trees;
        match self.share.fetch(self.rt, alloc, &mut self.seat, number) {
            Ok((set, props)) => Ok(Fetched::without_tree(set, props)),
            Err(fault) => Err(master_fault(fault)),
        }
    }

    /// The properties that the revision has now. NoSuchRevision (21) above the head, OutOfMemory (70).
    fn fetch_props(&mut self, _alloc: Global, number: RevNo) -> Result<Props, MasterFault>
        ensures seat { seat_of self.new ≡ seat_of self.old }
        ensures refused { IfErr result IsNoRevision }
        ensures value { IsTrue IsNowhere IsNowhere (GivesProps number result) }
        ensures answered { Adds WasTold self.old self.new (FetchProps number result ∷ []) }
    {
        match self.share.fetch_props(self.rt, number) {
            Ok(props) => Ok(props),
            Err(fault) => Err(master_fault(fault)),
        }
    }
}

// What a store's fault is at a master's port.
fn master_fault(fault: StoreFault) -> MasterFault
    ensures { result ≡ master_fault fault }
{
    MasterFault::Refused(Refusal::from(fault))
}

// An identity as a mirror's properties spell it.
fn identity_text(alloc: Global, identity: Uuid) -> Result<PropValue, AllocError>
    ensures { IfOk result (λ v. v ≡ hyphenated_text lower identity) }
{
    let mut buffer = [0u8; 36];
    let text = identity.hyphenated().encode_lower(&mut buffer);
    match PropValue::new(Vec::from_slice(alloc, text.as_bytes())?) {
        Ok(value) => Ok(value),
        Err(_) => Err(AllocError),
    }
}
