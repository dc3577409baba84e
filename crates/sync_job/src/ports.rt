//! The ports of a job, and all that is said through them.
ghost use Rattle.std.specs.Prelude.{◌≡◌, ◌≢◌, ◌≤◌, ◌+◌, ℕ, List, ◌⊎◌, ◌++◌, ◌∷◌, [], IfOk, IfSome};
ghost use Rattle.std.specs.Prelude.{OnOk, OnErr, IsErr, None, Some, ◌-◌, length, map};
ghost use Rattle.sync_core.specs.declared.answer.Answer.TheVariants as answer_is;
ghost use Rattle.sync_core.specs.declared.fault.SyncFault.TheVariants.{OutOfMemory as NoMemory};
ghost use Rattle.sync_core.specs.Calls.{call_of};
ghost use Rattle.sync_core.specs.Deeds.{Deed, Calls, AsksIdentity, AsksLatest, Fetches, FetchesProps, Ends, deed_of};
ghost use Rattle.sync_core.specs.Measures.{CanBe};
ghost use Rattle.sync_core.specs.Mirror.{ReleaseLock};
ghost use Rattle.sync_core.specs.Copies.{outcome_of, Failed};
ghost use Rattle.sync_job.specs.Added.{Adds};
ghost use Rattle.sync_job.specs.Seen.{call_seen};
ghost use Rattle.sync_job.specs.declared.report.Told.TheVariants.{Committed, Copied};
ghost use Rattle.node_base.specs.Tree.{PathMap};
ghost use Rattle.dump_load.specs.Trees.{Makes};
ghost use Rattle.sync_core.specs.World.{Origin};
ghost use Rattle.sync_job.specs.Masters.{fault_text, GivesIdentity, GivesNewest, GivesRevision, GivesProps};
ghost use Rattle.sync_job.specs.Questions.{Identity, Latest, Fetch, FetchProps, IsToldOf};
ghost use Rattle.sync_job.specs.Made.{ComesWith, IsMadeBy, KeepsMade, MakesOf};
ghost use Rattle.sync_job.specs.Ports.{HappensAt, HappensWithoutTrees, HasTreeFor, KeepsMirror, MirrorBeginsOn, MirrorStillBegins};
ghost use Rattle.sync_job.specs.Ports.{MovesMirror, SaysCalls, SaysQuestions, Speaks, TakesFrom};
ghost use Rattle.sync_job.specs.Rooms.{IsReady, KeepsRoom};
ghost use Rattle.sync_job.specs.Said.{Fits, IsQuestion, Tells, told_of};
ghost use Rattle.sync_job.specs.Telling.{IsOther};
ghost use Rattle.sync_job.specs.Worlds.{IsAnswerAt};

use crate::master::{Fetched, MasterFault, MasterPort};
use crate::mirror::MirrorPort;
use crate::port_call::{PortCall, SeenCall};
use crate::report::{Report, Told};
use crate::said_list::SaidList;
use node_base::{PropValue, Props, RevNo};
use path_tree::Tree;
use std::alloc::{AllocError, Global};
use std::snapshot::Snapshot;
use sync_core::{Action, Answer, MirrorCall, Reply, SyncFault};

/// What a job speaks to: a master, a mirror, and who is told. It keeps what was said through it: each call of the
/// mirror, each question to the master and each report with its answer, and each tree that was refused, in order.
///
/// Room for a call, and for its report, is made before it: want of memory then leaves the ports alone. Room for the
/// release of a lock is made with the lock and kept, so want of memory keeps no lock from being given back.
///
/// The tree that comes with a fetched revision is kept for the call behind it: with that revision's commit the mirror
/// takes it.
#[derive(Drop)]
pub struct JobPorts<M: MasterPort + Drop, N: MirrorPort + Drop, R: Report + Drop> {
    master: M,
    mirror: N,
    report: R,
    calls: SaidList,
    tree: Option<Tree>,
}

impl<M: MasterPort + Drop, N: MirrorPort + Drop, R: Report + Drop> JobPorts<M, N, R> {
    ghost use Rattle.sync_job.specs.Words.{calls_of, master_of, mirror_of, report_of, tree_of, HasRoom, HasRoomFor};
    ghost use Rattle.sync_job.specs.Words.{SaysNothing};

    /// The ports, through which nothing was said yet.
    pub fn new(alloc: Global, master: M, mirror: N, report: R) -> JobPorts<M, N, R>
        ensures calls { calls_of result ≡ [] }
        ensures parts { (master_of result ≡ master) × (mirror_of result ≡ mirror) × (report_of result ≡ report) }
    {
        JobPorts {
            master,
            mirror,
            report,
            calls: SaidList::new(alloc),
            tree: None,
        }
    }

    /// The three, as what was said has left them.
    pub fn into_parts(self) -> (M, N, R)
        ensures { (result.0 ≡ master_of self) × (result.1 ≡ mirror_of self) × (result.2 ≡ report_of self) }
    {
        let JobPorts {
            master,
            mirror,
            report,
            calls: _,
            tree: _,
        } = self;
        (master, mirror, report)
    }

    /// How many calls were made.
    pub fn count(&self) -> usize
        ensures { result ≡ length (calls_of self.now) }
    {
        self.calls.len()
    }

    /// Does what a job does next, and answers it. For a revision the trees before it are at hand, or asked for.
    pub(crate) fn act(
        &mut self,
        alloc: Global,
        trees: &mut Vec<Tree>,
        action: &Action<'_>,
    ) -> Answer
        requires goes { deed_of action.now ≡ Ends → ⊥ }
        requires ready { IsReady (deed_of action.now) self.old }
        requires made { HasTreeFor N.MirrorPort self.old (deed_of action.now) }
        ensures room { KeepsRoom (deed_of action.now) result self.old self.new }
        ensures can { CanBe result }
        ensures said { Speaks R.Report self.old self.new (deed_of action.now) result }
        ensures mirror { MovesMirror N.MirrorPort self.old self.new (deed_of action.now) result }
        ensures asked { SaysCalls N.MirrorPort self.old self.new }
        ensures answered { SaysQuestions M.MasterPort self.old self.new }
        ensures happens { HappensAt M.MasterPort N.MirrorPort self.old self.new trees.old.items trees.new.items
            (deed_of action.now) result }
        ensures first { MirrorBeginsOn N.MirrorPort self.old self.new trees.old.items trees.new.items }
        ensures kept { KeepsMade trees.new.items (deed_of action.now) result (tree_of self.new) }
    {
        match action {
            Action::Call(call) => self.step(alloc, call),
            Action::AskIdentity => self.identity(alloc),
            Action::AskLatest => self.latest(alloc),
            Action::Fetch(number) => self.fetch(alloc, *number, trees),
            Action::FetchProps(number) => self.fetch_props(alloc, *number),
            Action::End => unreachable!(),
        }
    }

    // A call of the mirror, and its report.
    fn step(&mut self, alloc: Global, call: &MirrorCall<'_>) -> Answer
        requires ready { IsReady (Calls (call_of call.now)) self.old }
        requires made { ComesWith (N.begins_with (mirror_of self.old)) (call_of call.now) (tree_of self.old) }
        ensures room { KeepsRoom (Calls (call_of call.now)) result self.old self.new }
        ensures can { CanBe result }
        ensures said { Speaks R.Report self.old self.new (Calls (call_of call.now)) result }
        ensures mirror { MovesMirror N.MirrorPort self.old self.new (Calls (call_of call.now)) result }
        ensures asked { SaysCalls N.MirrorPort self.old self.new }
        ensures answered { SaysQuestions M.MasterPort self.old self.new }
        ensures happens { HappensWithoutTrees M.MasterPort N.MirrorPort self.old self.new
            (Calls (call_of call.now)) result }
        ensures first { MirrorStillBegins N.MirrorPort self.old self.new }
    {
        let kept = match self.room_for(call) {
            Ok(kept) => kept,
            Err(_) => return Answer::Refused(SyncFault::OutOfMemory),
        };
        let tree = self.tree.take();
        match self.mirror.step(alloc, call, tree) {
            Ok(Reply::Done) => {
                let answer = Answer::Done;
                let said = Snapshot::of(&answer);
                self.calls.push_reserved(PortCall::Step(kept, said));
                self.tell(call);
                answer
            }
            Ok(Reply::Seen(standing)) => {
                let answer = Answer::Seen(standing);
                let said = Snapshot::of(&answer);
                self.calls.push_reserved(PortCall::Step(kept, said));
                answer
            }
            Err(fault) => {
                let answer = Answer::Refused(fault);
                let said = Snapshot::of(&answer);
                self.calls.push_reserved(PortCall::Step(kept, said));
                answer
            }
        }
    }

    // Room for a call and its report, and for a release behind it, and the call as it is kept. A release has its room.
    fn room_for(&mut self, call: &MirrorCall<'_>) -> Result<SeenCall, AllocError>
        requires ready { IsReady (Calls (call_of call.now)) self.old }
        ensures kept { IfOk result (λ k. call_seen k ≡ call_of call.now) }
        ensures room { OnOk result (HasRoom self.new) }
        ensures more { OnOk result ((call_of call.now ≡ ReleaseLock) ⊎ HasRoomFor 4 self.new) }
        ensures tree { tree_of self.new ≡ tree_of self.old }
        ensures keeps { HasRoom self.old → HasRoom self.new }
        ensures made { OnErr result (call_of call.now ≢ ReleaseLock) }
        ensures calls { calls_of self.new ≡ calls_of self.old }
        ensures report { report_of self.new ≡ report_of self.old }
        ensures mirror { mirror_of self.new ≡ mirror_of self.old }
        ensures master { master_of self.new ≡ master_of self.old }
    {
        if let MirrorCall::ReleaseLock = call {
            return Ok(SeenCall::ReleaseLock);
        }
        self.calls.reserve(4)?;
        Ok(SeenCall::of(call))
    }

    // Tells of an accepted call.
    fn tell(&mut self, call: &MirrorCall<'_>)
        requires { HasRoomFor 1 self.old }
        ensures room { HasRoomFor 3 self.old → HasRoom self.new }
        ensures calls { calls_of self.new ≡ calls_of self.old ++ map Tells (told_of (call_of call.now)) }
        ensures told { Adds R.heard (report_of self.old) (report_of self.new) (told_of (call_of call.now)) }
        ensures mirror { mirror_of self.new ≡ mirror_of self.old }
        ensures master { master_of self.new ≡ master_of self.old }
    {
        match call {
            MirrorCall::Init { .. } => self.tell_copied(RevNo::ZERO),
            MirrorCall::Commit { number, .. } => self.tell_committed(*number),
            MirrorCall::PutProps { number, .. } => self.tell_copied(*number),
            _ => {}
        }
    }

    fn tell_committed(&mut self, number: RevNo)
        requires { HasRoomFor 1 self.old }
        ensures room { HasRoomFor 3 self.old → HasRoom self.new }
        ensures calls { calls_of self.new ≡ calls_of self.old ++ Tells (Committed number) ∷ [] }
        ensures told { Adds R.heard (report_of self.old) (report_of self.new) (Committed number ∷ []) }
        ensures mirror { mirror_of self.new ≡ mirror_of self.old }
        ensures master { master_of self.new ≡ master_of self.old }
    {
        self.report.committed(number);
        self.calls
            .push_reserved(PortCall::Told(Told::Committed(number)));
    }

    fn tell_copied(&mut self, number: RevNo)
        requires { HasRoomFor 1 self.old }
        ensures room { HasRoomFor 3 self.old → HasRoom self.new }
        ensures calls { calls_of self.new ≡ calls_of self.old ++ Tells (Copied number) ∷ [] }
        ensures told { Adds R.heard (report_of self.old) (report_of self.new) (Copied number ∷ []) }
        ensures mirror { mirror_of self.new ≡ mirror_of self.old }
        ensures master { master_of self.new ≡ master_of self.old }
    {
        self.report.copied(number);
        self.calls
            .push_reserved(PortCall::Told(Told::Copied(number)));
    }

    fn identity(&mut self, alloc: Global) -> Answer
        ensures room { KeepsRoom AsksIdentity result self.old self.new }
        ensures can { CanBe result }
        ensures said { Speaks R.Report self.old self.new AsksIdentity result }
        ensures mirror { MovesMirror N.MirrorPort self.old self.new AsksIdentity result }
        ensures asked { SaysCalls N.MirrorPort self.old self.new }
        ensures answered { SaysQuestions M.MasterPort self.old self.new }
        ensures happens { HappensWithoutTrees M.MasterPort N.MirrorPort self.old self.new AsksIdentity result }
        ensures first { MirrorStillBegins N.MirrorPort self.old self.new }
    {
        if self.calls.reserve(3).is_err() {
            return Answer::Refused(SyncFault::OutOfMemory);
        }
        let answer = identity_answer(alloc, self.master.identity(alloc));
        let said = Snapshot::of(&answer);
        self.calls.push_reserved(PortCall::Identity(said));
        answer
    }

    fn latest(&mut self, alloc: Global) -> Answer
        ensures room { KeepsRoom AsksLatest result self.old self.new }
        ensures can { CanBe result }
        ensures said { Speaks R.Report self.old self.new AsksLatest result }
        ensures mirror { MovesMirror N.MirrorPort self.old self.new AsksLatest result }
        ensures asked { SaysCalls N.MirrorPort self.old self.new }
        ensures answered { SaysQuestions M.MasterPort self.old self.new }
        ensures happens { HappensWithoutTrees M.MasterPort N.MirrorPort self.old self.new AsksLatest result }
        ensures first { MirrorStillBegins N.MirrorPort self.old self.new }
    {
        if self.calls.reserve(3).is_err() {
            return Answer::Refused(SyncFault::OutOfMemory);
        }
        let answer = latest_answer(alloc, self.master.latest(alloc));
        let said = Snapshot::of(&answer);
        self.calls.push_reserved(PortCall::Latest(said));
        answer
    }

    fn fetch(&mut self, alloc: Global, number: RevNo, trees: &mut Vec<Tree>) -> Answer
        ensures room { KeepsRoom (Fetches number) result self.old self.new }
        ensures can { CanBe result }
        ensures said { Speaks R.Report self.old self.new (Fetches number) result }
        ensures mirror { MovesMirror N.MirrorPort self.old self.new (Fetches number) result }
        ensures asked { SaysCalls N.MirrorPort self.old self.new }
        ensures answered { SaysQuestions M.MasterPort self.old self.new }
        ensures happens { HappensAt M.MasterPort N.MirrorPort self.old self.new trees.old.items trees.new.items
            (Fetches number) result }
        ensures first { MirrorBeginsOn N.MirrorPort self.old self.new trees.old.items trees.new.items }
        ensures kept { IsMadeBy trees.new.items number result (tree_of self.new) }
    {
        if let Some(refusal) = self.fill(number, trees) {
            return refusal;
        }
        if self.calls.reserve(3).is_err() {
            return Answer::Refused(SyncFault::OutOfMemory);
        }
        let (answer, tree) = revision_answer(
            alloc,
            number,
            self.master
                .fetch(alloc, number, &trees.as_slice()[..number.index()]),
        );
        let said = Snapshot::of(&answer);
        self.calls.push_reserved(PortCall::Fetch(number, said));
        self.tree = tree;
        answer
    }

    fn fetch_props(&mut self, alloc: Global, number: RevNo) -> Answer
        ensures room { KeepsRoom (FetchesProps number) result self.old self.new }
        ensures can { CanBe result }
        ensures said { Speaks R.Report self.old self.new (FetchesProps number) result }
        ensures mirror { MovesMirror N.MirrorPort self.old self.new (FetchesProps number) result }
        ensures asked { SaysCalls N.MirrorPort self.old self.new }
        ensures answered { SaysQuestions M.MasterPort self.old self.new }
        ensures happens { HappensWithoutTrees M.MasterPort N.MirrorPort self.old self.new (FetchesProps number) result }
        ensures first { MirrorStillBegins N.MirrorPort self.old self.new }
    {
        if self.calls.reserve(3).is_err() {
            return Answer::Refused(SyncFault::OutOfMemory);
        }
        let answer = map_answer(alloc, number, self.master.fetch_props(alloc, number));
        let said = Snapshot::of(&answer);
        self.calls.push_reserved(PortCall::FetchProps(number, said));
        answer
    }

    // The mirror's trees before a revision, those that aren't at hand; or why not.
    fn fill(&mut self, number: RevNo, trees: &mut Vec<Tree>) -> Option<Answer>
        ensures room { HasRoom self.old → HasRoom self.new }
        ensures refusal { IfSome result (λ a. CanBe a × (a ≢ answer_is.Done)) }
        ensures none { result ≡ None → SaysNothing self.old self.new }
        ensures some { IfSome result (Speaks R.Report self.old self.new (Fetches number)) }
        ensures mirror { KeepsMirror N.MirrorPort self.old self.new }
        ensures master { master_of self.new ≡ master_of self.old }
        ensures asked { SaysCalls N.MirrorPort self.old self.new }
        ensures answered { SaysQuestions M.MasterPort self.old self.new }
        ensures trees { TakesFrom N.MirrorPort self.old self.new trees.old.items trees.new.items result }
        ensures many { result ≡ None → number ≤ length trees.new.items }
        ensures first { MirrorBeginsOn N.MirrorPort self.old self.new trees.old.items trees.new.items }
    {
        for i in trees.len()..number.index() {
            let refusal = self.take_tree(number, RevNo::new(i as u16), trees);
            if refusal.is_some() {
                return refusal;
            }
        }
        None
    }

    // One tree of the mirror.
    fn take_tree(&mut self, of: RevNo, number: RevNo, trees: &mut Vec<Tree>) -> Option<Answer>
        requires next { number ≡ length trees.old.items }
        ensures room { HasRoom self.old → HasRoom self.new }
        ensures refusal { IfSome result (λ a. CanBe a × (a ≢ answer_is.Done)) }
        ensures none { result ≡ None → SaysNothing self.old self.new }
        ensures some { IfSome result (Speaks R.Report self.old self.new (Fetches of)) }
        ensures mirror { KeepsMirror N.MirrorPort self.old self.new }
        ensures master { master_of self.new ≡ master_of self.old }
        ensures asked { SaysCalls N.MirrorPort self.old self.new }
        ensures answered { SaysQuestions M.MasterPort self.old self.new }
        ensures trees { TakesFrom N.MirrorPort self.old self.new trees.old.items trees.new.items result }
        ensures one { result ≡ None → length trees.new.items ≡ length trees.old.items + 1 }
        ensures first { MirrorBeginsOn N.MirrorPort self.old self.new trees.old.items trees.new.items }
    {
        let _ = of;
        if self.calls.reserve(3).is_err() || trees.reserve(1).is_err() {
            return Some(Answer::Refused(SyncFault::OutOfMemory));
        }
        match self.mirror.tree(number) {
            Ok(tree) => {
                trees.push_reserved(tree);
                None
            }
            Err(fault) => {
                let said = Snapshot::of(&fault);
                self.calls.push_reserved(PortCall::NoTree(number, said));
                Some(Answer::Refused(fault))
            }
        }
    }
}

// The master's fault as an answer.
fn failed(alloc: Global, fault: MasterFault) -> Answer
    ensures can { CanBe result }
    ensures told { (outcome_of result ≡ Failed (fault_text fault)) ⊎ (result ≡ answer_is.Refused NoMemory) }
    ensures other { IsOther (outcome_of result) }
    ensures fits { (d : Deed) → IsQuestion d → Fits d result }
    ensures at { (o : Origin) (d : Deed) → IsQuestion d → IsAnswerAt o d result }
{
    match fault.text(alloc) {
        Ok(text) => Answer::Failed(text),
        Err(_) => Answer::Refused(SyncFault::OutOfMemory),
    }
}

fn identity_answer(alloc: Global, answer: Result<PropValue, MasterFault>) -> Answer
    ensures can { CanBe result }
    ensures told { IsToldOf (Identity answer) result }
    ensures other { IsOther (outcome_of result) }
    ensures fits { Fits AsksIdentity result }
    ensures at { (o : Origin) → GivesIdentity answer o → IsAnswerAt o AsksIdentity result }
{
    match answer {
        Ok(uuid) => Answer::Identity(uuid),
        Err(fault) => failed(alloc, fault),
    }
}

fn latest_answer(alloc: Global, answer: Result<RevNo, MasterFault>) -> Answer
    ensures can { CanBe result }
    ensures told { IsToldOf (Latest answer) result }
    ensures other { IsOther (outcome_of result) }
    ensures fits { Fits AsksLatest result }
    ensures at { (o : Origin) → GivesNewest answer o → IsAnswerAt o AsksLatest result }
{
    match answer {
        Ok(number) => {
            let _newest = number.get();
            Answer::Latest(number)
        }
        Err(fault) => failed(alloc, fault),
    }
}

// The answer of a fetch, and the tree that came with it.
fn revision_answer(
    alloc: Global,
    number: RevNo,
    answer: Result<Fetched, MasterFault>,
) -> (Answer, Option<Tree>)
    ensures can { CanBe result.0 }
    ensures told { (trees : List PathMap) → IsToldOf (Fetch number trees answer) result.0 }
    ensures other { IsOther (outcome_of result.0) }
    ensures fits { Fits (Fetches number) result.0 }
    ensures at { (o : Origin) → GivesRevision number answer o → IsAnswerAt o (Fetches number) result.0 }
    ensures tree { (trees : List PathMap) → IfOk answer (λ r. IfSome r.tree (Makes trees r.set))
        → MakesOf trees result.0 result.1 }
{
    let _ = number;
    match answer {
        Ok(Fetched { set, tree, props }) => (Answer::Revision(set, props), tree),
        Err(fault) => (failed(alloc, fault), None),
    }
}

fn map_answer(alloc: Global, number: RevNo, answer: Result<Props, MasterFault>) -> Answer
    ensures can { CanBe result }
    ensures told { IsToldOf (FetchProps number answer) result }
    ensures other { IsOther (outcome_of result) }
    ensures fits { Fits (FetchesProps number) result }
    ensures at { (o : Origin) → GivesProps number answer o → IsAnswerAt o (FetchesProps number) result }
{
    let _ = number;
    match answer {
        Ok(props) => Answer::Map(props),
        Err(fault) => failed(alloc, fault),
    }
}
