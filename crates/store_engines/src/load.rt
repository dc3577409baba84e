//! `load` over any disk, input and report.
ghost use Rattle.std.specs.Prelude.{◌≡◌, ◌<◌, []};
ghost use Rattle.std.specs.Prelude.{Some, None};
ghost use Rattle.std.specs.Prelude.{false, IfOk, IfErr, OnOk};
ghost use Rattle.repo_core.specs.Repository.{trees_of};
ghost use Rattle.repo_core.specs.declared.entry.Entry.TheVariants.{Mapped};
ghost use Rattle.repo_store.specs.Words.{revisions_of, HasFailed, IfSound, IsKept, StopKeeps};
ghost use Rattle.fleet_engines.specs.Histories.{rev_read};
ghost use Rattle.fleet_engines.specs.Nodes.{nodes_of};
ghost use Rattle.fleet_engines.specs.Revisions.{is_zero, MakesNone, MakesSet};
ghost use Rattle.fleet_engines.specs.Takers.{place};
ghost use Rattle.fleet_engines.specs.Streams.{NoPeerFails, TellsEither, TellsFailure};
ghost use Rattle.store_engines.specs.Loaders.{last_of, CantEndLoad, EndsLoad, Gathers, LoadsDump, LoadsRevision};
ghost use Rattle.store_engines.specs.Loaders.{MovesTo, RefusesAsMirror, RefusesLoad, RefusesRecord, RefusesRevision};
ghost use Rattle.store_engines.specs.Loaders.{ServesDump, ServesNext, ServesRevision, StopsAt, StopsAtEnd};
ghost use Rattle.store_engines.specs.Loaders.{TakesRecord};
ghost use Rattle.store_engines.specs.Devices.{is_device, IsSafe, Serves};
ghost use Rattle.store_engines.specs.Loads.{read_of, IsBare};
ghost use Rattle.store_engines.specs.Loads.{Commits, ServesRecords};
ghost use Rattle.store_engines.specs.Mirrors.{IsMirror, IsNoMirror};
ghost use Rattle.store_engines.specs.Telling.{KeepsTold, StaysTold};

use crate::commits::commit_applied;
use crate::mirror::refuse_mirror;
use crate::report::LoadReport;
use byte_streams::Input;
use dump_load::Applied;
use dump_text::DumpRecord;
use fleet_disk::Disk;
use fleet_engines::{OpenRevision, ReadRevision, RevisionNodes, Taker, read_stream};
use node_base::{Props, Refusal, RevNo};
use path_tree::Tree;
use repo_core::Repo;
use repo_store::{RepoStore, store_refusal};
use std::alloc::Global;
use whole_texts::ReadNode;

// Whether it is revision 0 of a repository without any other.
fn is_zero(repo: &Repo, revision: &ReadRevision) -> bool
    ensures { result ≡ is_zero (trees_of repo.now.revisions) (rev_read revision.now) }
{
    repo.trees().len() == 1 && revision.number == RevNo::ZERO
}

// The set of the revision after the head with the tree that it makes. WrongNumber (16) where the number isn't its, then
// a text that can't be made whole, and then what makes no set or has a fault over the trees so far.
fn judge(trees: &[Tree], number: RevNo, nodes: RevisionNodes) -> Result<Applied, Refusal>
    ensures made { IfOk result (MakesSet trees.now number (nodes_of nodes)) }
    ensures refused { IfErr result (MakesNone trees.now number (nodes_of nodes)) }
    ensures no_device { IfErr result (λ e. is_device e ≡ false) }
    ensures no_peer { NoPeerFails result }
{
    nodes.load(trees, number)
}

// Other properties for revision 0.
fn put_zero<D: Disk + Drop>(
    alloc: Global,
    store: &mut RepoStore<D>,
    props: Props,
) -> Result<(), Refusal>
    ensures { Commits (Mapped 0 props) store.old store.new result }
{
    match store.put_props(alloc, RevNo::ZERO, props) {
        Ok(_receipt) => Ok(()),
        Err(fault) => Err(store_refusal(fault)),
    }
}

// Judges a revision other than 0, commits it, and says so.
fn load_next<D: Disk + Drop, T: LoadReport>(
    alloc: Global,
    revision: ReadRevision,
    store: &mut RepoStore<D>,
    report: &mut T,
) -> Result<(), Refusal>
    requires later { is_zero (trees_of (revisions_of store.old)) (rev_read revision) ≡ false }
    ensures ok { OnOk result (LoadsRevision T.LoadReport revision store.old report.old store.new report.new) }
    ensures refused { IfErr result (RefusesRevision T.LoadReport revision store.old report.old store.new report.new) }
    ensures device { ServesRevision revision store.old store.new result }
    ensures told { KeepsTold store.old store.new (T.told report.old) (T.told report.new) }
    ensures peer { TellsFailure T.failures report.old report.new result }
{
    let ReadRevision {
        number,
        props,
        nodes,
    } = revision;
    let applied = judge(store.repo().trees(), number, nodes)?;
    commit_applied(alloc, store, applied, props)?;
    report.loaded(store, number)
}

// Loads a revision that is whole.
fn load_one<D: Disk + Drop, T: LoadReport>(
    alloc: Global,
    revision: ReadRevision,
    store: &mut RepoStore<D>,
    report: &mut T,
) -> Result<(), Refusal>
    ensures ok { OnOk result (IsBare (rev_read revision)
        → LoadsRevision T.LoadReport revision store.old report.old store.new report.new) }
    ensures refused { IfErr result (λ e. IsBare (rev_read revision)
        → RefusesRevision T.LoadReport revision store.old report.old store.new report.new e) }
    ensures device { ServesRevision revision store.old store.new result }
    ensures told { KeepsTold store.old store.new (T.told report.old) (T.told report.new) }
    ensures peer { TellsFailure T.failures report.old report.new result }
{
    if is_zero(store.repo(), &revision) {
        return put_zero(alloc, store, revision.props);
    }
    load_next(alloc, revision, store, report)
}

/// What a load has read of a revision that isn't whole yet.
#[derive(Drop)]
pub struct Loader {
    alloc: Global,
    last: OpenRevision,
}

impl Loader {
    // Before the first record.
    fn new(alloc: Global) -> Loader
        ensures { last_of result ≡ None }
    {
        Loader {
            alloc,
            last: OpenRevision::none(alloc),
        }
    }

    // A record more. Where it begins a revision, the one before it is whole, and is loaded.
    fn take_record<D: Disk + Drop, T: LoadReport>(
        &mut self,
        next: DumpRecord,
        store: &mut RepoStore<D>,
        report: &mut T,
    ) -> Result<(), Refusal>
        ensures ok { OnOk result (MovesTo T.LoadReport (place self.old store.old report.old) next
            (place self.new store.new report.new)) }
        ensures refused { IfErr result (λ e. StopsAt T.LoadReport (place self.old store.old report.old) next e
            (place self.new store.new report.new)) }
        ensures device { ServesNext self.old store.old next self.new store.new result }
        ensures told { KeepsTold store.old store.new (T.told report.old) (T.told report.new) }
        ensures peer { TellsFailure T.failures report.old report.new result }
    {
        match next {
            DumpRecord::Identity(_identity) => Ok(()),
            DumpRecord::Revision(number, props) => {
                self.close(store, report)?;
                self.last.begin(number, props);
                Ok(())
            }
            DumpRecord::Node(node) => self.last.add_node(ReadNode { node, delta: None }),
            DumpRecord::DeltaNode(node, delta) => self.last.add_node(ReadNode {
                node,
                delta: Some(delta),
            }),
        }
    }

    // Loads the revision that is read, if there is one.
    fn close<D: Disk + Drop, T: LoadReport>(
        &mut self,
        store: &mut RepoStore<D>,
        report: &mut T,
    ) -> Result<(), Refusal>
        ensures ok { OnOk result (Gathers T.LoadReport (place self.old store.old report.old)
            (place self.new store.new report.new)) }
        ensures last { last_of self.new ≡ None }
        ensures refused { IfErr result (λ e. StopsAtEnd T.LoadReport (place self.old store.old report.old) e
            (place self.new store.new report.new)) }
        ensures device { IsSafe store.old → ServesRecords (read_of (last_of self.old)) store.old store.new result [] }
        ensures told { KeepsTold store.old store.new (T.told report.old) (T.told report.new) }
        ensures peer { TellsFailure T.failures report.old report.new result }
    {
        match self.last.take() {
            Some(revision) => load_one(self.alloc, revision, store, report),
            None => Ok(()),
        }
    }

    // The same in one word each.
    fn take_next<D: Disk + Drop, T: LoadReport>(
        &mut self,
        next: DumpRecord,
        store: &mut RepoStore<D>,
        report: &mut T,
    ) -> Result<(), Refusal>
        ensures ok { OnOk result (TakesRecord T.LoadReport (place self.old store.old report.old) next
            (place self.new store.new report.new)) }
        ensures refused { IfErr result (λ e. RefusesRecord T.LoadReport (place self.old store.old report.old) next e
            (place self.new store.new report.new)) }
        ensures peer { TellsFailure T.failures report.old report.new result }
    {
        self.take_record(next, store, report)
    }

    fn take_end<D: Disk + Drop, T: LoadReport>(
        &mut self,
        store: &mut RepoStore<D>,
        report: &mut T,
    ) -> Result<(), Refusal>
        ensures ok { OnOk result (EndsLoad T.LoadReport (place self.old store.old report.old)
            (place self.new store.new report.new)) }
        ensures refused { IfErr result (λ e. CantEndLoad T.LoadReport (place self.old store.old report.old) e
            (place self.new store.new report.new)) }
        ensures peer { TellsFailure T.failures report.old report.new result }
    {
        self.close(store, report)
    }
}

impl<D: Disk + Drop, T: LoadReport> Taker<RepoStore<D>, T> for Loader {
    ghost takes = { λ p next q. TakesRecord T.LoadReport p next q };

    ghost refuses = { λ p next e q. RefusesRecord T.LoadReport p next e q };

    ghost ends = { λ p q. EndsLoad T.LoadReport p q };

    ghost cant_end = { λ p e q. CantEndLoad T.LoadReport p e q };

    ghost failures = { T.failures };

    fn take(
        &mut self,
        next: DumpRecord,
        store: &mut RepoStore<D>,
        output: &mut T,
    ) -> Result<(), Refusal> {
        self.take_next(next, store, output)
    }

    fn end(&mut self, store: &mut RepoStore<D>, output: &mut T) -> Result<(), Refusal> {
        self.take_end(store, output)
    }
}

/// Loads a dump: each revision when its last record has been read, judged whole, committed, and told in a line. The
/// identity of the dump is passed over.
///
/// A record of revision 0 gives its properties while there is no other revision; each other revision is the one after
/// the head, else WrongNumber (16). With `deltas` texts may be given as deltas (else 9): each is made whole over the text
/// that its file has before. A mirror is refused (24) before anything is read. A fault of the text (1 to 10), of a
/// revision (2, 6, 8, 10 to 17, 44), of the store (31, 32, 36, 70) or of a stream (49) ends the load, and what was loaded
/// before it stays. Whatever is answered, 31 too, a stop then leaves what keeps every revision that was told, or that
/// with the one that was being loaded.
pub fn run_load<D: Disk + Drop, I: Input, T: LoadReport>(
    alloc: Global,
    deltas: bool,
    store: &mut RepoStore<D>,
    input: &mut I,
    report: &mut T,
) -> Result<(), Refusal>
    ensures ok { OnOk result (LoadsDump I.Input T.LoadReport deltas input.old store.old report.old store.new
        report.new) }
    ensures refused { IfErr result (RefusesLoad I.Input T.LoadReport deltas input.old store.old report.old store.new
        report.new) }
    ensures mirror { IsMirror store.old
        → IfErr result (RefusesAsMirror I.Input T.LoadReport input.old store.old report.old input.new store.new
        report.new) }
    ensures no_mirror { OnOk result (IsNoMirror store.old) }
    ensures device { Serves store.old store.new result }
    ensures entries { ServesDump I.Input deltas input.old store.old store.new result }
    ensures durable { IfSound store.new (StopKeeps store.new) }
    ensures kept { IsKept store.new }
    ensures told { StaysTold store.old store.new (T.told report.old) (T.told report.new) }
    ensures peer { TellsEither I.Input input.old input.new T.failures report.old report.new result }
{
    refuse_mirror(store.repo())?;
    let mut loader = Loader::new(alloc);
    let done = read_stream(alloc, deltas, &mut loader, store, report, input);
    let _repo = store.repo();
    done
}
