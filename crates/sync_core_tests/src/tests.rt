//! A mirror's calls and jobs on states in memory, with the answers that svnsync's protocol fixes.
ghost use Rattle.std.specs.Prelude.{◌≢◌, IfSome};
ghost use Rattle.sync_core.specs.Deeds.{Ends};
ghost use Rattle.sync_core.specs.States.{deed_in};

use dump_load::ChangeSet;
use node_base::{PropName, PropValue, Props, Refusal, RevNo, ToldNumber};
use repo_core::Repo;
use std::alloc::Global;
use std::process::Abort;
use sync_core::{
    Action, Answer, Ending, JobState, KeptCall, LockToken, MirrorCall, Number, Numbers,
    PlainMirror, Planned, Reply, Resting, Seat, Standing, SyncFault, Token, absorb, decide,
    holder_left, look, plan, shape_of,
};
use uuid::Uuid;

/// Ends the test with the case that is wrong, if one is.
pub(crate) fn none_is_wrong(rt: &impl Abort, wrong: Option<&str>) {
    if let Some(case) = wrong {
        rt.panic(case);
    }
}

pub(crate) fn repo(rt: &impl Abort, alloc: Global) -> Repo {
    let identity = Uuid::parse_str("6a1f0c3e-0000-4000-8000-000000000001").expect(rt, "a UUID");
    Repo::new(alloc, identity).expect(rt, "memory")
}

pub(crate) fn value(rt: &impl Abort, alloc: Global, text: &[u8]) -> PropValue {
    let bytes = Vec::from_slice(alloc, text).expect(rt, "memory");
    PropValue::new(bytes).expect(rt, "a property's value")
}

pub(crate) fn token(rt: &impl Abort, alloc: Global, text: &[u8]) -> Token {
    Token::new(Vec::from_slice(alloc, text).expect(rt, "memory")).expect(rt, "a token")
}

pub(crate) fn set(rt: &impl Abort, alloc: Global, props: &mut Props, name: &[u8], text: &[u8]) {
    let name = PropName::parse(alloc, name).expect(rt, "a name");
    props
        .set(alloc, name, value(rt, alloc, text))
        .expect(rt, "a property");
}

pub(crate) fn one_prop(rt: &impl Abort, alloc: Global, name: &[u8], text: &[u8]) -> Props {
    let mut props = Props::empty();
    set(rt, alloc, &mut props, name, text);
    props
}

// Revision 0's properties of a master: one of its own and one of a mirror.
fn put_first(rt: &impl Abort, alloc: Global, master: &mut Repo) {
    let mut zero = one_prop(rt, alloc, b"svn:date", b"d");
    set(rt, alloc, &mut zero, b"svn:sync-lock", b"other");
    master.put_props(RevNo::ZERO, zero).expect(rt, "properties");
}

// One revision more, with a log.
fn commit_one(rt: &impl Abort, alloc: Global, master: &mut Repo) {
    let log = one_prop(rt, alloc, b"svn:log", b"one");
    master
        .commit(alloc, master.head(), ChangeSet::empty(alloc), log, None)
        .expect(rt, "a commit");
}

// A master: revision 0 has a property of its own and one of a mirror, and each revision up to the head a log.
fn master(rt: &impl Abort, alloc: Global, head: u16) -> Repo {
    let mut master = repo(rt, alloc);
    put_first(rt, alloc, &mut master);
    for _ in 0..head {
        commit_one(rt, alloc, &mut master);
    }
    master
}

/// The number of a refusal, 60 where the master failed, and 0 of any other answer.
pub(crate) fn number_of(answer: &Answer) -> u8 {
    match answer {
        Answer::Refused(fault) => fault.number(),
        Answer::Failed(_) => 60,
        _ => 0,
    }
}

/// The number of a call's refusal, and 0 where it was taken.
pub(crate) fn say(alloc: Global, mirror: &mut PlainMirror, seat: u64, call: &MirrorCall<'_>) -> u8 {
    let answer = of_step(mirror.step(alloc, Seat::new(seat), call));
    let number = number_of(&answer);
    drop(answer);
    number
}

pub(crate) fn of_step(step: Result<Reply, SyncFault>) -> Answer {
    match step {
        Ok(Reply::Done) => Answer::Done,
        Ok(Reply::Seen(standing)) => Answer::Seen(standing),
        Err(fault) => Answer::Refused(fault),
    }
}

// What is told of a call that was taken: c and p for a commit and for properties.
fn told(call: &MirrorCall<'_>) -> Option<u8> {
    match call {
        MirrorCall::Commit { .. } => Some(b'c'),
        MirrorCall::PutProps { .. } => Some(b'p'),
        MirrorCall::Init { .. } => Some(b'p'),
        _ => None,
    }
}

fn of_call(
    rt: &impl Abort,
    alloc: Global,
    mirror: &mut PlainMirror,
    seat: u64,
    call: &MirrorCall<'_>,
    lines: &mut Vec<u8>,
) -> Answer {
    let step = mirror.step(alloc, Seat::new(seat), call);
    if step.is_ok() {
        if let Some(line) = told(call) {
            lines.push(line).expect(rt, "memory");
        }
    }
    of_step(step)
}

pub(crate) fn failed(rt: &impl Abort, alloc: Global) -> Answer {
    Answer::Failed(format!(in alloc; "no such revision").expect(rt, "memory"))
}

fn revision_of(rt: &impl Abort, alloc: Global, master: &Repo, number: RevNo) -> Answer {
    let (Some(set), Some(props)) = (master.set(number), master.props(number)) else {
        return failed(rt, alloc);
    };
    Answer::Revision(
        set.share(alloc).expect(rt, "memory"),
        props.share().expect(rt, "memory"),
    )
}

fn map_of(rt: &impl Abort, alloc: Global, master: &Repo, number: RevNo) -> Answer {
    match master.props(number) {
        Some(props) => Answer::Map(props.share().expect(rt, "memory")),
        None => failed(rt, alloc),
    }
}

pub(crate) fn of_master(
    rt: &impl Abort,
    alloc: Global,
    master: &Repo,
    identity: &[u8],
    action: &Action<'_>,
) -> Answer {
    match action {
        Action::AskIdentity => Answer::Identity(value(rt, alloc, identity)),
        Action::AskLatest => Answer::Latest(master.head()),
        Action::Fetch(number) => revision_of(rt, alloc, master, *number),
        Action::FetchProps(number) => map_of(rt, alloc, master, *number),
        Action::Call(_) => Answer::Done,
        Action::End => Answer::Done,
    }
}

// The answer to what a job does next; None where that is nothing.
fn next(
    rt: &impl Abort,
    alloc: Global,
    mirror: &mut PlainMirror,
    seat: u64,
    master: &Repo,
    job: &JobState,
    lines: &mut Vec<u8>,
) -> Option<Answer>
    ensures { IfSome result (λ _. deed_in job.now ≢ Ends) }
{
    match &decide(job) {
        Action::End => None,
        Action::Call(call) => Some(of_call(rt, alloc, mirror, seat, call, lines)),
        other => Some(of_master(rt, alloc, master, b"u", other)),
    }
}

// Runs a job for at most so many actions. What it did is told in lines.
fn run(
    rt: &impl Abort,
    alloc: Global,
    mirror: &mut PlainMirror,
    seat: u64,
    master: &Repo,
    job: JobState,
    most: u64,
    lines: &mut Vec<u8>,
) -> JobState {
    let mut job = job;
    for _ in 0..most {
        match next(rt, alloc, mirror, seat, master, &job, lines) {
            Some(answer) => job = absorb(job, answer),
            None => return job,
        }
    }
    job
}

// Runs a job to its end. Each answer brings it nearer, so no bound is needed.
fn finish(
    rt: &impl Abort,
    alloc: Global,
    mirror: &mut PlainMirror,
    seat: u64,
    master: &Repo,
    job: JobState,
    lines: &mut Vec<u8>,
) -> JobState {
    let mut job = job;
    while let Some(answer) = next(rt, alloc, mirror, seat, master, &job, lines) {
        job = absorb(job, answer);
    }
    job
}

// The number of the refusal with which a job ended: 0 where it did what it was to do, and 255 where it goes on.
pub(crate) fn ended(job: JobState) -> u8 {
    let ending = job.ending();
    let number = match &ending {
        None => 255,
        Some(Ending::Fine) => 0,
        Some(Ending::Refused(fault)) => fault.number(),
    };
    drop(ending);
    number
}

fn sync(rt: &impl Abort, alloc: Global, steal: bool) -> JobState {
    JobState::sync(token(rt, alloc, b"job"), steal)
}

// How a sync ends that does at most so many actions.
fn synced(
    rt: &impl Abort,
    alloc: Global,
    mirror: &mut PlainMirror,
    seat: u64,
    master: &Repo,
    steal: bool,
    most: u64,
    lines: &mut Vec<u8>,
) -> u8 {
    let job = sync(rt, alloc, steal);
    ended(run(rt, alloc, mirror, seat, master, job, most, lines))
}

// How a mirror's initialisation ends.
fn initialised(
    rt: &impl Abort,
    alloc: Global,
    mirror: &mut PlainMirror,
    seat: u64,
    master: &Repo,
    lines: &mut Vec<u8>,
) -> u8 {
    let job = JobState::init(value(rt, alloc, b"/master"));
    ended(finish(rt, alloc, mirror, seat, master, job, lines))
}

// A mirror that is initialised.
fn begun(rt: &impl Abort, alloc: Global, master: &Repo) -> PlainMirror {
    let mut mirror = PlainMirror::new(repo(rt, alloc));
    let mut lines = Vec::new(alloc);
    let end = initialised(rt, alloc, &mut mirror, 0, master, &mut lines);
    assert!(rt; end == 0 && lines.as_slice() == b"p".as_slice());
    mirror
}

// The mirror of a master of so many revisions, which is let go of.
fn begun_over(rt: &impl Abort, alloc: Global, count: u16) -> PlainMirror {
    let master = master(rt, alloc, count);
    let mirror = begun(rt, alloc, &master);
    drop(master);
    mirror
}

// Whether a property of a mirror's revision has the value.
fn has(mirror: &PlainMirror, revision: u16, name: &[u8], value: Option<&[u8]>) -> bool {
    match mirror.repo.props(RevNo::new(revision)) {
        None => false,
        Some(props) => props.get(name) == value,
    }
}

// Whether the first revision is copied whole, and nobody has the lock.
fn is_whole(mirror: &PlainMirror) -> bool {
    mirror.repo.head() == RevNo::new(1)
        && has(mirror, 0, b"svn:sync-last-merged-rev", Some(b"1"))
        && has(mirror, 0, b"svn:sync-currently-copying", None)
        && has(mirror, 0, b"svn:sync-lock", None)
}

// Whether, after a sync that stops after so many actions, one that doesn't steal the lock is refused, and one that does
// says these lines and leaves the mirror whole.
fn resumes(rt: &impl Abort, alloc: Global, actions: u64, said: &[u8]) -> bool {
    let master = master(rt, alloc, 1);
    let mut mirror = begun(rt, alloc, &master);
    let mut lines = Vec::new(alloc);
    let _ = synced(
        rt,
        alloc,
        &mut mirror,
        1,
        &master,
        false,
        actions,
        &mut lines,
    );
    mirror.leave(Seat::new(1));
    let held = synced(rt, alloc, &mut mirror, 2, &master, false, 99, &mut lines);
    lines.clear();
    let last = synced(rt, alloc, &mut mirror, 3, &master, true, 99, &mut lines);
    let answer = held == 54 && last == 0 && lines.as_slice() == said && is_whole(&mirror);
    drop((master, mirror));
    answer
}

#[test]
fn a_sync_goes_on_where_another_stopped(rt: HostRuntime) {
    let alloc = rt.alloc();
    assert!(rt; resumes(&rt, alloc, 5, b"cp"));
    assert!(rt; resumes(&rt, alloc, 7, b"p"));
    assert!(rt; resumes(&rt, alloc, 10, b""));
}

// Whether an initialised mirror has the copied properties and its own, and no other.
fn has_own_names(rt: &impl Abort, alloc: Global) -> bool {
    let mirror = begun_over(rt, alloc, 1);
    let answer = has(&mirror, 0, b"svn:date", Some(b"d"))
        && has(&mirror, 0, b"svn:sync-lock", None)
        && has(&mirror, 0, b"svn:sync-from-url", Some(b"/master"))
        && has(&mirror, 0, b"svn:sync-from-uuid", Some(b"u"))
        && has(&mirror, 0, b"svn:sync-last-merged-rev", Some(b"0"));
    drop(mirror);
    answer
}

#[test]
fn sync_names_are_not_copied(rt: HostRuntime) {
    let alloc = rt.alloc();
    assert!(rt; has_own_names(&rt, alloc));
}

// A mirror whose head and last merged revision is 3.
fn at_three(rt: &impl Abort, alloc: Global) -> PlainMirror {
    let mut mirror = begun_over(rt, alloc, 0);
    let mut lines = Vec::new(alloc);
    let three = master(rt, alloc, 3);
    let end = synced(rt, alloc, &mut mirror, 1, &three, false, 99, &mut lines);
    assert!(rt; end == 0);
    mirror
}

// Whether the calls in and out of turn of its holder, seat 1, and of another seat are answered so.
fn takes_turns(rt: &impl Abort, alloc: Global, mirror: &mut PlainMirror, token: &Token) -> bool {
    let props = Props::empty();
    let four = RevNo::new(4);
    let five = RevNo::new(5);
    let put = MirrorCall::PutProps {
        number: four,
        props: &props,
    };
    let answer = say(alloc, mirror, 1, &MirrorCall::TakeLock(token)) == 0
        && say(alloc, mirror, 1, &MirrorCall::SetCopying(five)) == 61
        && say(alloc, mirror, 2, &MirrorCall::SetCopying(five)) == 59
        && say(alloc, mirror, 1, &MirrorCall::SetCopying(four)) == 0
        && has(mirror, 0, b"svn:sync-currently-copying", Some(b"4"))
        && say(alloc, mirror, 1, &put) == 61;
    drop(props);
    answer
}

// Whether the lock may be stolen once the holder has left, and not before.
fn is_stolen_once_left(
    rt: &impl Abort,
    alloc: Global,
    mirror: &mut PlainMirror,
    token: &Token,
) -> bool {
    let props = Props::empty();
    let url = value(rt, alloc, b"/master");
    let init = MirrorCall::Init {
        url: &url,
        uuid: &url,
        props: &props,
    };
    let steal = MirrorCall::StealLock(token);
    let before = say(alloc, mirror, 2, &steal);
    mirror.leave(Seat::new(1));
    let answer = before == 55
        && say(alloc, mirror, 2, &steal) == 0
        && say(alloc, mirror, 2, &init) == 52;
    drop((props, url));
    answer
}

#[test]
fn calls_in_and_out_of_turn(rt: HostRuntime) {
    let alloc = rt.alloc();
    let mut mirror = at_three(&rt, alloc);
    let token = token(&rt, alloc, b"job");
    assert!(rt; takes_turns(&rt, alloc, &mut mirror, &token));
    assert!(rt; is_stolen_once_left(&rt, alloc, &mut mirror, &token));
    drop(mirror);
}

// Whether the job has ended with 57 and that text.
fn is_inconsistent(rt: &impl Abort, alloc: Global, job: JobState, text: &str) -> bool {
    let ending = job.ending();
    let is_told = match &ending {
        Some(Ending::Refused(fault)) => fault.number() == 57 && says(rt, alloc, fault, text),
        _ => false,
    };
    drop(ending);
    is_told
}

// Whether a refusal has that text.
fn says(rt: &impl Abort, alloc: Global, fault: &SyncFault, text: &str) -> bool {
    let own = format!(in alloc; "{fault}").expect(rt, "memory");
    own.as_str() == text
}

// How a mirror stands whose properties say so.
fn standing(
    rt: &impl Abort,
    alloc: Global,
    merged: &[u8],
    copying: Option<&[u8]>,
    head: u16,
) -> Standing {
    let mut own = one_prop(rt, alloc, b"svn:sync-from-url", b"/master");
    set(rt, alloc, &mut own, b"svn:sync-from-uuid", b"u");
    set(rt, alloc, &mut own, b"svn:sync-last-merged-rev", merged);
    if let Some(copying) = copying {
        set(rt, alloc, &mut own, b"svn:sync-currently-copying", copying);
    }
    look(alloc, &own, RevNo::new(head)).expect(rt, "memory")
}

// Whether a sync job ends with that text as soon as it has seen such a mirror.
fn fits_no_shape(
    rt: &impl Abort,
    alloc: Global,
    merged: &[u8],
    copying: Option<&[u8]>,
    head: u16,
    text: &str,
) -> bool {
    let standing = standing(rt, alloc, merged, copying, head);
    let job = absorb(sync(rt, alloc, false), Answer::Done);
    let job = absorb(absorb(job, Answer::Seen(standing)), Answer::Done);
    is_inconsistent(rt, alloc, job, text)
}

// The merged number of a mirror, the one that is being copied, the head, and the text that a sync then ends with.
type Shape<'a> = (&'a [u8], Option<&'a [u8]>, u16, &'a str);

// The text of the first of these with which a sync doesn't end.
fn other_shape<'a>(rt: &impl Abort, alloc: Global, shapes: &'a [Shape<'a>]) -> Option<&'a str> {
    for (merged, copying, head, text) in shapes {
        if !fits_no_shape(rt, alloc, *merged, *copying, *head, *text) {
            return Some(*text);
        }
    }
    None
}

const SHAPELESS: [Shape<'static>; 3] = [
    (
        b"3",
        Some(b"5"),
        3,
        "inconsistent: merged 3, copying 5, head 3",
    ),
    (b"07", None, 7, "inconsistent: merged -, copying -, head 7"),
    (
        b"99999",
        None,
        7,
        "inconsistent: merged 99999, copying -, head 7",
    ),
];

#[test]
fn numbers_that_fit_no_shape(rt: HostRuntime) {
    none_is_wrong(&rt, other_shape(&rt, rt.alloc(), &SHAPELESS));
}

const PAST_THE_GREATEST: [Shape<'static>; 1] = [(
    b"18446744073709551615",
    Some(b"18446744073709551616"),
    7,
    "inconsistent: merged 18446744073709551615, copying 18446744073709551616, head 7",
)];

#[test]
fn numbers_past_the_greatest(rt: HostRuntime) {
    none_is_wrong(&rt, other_shape(&rt, rt.alloc(), &PAST_THE_GREATEST));
}

// Whether a refusal has that number and that text, and so has the line of the program that it becomes.
fn is_told(rt: &impl Abort, alloc: Global, fault: &SyncFault, number: u8, text: &str) -> bool {
    fault.number() == number
        && says(rt, alloc, fault, text)
        && is_lined(rt, alloc, fault, number, text)
        && is_refusal(rt, alloc, &as_refusal(rt, alloc, fault), number, text)
}

// The same of one that is let go of.
fn tells(rt: &impl Abort, alloc: Global, fault: SyncFault, number: u8, text: &str) -> bool {
    let answer = is_told(rt, alloc, &fault, number, text);
    drop(fault);
    answer
}

// The refusal of the table that it becomes.
fn as_refusal(rt: &impl Abort, alloc: Global, fault: &SyncFault) -> Refusal {
    Refusal::from(fault.copy(alloc).expect(rt, "memory"))
}

// Whether the line that a program prints for it says so.
fn is_lined(rt: &impl Abort, alloc: Global, fault: &SyncFault, number: u8, text: &str) -> bool {
    let line = fault.line(alloc).expect(rt, "memory");
    let due = format!(in alloc; "svnfleet: {number} {text}\n").expect(rt, "memory");
    line.as_str() == due.as_str()
}

// Whether a refusal of the table has that number and that text.
fn is_refusal(rt: &impl Abort, alloc: Global, refusal: &Refusal, number: u8, text: &str) -> bool {
    let told = format!(in alloc; "{refusal}").expect(rt, "memory");
    refusal.number() == number && told.as_str() == text
}

// Refusals of calls whose need isn't met, and with which a job ends.
const TOLD: [(SyncFault, u8, &str); 8] = [
    (SyncFault::NotInitialised, 51, "not initialized"),
    (SyncFault::AlreadyInitialised, 52, "already initialized"),
    (SyncFault::NotEmpty, 53, "the mirror has revisions"),
    (SyncFault::NotHolder, 59, "the sync lock is not held"),
    (SyncFault::OutOfTurn, 61, "call out of turn"),
    (
        SyncFault::WrongMaster,
        56,
        "the source is another repository",
    ),
    (SyncFault::Other(Refusal::Full), 23, "no more revisions"),
    (SyncFault::OutOfMemory, 70, "out of memory"),
];

// The text of the first of these that is told otherwise.
fn other_told(rt: &impl Abort, alloc: Global) -> Option<&'static str> {
    for (fault, number, text) in &TOLD {
        if !is_told(rt, alloc, fault, *number, *text) {
            return Some(*text);
        }
    }
    None
}

// A token in a refusal.
fn lock_token(rt: &impl Abort, alloc: Global, text: &[u8]) -> LockToken {
    LockToken {
        bytes: Vec::from_slice(alloc, text).expect(rt, "memory"),
    }
}

// One that names a token.
fn tokens_are_told(rt: &impl Abort, alloc: Global) -> bool {
    let held = SyncFault::LockHeld(lock_token(rt, alloc, b"job"));
    let is_held = tells(rt, alloc, held, 54, "the sync lock is held by job");
    let running = SyncFault::HolderRunning(lock_token(rt, alloc, b"a"));
    tells(rt, alloc, running, 55, "the holder a is running") && is_held
}

// What a master's failure is told as.
fn master_failed(rt: &impl Abort, alloc: Global) -> SyncFault {
    SyncFault::MasterFailed(format!(in alloc; "refused").expect(rt, "memory"))
}

// One with which a job ends.
fn ends_are_told(rt: &impl Abort, alloc: Global) -> bool {
    let later = SyncFault::NotYetCopied(RevNo::new(5));
    let is_later = tells(rt, alloc, later, 58, "revision 5 is not copied yet");
    let failed = master_failed(rt, alloc);
    tells(rt, alloc, failed, 60, "master: refused") && is_later
}

// One that tells a mirror's numbers.
fn numbers_are_told(
    rt: &impl Abort,
    alloc: Global,
    merged: ToldNumber,
    copying: ToldNumber,
    head: u16,
    text: &str,
) -> bool {
    let fault = SyncFault::Inconsistent {
        merged,
        copying,
        head: RevNo::new(head),
    };
    tells(rt, alloc, fault, 57, text)
}

fn inconsistencies_are_told(rt: &impl Abort, alloc: Global) -> bool {
    let three = ToldNumber::Spelt(3);
    let five = ToldNumber::Spelt(5);
    let apart = "inconsistent: merged 3, copying 5, head 3";
    let none = "inconsistent: merged -, copying -, head 7";
    numbers_are_told(rt, alloc, three, five, 3, apart)
        && numbers_are_told(rt, alloc, ToldNumber::Missing, ToldNumber::Missing, 7, none)
}

#[test]
fn refusals_are_told_as_the_table_has_them(rt: HostRuntime) {
    let alloc = rt.alloc();
    none_is_wrong(&rt, other_told(&rt, alloc));
    assert!(rt; tokens_are_told(&rt, alloc));
    assert!(rt; ends_are_told(&rt, alloc));
    assert!(rt; inconsistencies_are_told(&rt, alloc));
}

// Whether a job that copies properties of a range of an edited master ends so and says these lines, and whether the
// mirror has the edit then.
fn copies(rt: &impl Abort, alloc: Global, low: u16, high: u16, end: u8, said: &[u8]) -> bool {
    let mut four = master(rt, alloc, 4);
    let mut mirror = begun(rt, alloc, &four);
    let mut lines = Vec::new(alloc);
    let first = synced(rt, alloc, &mut mirror, 1, &four, false, 99, &mut lines);
    assert!(rt; first == 0 && lines.as_slice() == b"cpcpcpcp".as_slice());
    let two = one_prop(rt, alloc, b"svn:log", b"two");
    four.put_props(RevNo::new(2), two).expect(rt, "properties");
    lines.clear();
    let job = JobState::copy_props(token(rt, alloc, b"job"), RevNo::new(low), RevNo::new(high));
    let job = finish(rt, alloc, &mut mirror, 2, &four, job, &mut lines);
    let answer = ended(job) == end
        && lines.as_slice() == said
        && has(&mirror, 2, b"svn:log", Some(b"two")) == (end == 0);
    drop((four, mirror));
    answer
}

#[test]
fn properties_are_copied_again(rt: HostRuntime) {
    let alloc = rt.alloc();
    assert!(rt; copies(&rt, alloc, 5, 5, 58, b""));
    assert!(rt; copies(&rt, alloc, 0, 4, 0, b"ppppp"));
}

// How a sync of another mirror's master ends.
fn wrong_master(rt: &impl Abort, alloc: Global) -> u8 {
    let job = absorb(sync(rt, alloc, false), Answer::Done);
    let seen = Answer::Seen(standing(rt, alloc, b"0", None, 0));
    let job = absorb(absorb(job, seen), Answer::Identity(value(rt, alloc, b"U")));
    ended(absorb(job, Answer::Done))
}

// How an init of a mirror that is one already ends.
fn again(rt: &impl Abort, alloc: Global) -> u8 {
    let master = master(rt, alloc, 1);
    let mut mirror = begun(rt, alloc, &master);
    let mut lines = Vec::new(alloc);
    let answer = initialised(rt, alloc, &mut mirror, 2, &master, &mut lines);
    drop((master, mirror));
    answer
}

// Whether an init and a sync of a repository with revisions end with 53 and 51.
fn is_no_mirror(rt: &impl Abort, alloc: Global) -> bool {
    let mut full = PlainMirror::new(master(rt, alloc, 1));
    let zero = repo(rt, alloc);
    let mut lines = Vec::new(alloc);
    let init = initialised(rt, alloc, &mut full, 3, &zero, &mut lines);
    let sync = synced(rt, alloc, &mut full, 4, &zero, false, 9, &mut lines);
    let answer = init == 53 && sync == 51;
    drop((full, zero));
    answer
}

#[test]
fn jobs_that_are_refused(rt: HostRuntime) {
    let alloc = rt.alloc();
    assert!(rt; wrong_master(&rt, alloc) == 56);
    assert!(rt; again(&rt, alloc) == 52);
    assert!(rt; is_no_mirror(&rt, alloc));
}

// Whether a call of a seat is refused with that text.
fn is_told_of(
    rt: &impl Abort,
    alloc: Global,
    mirror: &mut PlainMirror,
    seat: u64,
    call: &MirrorCall<'_>,
    text: &str,
) -> bool {
    let answer = of_step(mirror.step(alloc, Seat::new(seat), call));
    let is_told = says_so(rt, alloc, &answer, text);
    drop(answer);
    is_told
}

// Whether an answer is a refusal with that text.
fn says_so(rt: &impl Abort, alloc: Global, answer: &Answer, text: &str) -> bool {
    match answer {
        Answer::Refused(fault) => says(rt, alloc, fault, text),
        _ => false,
    }
}

// A mirror whose lock has that text.
fn locked(rt: &impl Abort, alloc: Global, lock: &[u8]) -> PlainMirror {
    let mut own = one_prop(rt, alloc, b"svn:sync-from-url", b"/master");
    set(rt, alloc, &mut own, b"svn:sync-lock", lock);
    let mut repo = repo(rt, alloc);
    repo.put_props(RevNo::ZERO, own).expect(rt, "properties");
    PlainMirror::new(repo)
}

// Whether a seat that wants the lock of such a mirror is told so.
fn is_told_of_lock(rt: &impl Abort, alloc: Global, lock: &[u8], text: &str) -> bool {
    let mut mirror = locked(rt, alloc, lock);
    let token = token(rt, alloc, b"other");
    let take = MirrorCall::TakeLock(&token);
    let answer = is_told_of(rt, alloc, &mut mirror, 1, &take, text);
    drop(mirror);
    answer
}

#[test]
fn a_lock_is_told_with_its_token(rt: HostRuntime) {
    let alloc = rt.alloc();
    assert!(rt; is_told_of_lock(&rt, alloc, b"job", "the sync lock is held by job"));
    let odd = "the sync lock is held by a b??c?";
    assert!(rt; is_told_of_lock(&rt, alloc, b"a b\x01\xFFc\n", odd));
}

// Whether a seat that wants to steal the lock is told so.
fn is_told_of_steal(rt: &impl Abort, alloc: Global, mirror: &mut PlainMirror, text: &str) -> bool {
    let own = token(rt, alloc, b"b");
    is_told_of(rt, alloc, mirror, 2, &MirrorCall::StealLock(&own), text)
}

// Takes the mirror's lock away.
fn unlock(rt: &impl Abort, alloc: Global, mirror: &mut PlainMirror) {
    let url = one_prop(rt, alloc, b"svn:sync-from-url", b"/master");
    mirror
        .repo
        .put_props(RevNo::ZERO, url)
        .expect(rt, "properties");
}

// Whether a seat takes the lock of a mirror.
fn takes(rt: &impl Abort, alloc: Global, mirror: &mut PlainMirror) -> bool {
    let own = token(rt, alloc, b"a");
    say(alloc, mirror, 1, &MirrorCall::TakeLock(&own)) == 0
}

// The lock has the running holder's token, and then is taken away.
#[test]
fn a_running_holder_is_told_with_its_token(rt: HostRuntime) {
    let alloc = rt.alloc();
    let mut mirror = begun_over(&rt, alloc, 0);
    assert!(rt; takes(&rt, alloc, &mut mirror));
    assert!(rt; is_told_of_steal(&rt, alloc, &mut mirror, "the holder a is running"));
    unlock(&rt, alloc, &mut mirror);
    assert!(rt; is_told_of_steal(&rt, alloc, &mut mirror, "the holder  is running"));
    drop(mirror);
}

// Whether a sync with a master that has fewer revisions than its mirror ends well, and copies nothing.
fn stays_ahead(rt: &impl Abort, alloc: Global) -> bool {
    let two = master(rt, alloc, 2);
    let mut mirror = begun(rt, alloc, &two);
    let mut lines = Vec::new(alloc);
    let first = synced(rt, alloc, &mut mirror, 1, &two, false, 99, &mut lines);
    lines.clear();
    let one = master(rt, alloc, 1);
    let again = synced(rt, alloc, &mut mirror, 2, &one, false, 99, &mut lines);
    let answer = first == 0
        && again == 0
        && lines.as_slice() == b"".as_slice()
        && mirror.repo.head() == RevNo::new(2);
    drop((two, mirror, one));
    answer
}

#[test]
fn a_master_that_is_behind_changes_nothing(rt: HostRuntime) {
    let alloc = rt.alloc();
    assert!(rt; stays_ahead(&rt, alloc));
}

// Whether a sync of a mirror whose last revision is merged, and that notes the number after it, which no revision has,
// is told these numbers. By them the mirror is copying.
fn ends_past_the_last(rt: &impl Abort, alloc: Global, text: &str) -> bool {
    let last = RevNo::new(65535);
    let standing = standing(rt, alloc, b"65535", Some(b"65536"), 65535);
    let shape = shape_of(standing.merged, standing.copying, last);
    let job = absorb(sync(rt, alloc, false), Answer::Done);
    let job = absorb(
        absorb(job, Answer::Seen(standing)),
        Answer::Identity(value(rt, alloc, b"u")),
    );
    let job = absorb(absorb(job, Answer::Latest(last)), Answer::Done);
    let is_told = is_inconsistent(rt, alloc, job, text);
    is_told && shape == Some(Resting::Copying(65536))
}

#[test]
fn no_revision_is_copied_past_the_last(rt: HostRuntime) {
    let alloc = rt.alloc();
    let text = "inconsistent: merged 65535, copying 65536, head 65535";
    assert!(rt; ends_past_the_last(&rt, alloc, text));
}

// Whether a call takes the lock with this token.
fn takes_lock(call: &MirrorCall<'_>, text: &[u8]) -> bool {
    match call {
        MirrorCall::TakeLock(own) => own.as_bytes() == text,
        _ => false,
    }
}

// Whether the copy of a call that was kept does.
fn copy_takes_lock(rt: &impl Abort, alloc: Global, kept: &KeptCall, text: &[u8]) -> bool {
    let copy = kept.copy(alloc).expect(rt, "memory");
    let takes = takes_lock(&copy.lent(), text);
    drop(copy);
    takes
}

// Whether a call that was kept and copied still takes the lock with its token.
fn locks_with(rt: &impl Abort, alloc: Global, text: &[u8]) -> bool {
    let token = token(rt, alloc, text);
    let kept = KeptCall::of(alloc, &MirrorCall::TakeLock(&token)).expect(rt, "memory");
    let answer = copy_takes_lock(rt, alloc, &kept, text);
    drop(kept);
    answer
}

// Whether one that puts properties still does.
fn puts(rt: &impl Abort, alloc: Global, number: RevNo, log: &[u8]) -> bool {
    let props = one_prop(rt, alloc, b"svn:log", log);
    let call = MirrorCall::PutProps {
        number,
        props: &props,
    };
    let kept = KeptCall::of(alloc, &call).expect(rt, "memory");
    let answer = puts_log(&kept.lent(), number, log);
    drop((props, kept));
    answer
}

// Whether a call puts properties of a revision that have this log.
fn puts_log(call: &MirrorCall<'_>, number: RevNo, log: &[u8]) -> bool {
    match call {
        MirrorCall::PutProps { number: n, props } => {
            *n == number && props.get(b"svn:log") == Some(log)
        }
        _ => false,
    }
}

// Whether an answer is a refusal that is told so.
fn refuses_so(rt: &impl Abort, alloc: Global, answer: &Answer, number: u8, text: &str) -> bool {
    match answer {
        Answer::Refused(fault) => is_told(rt, alloc, fault, number, text),
        _ => false,
    }
}

// Whether a refusal that was copied is told alike.
fn is_copied(rt: &impl Abort, alloc: Global, fault: SyncFault, number: u8, text: &str) -> bool {
    let answer = Answer::Refused(fault);
    let copy = answer.copy(alloc).expect(rt, "memory");
    let is_told = refuses_so(rt, alloc, &copy, number, text);
    drop(answer);
    drop(copy);
    is_told
}

fn refusals_are_copied(rt: &impl Abort, alloc: Global) -> bool {
    let held = SyncFault::LockHeld(lock_token(rt, alloc, b"job"));
    let failed = master_failed(rt, alloc);
    let behind = SyncFault::Other(Refusal::Behind(RevNo::new(3)));
    let is_held = is_copied(rt, alloc, held, 54, "the sync lock is held by job");
    let is_failed = is_copied(rt, alloc, failed, 60, "master: refused");
    is_copied(rt, alloc, behind, 25, "the base is not the head 3") && is_held && is_failed
}

#[test]
fn calls_and_answers_are_copied(rt: HostRuntime) {
    let alloc = rt.alloc();
    assert!(rt; locks_with(&rt, alloc, b"job"));
    assert!(rt; puts(&rt, alloc, RevNo::new(4), b"four"));
    assert!(rt; refusals_are_copied(&rt, alloc));
}

// The number of a plan's refusal: 0 where it is an entry's, and 255 where it is a look's.
fn number_planned(plan: &Result<Planned, SyncFault>) -> u8 {
    match plan {
        Ok(Planned::Write(_)) => 0,
        Ok(Planned::Tell(_)) => 255,
        Err(fault) => fault.number(),
    }
}

// The same of the plan of a call.
fn planned(alloc: Global, mirror: &PlainMirror, seat: u64, call: &MirrorCall<'_>) -> u8 {
    let planned = plan(alloc, &mirror.repo, mirror.holder, Seat::new(seat), call);
    let number = number_planned(&planned);
    drop(planned);
    number
}

// Whether calls are planned before and after a seat takes the lock.
fn is_planned(rt: &impl Abort, alloc: Global, mirror: &mut PlainMirror, token: &Token) -> bool {
    let props = Props::empty();
    let url = value(rt, alloc, b"/master");
    let init = MirrorCall::Init {
        url: &url,
        uuid: &url,
        props: &props,
    };
    let take = MirrorCall::TakeLock(token);
    let answer = planned(alloc, mirror, 1, &take) == 0
        && planned(alloc, mirror, 1, &MirrorCall::Look) == 255
        && planned(alloc, mirror, 1, &init) == 52
        && say(alloc, mirror, 1, &take) == 0
        && planned(alloc, mirror, 2, &take) == 54
        && planned(alloc, mirror, 2, &MirrorCall::ReleaseLock) == 59;
    drop((props, url));
    answer
}

#[test]
fn calls_are_planned(rt: HostRuntime) {
    let alloc = rt.alloc();
    let mut mirror = begun_over(&rt, alloc, 0);
    let own = token(&rt, alloc, b"a");
    assert!(rt; is_planned(&rt, alloc, &mut mirror, &own));
    drop(mirror);
}

// Whether the numbers are these.
fn are(numbers: Numbers, merged: u64, copying: Number, head: u16) -> bool {
    numbers.merged == Number::Spelt(merged)
        && numbers.copying == copying
        && numbers.head == RevNo::new(head)
}

fn at_head_three(copying: Number) -> Numbers {
    Numbers {
        merged: Number::Spelt(3),
        copying,
        head: RevNo::new(3),
    }
}

fn numbers_move(rt: &impl Abort, alloc: Global) -> bool {
    let props = Props::empty();
    let url = value(rt, alloc, b"/master");
    let init = MirrorCall::Init {
        url: &url,
        uuid: &url,
        props: &props,
    };
    let four = RevNo::new(4);
    let begun = at_head_three(Number::Spelt(4)).after(&init);
    let noted = at_head_three(Number::Absent).after(&MirrorCall::SetCopying(four));
    let merged = at_head_three(Number::Spelt(4)).after(&MirrorCall::SetMerged(four));
    let cleared = at_head_three(Number::Spelt(4)).after(&MirrorCall::ClearCopying);
    let answer = are(begun, 0, Number::Absent, 3)
        && are(noted, 3, Number::Spelt(4), 3)
        && are(merged, 4, Number::Spelt(4), 3)
        && are(cleared, 3, Number::Absent, 3);
    drop((props, url));
    answer
}

fn holders_leave() -> bool {
    let one = Seat::new(1);
    holder_left(Some(one), Seat::new(2)) == Some(one) && holder_left(Some(one), one) == None
}

#[test]
fn calls_move_numbers(rt: HostRuntime) {
    assert!(rt; numbers_move(&rt, rt.alloc()));
    assert!(rt; holders_leave());
}
