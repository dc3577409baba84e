//! A walk of random events over a master, two mirrors and their jobs in memory, beside their plain re-computation: the
//! master commits, is edited and fails, jobs begin, ask, call, are refused and leave, a reader is given a revision, and
//! a mirror stops before or within a call.
use crate::plain_world::{Deed, Heard, Order, PlainMaster, PlainRoom, is_call, wanted};
use crate::tests::{
    ended, failed, none_is_wrong, number_of, of_master, of_step, one_prop, repo, token, value,
};
use crate::walk_tests::shuffled;
use dump_load::{Change, ChangeSet};
use node_base::{Action as What, NodeKind, NodePath, Props, RevNo, Text};
use repo_core::Repo;
use std::alloc::Global;
use std::mem::swap;
use std::process::Abort;
use sync_core::{
    Action, Answer, JobState, MirrorCall, PlainMirror, Seat, Standing, SyncFault, absorb, decide,
    look,
};

// A job, and what was answered to it.
#[derive(Drop)]
struct Runner {
    job: JobState,
    heard: Heard,
}

// What came about in a walk, and whether all of it was as re-computed.
#[derive(Drop)]
struct Counts {
    wrong: bool,
    fine: u64,
    refused: u64,
    failed: u64,
    read: u64,
    within: u64,
    stolen: u64,
    copied: u64,
}

// What keeps a job from its answer: nothing, want of memory, or a master that fails where it is asked.
#[derive(Clone, Copy, PartialEq, Eq)]
enum Mishap {
    None,
    Memory,
    Master,
}

// A mirror, and its re-computation.
#[derive(Drop)]
struct Place {
    mirror: PlainMirror,
    room: PlainRoom,
}

// The master, the mirror at which the present event happens, and the other one.
#[derive(Drop)]
struct World {
    master: Repo,
    mirror: PlainMirror,
    origin: PlainMaster,
    room: PlainRoom,
    other: Place,
    counts: Counts,
}

fn deed_of_call(call: &MirrorCall<'_>) -> Deed {
    match call {
        MirrorCall::Init { .. } => Deed::Init,
        MirrorCall::TakeLock(_) => Deed::Take,
        MirrorCall::StealLock(_) => Deed::Steal,
        MirrorCall::ReleaseLock => Deed::Release,
        MirrorCall::SetCopying(n) => Deed::SetCopying(n.get()),
        MirrorCall::Commit { number, .. } => Deed::Commit(number.get()),
        MirrorCall::PutProps { number, .. } => Deed::Put(number.get()),
        MirrorCall::SetMerged(n) => Deed::Merge(n.get()),
        MirrorCall::ClearCopying => Deed::Clear,
        MirrorCall::Look => Deed::Look,
    }
}

// The digits of a moment.
fn digits(rt: &impl Abort, alloc: Global, moment: u64) -> Vec<u8> {
    let text = format!(in alloc; "{moment}").expect(rt, "memory");
    Vec::from_slice(alloc, text.as_str().as_bytes()).expect(rt, "memory")
}

// Properties with the digits of a moment.
fn marked(rt: &impl Abort, alloc: Global, moment: u64) -> Props {
    one_prop(rt, alloc, b"p", digits(rt, alloc, moment).as_slice())
}

fn path(rt: &impl Abort, alloc: Global) -> NodePath {
    NodePath::parse(alloc, b"f").expect(rt, "a path")
}

// One file gets the digits of a moment.
fn change(rt: &impl Abort, alloc: Global, action: What, moment: u64) -> ChangeSet {
    let mut changes = Vec::new(alloc);
    let change = Change {
        path: path(rt, alloc),
        action,
        kind: Some(NodeKind::File),
        source: None,
        props: Some(Props::empty()),
        text: Some(Text::new(alloc, digits(rt, alloc, moment)).expect(rt, "memory")),
    };
    changes.push(change).expect(rt, "memory");
    ChangeSet::from_changes(changes).expect(rt, "a normal set")
}

impl World {
    // What happens next happens at the other mirror.
    fn turns(&mut self) {
        swap(&mut self.mirror, &mut self.other.mirror);
        swap(&mut self.room, &mut self.other.room);
    }

    fn master_commits(&mut self, rt: &impl Abort, alloc: Global) {
        let moment = self.origin.moment.saturating_add(1);
        let head = self.master.head();
        let action = if head == RevNo::ZERO {
            What::Add
        } else {
            What::Modify
        };
        let set = change(rt, alloc, action, moment);
        let props = marked(rt, alloc, moment);
        self.master
            .commit(alloc, head, set, props, None)
            .expect(rt, "a commit");
        self.origin.moment = moment;
        self.origin.texts.push(moment).expect(rt, "memory");
        self.origin.marks.push(moment).expect(rt, "memory");
    }

    fn master_is_edited(&mut self, rt: &impl Abort, alloc: Global, n: u16) {
        let moment = self.origin.moment.saturating_add(1);
        let number = RevNo::new(n);
        self.master
            .put_props(number, marked(rt, alloc, moment))
            .expect(rt, "properties");
        self.origin.moment = moment;
        if let Some(mark) = self.origin.marks.get_mut(usize::from(n)) {
            *mark = moment;
        }
    }

    // The answer to what a job does; with want of memory nothing is done.
    fn answer(
        &mut self,
        rt: &impl Abort,
        alloc: Global,
        seat: u64,
        job: &JobState,
        mishap: Mishap,
    ) -> Answer {
        if mishap == Mishap::Memory {
            return Answer::Refused(SyncFault::OutOfMemory);
        }
        match &decide(job) {
            Action::Call(call) => of_step(self.mirror.step(alloc, Seat::new(seat), call)),
            other => {
                if mishap == Mishap::Master {
                    return failed(rt, alloc);
                }
                of_master(rt, alloc, &self.master, b"u", other)
            }
        }
    }

    // What the answer should be, with what it makes of the mirror.
    fn expected(
        &mut self,
        rt: &impl Abort,
        seat: u64,
        heard: &Heard,
        deed: Deed,
        mishap: Mishap,
    ) -> u8 {
        if mishap == Mishap::Memory {
            return 70;
        }
        if !is_call(deed) {
            return if mishap == Mishap::Master { 60 } else { 0 };
        }
        let number = self.room.answer(deed);
        if number == 0 {
            let mark = heard.fetched.unwrap_or(0);
            let fits = self.room.does(rt, seat, deed, mark);
            self.check(fits);
        }
        number
    }

    fn check(&mut self, as_wanted: bool) {
        if !as_wanted {
            self.counts.wrong = true;
        }
    }

    fn acknowledges(&mut self, deed: Deed) {
        match deed {
            Deed::Commit(n) => self.room.acknowledged = n,
            Deed::Steal => self.counts.stolen = self.counts.stolen.saturating_add(1),
            Deed::Put(n) => {
                if n < self.room.merged {
                    self.counts.copied = self.counts.copied.saturating_add(1);
                }
            }
            _ => {}
        }
    }

    // One action of a job with its answer.
    fn step(
        &mut self,
        rt: &impl Abort,
        alloc: Global,
        seat: u64,
        runner: Runner,
        mishap: Mishap,
    ) -> Runner {
        let Runner { job, mut heard } = runner;
        let deed = deed_next(&job);
        let as_wanted = deed == wanted(&heard, &self.room);
        self.check(as_wanted);
        let answer = self.answer(rt, alloc, seat, &job, mishap);
        let number = number_of(&answer);
        let expected = self.expected(rt, seat, &heard, deed, mishap);
        self.check(number == expected);
        self.hears(&mut heard, deed, number);
        Runner {
            job: absorb(job, answer),
            heard,
        }
    }

    // What is noted of an answer.
    fn hears(&mut self, heard: &mut Heard, deed: Deed, number: u8) {
        if number == 60 {
            self.counts.failed = self.counts.failed.saturating_add(1);
        }
        if number == 0 {
            heard.answered(deed, &self.origin, &self.room);
            self.acknowledges(deed);
        } else {
            heard.refused(deed, number);
        }
    }

    // A job that has ended leaves. Its end is its first refusal.
    fn leaves(&mut self, seat: u64, runner: Runner) {
        let Runner { job, heard } = runner;
        let end = ended(job);
        if heard.over {
            self.check(end == heard.refusal);
            if heard.refusal == 0 {
                self.counts.fine = self.counts.fine.saturating_add(1);
            } else {
                self.counts.refused = self.counts.refused.saturating_add(1);
            }
        }
        self.mirror.leave(Seat::new(seat));
        if self.room.holder == Some(seat) {
            self.room.holder = None;
        }
    }

    // A call that stands, though nobody is answered; a question makes nothing.
    fn calls_unheard(&mut self, rt: &impl Abort, alloc: Global, seat: u64, runner: &Runner) {
        let deed = deed_next(&runner.job);
        if !is_call(deed) {
            return;
        }
        let answer = self.answer(rt, alloc, seat, &runner.job, Mishap::None);
        let number = number_of(&answer);
        drop(answer);
        let expected = self.expected(rt, seat, &runner.heard, deed, Mishap::None);
        self.check(number == expected);
        self.counts.within = self.counts.within.saturating_add(1);
    }

    // A reader is given a revision: the master's tree, and properties as they were copied.
    fn is_read(&mut self, rt: &impl Abort, alloc: Global, n: u16) {
        let given = self.mirror.repo.tree(RevNo::new(n)).is_some() && self.shows(rt, alloc, n);
        self.check(given);
        if self.room.shown < n {
            self.room.shown = n;
        }
        self.counts.read = self.counts.read.saturating_add(1);
    }

    // The mirror stops and is opened again. A call that is in flight may stand, though nobody is answered.
    fn stops(
        &mut self,
        rt: &impl Abort,
        alloc: Global,
        seat: u64,
        runner: &Option<Runner>,
        within: bool,
    ) {
        if within {
            if let Some(runner) = runner {
                self.calls_unheard(rt, alloc, seat, runner);
            }
        }
        self.mirror.holder = None;
        self.room.holder = None;
    }

    // Whether the mirror stands as the re-computation says, with all that was acknowledged or shown, and a revision has
    // the master's tree, and properties as they were copied.
    fn agrees(&self, rt: &impl Abort, alloc: Global, n: u16) -> bool {
        let Some(own) = self.mirror.repo.props(RevNo::ZERO) else {
            return false;
        };
        let standing = look(alloc, own, self.mirror.repo.head()).expect(rt, "memory");
        self.stands(&standing) && self.shows(rt, alloc, n)
    }

    fn stands(&self, standing: &Standing) -> bool {
        let room = &self.room;
        let merged = if room.begun {
            Some(u64::from(room.merged))
        } else {
            None
        };
        standing.url.is_some() == room.begun
            && standing.head.get() == room.head()
            && standing.lock.is_some() == room.locked
            && standing.merged.spelt() == merged
            && standing.copying.spelt() == room.copying.map(u64::from)
            && self.mirror.holder == room.holder.map(Seat::new)
            && room.acknowledged <= standing.head.get()
            && room.shown <= standing.head.get()
    }

    // Whether a revision of the mirror has the master's text, and properties as they were copied.
    fn shows(&self, rt: &impl Abort, alloc: Global, n: u16) -> bool {
        if !self.room.begun {
            return true;
        }
        self.has_mark(rt, alloc, n) && (n == 0 || self.has_text(rt, alloc, n))
    }

    fn has_mark(&self, rt: &impl Abort, alloc: Global, n: u16) -> bool {
        match (
            self.mirror.repo.props(RevNo::new(n)),
            self.room.copies.get(usize::from(n)),
        ) {
            (Some(props), Some(mark)) => {
                let wanted = digits(rt, alloc, *mark);
                props.get(b"p") == Some(wanted.as_slice())
            }
            _ => false,
        }
    }

    fn has_text(&self, rt: &impl Abort, alloc: Global, n: u16) -> bool {
        match (
            self.mirror.repo.tree(RevNo::new(n)),
            self.origin.texts.get(usize::from(n)),
        ) {
            (Some(tree), Some(moment)) => {
                let wanted = digits(rt, alloc, *moment);
                let path = path(rt, alloc);
                match tree.get(path.names()) {
                    Some(node) => match &node.text {
                        Some(text) => text.as_slice() == wanted.as_slice(),
                        None => false,
                    },
                    None => false,
                }
            }
            _ => false,
        }
    }
}

// What a job does next.
fn deed_next(job: &JobState) -> Deed {
    match &decide(job) {
        Action::Call(call) => deed_of_call(call),
        Action::AskIdentity => Deed::Who,
        Action::AskLatest => Deed::Latest,
        Action::Fetch(n) => Deed::Fetch(n.get()),
        Action::FetchProps(n) => Deed::FetchProps(n.get()),
        Action::End => Deed::End,
    }
}

// A job that is given up.
fn gone(runner: Option<Runner>) {
    match runner {
        Some(Runner { job, heard: _ }) => {
            let _ = ended(job);
        }
        None => {}
    }
}

// What runs at a seat from now on.
fn seated(place: &mut Option<Runner>, runner: Option<Runner>) {
    let mut runner = runner;
    swap(place, &mut runner);
    gone(runner);
}

// A job with a random order.
fn begun(rt: &impl Abort, alloc: Global, bits: u64, head: u16) -> Runner {
    match bits % 8 {
        0 => init_job(rt, alloc),
        1 | 2 => copy_job(rt, alloc, ((bits >> 4) & 3) as u16, head),
        3 | 4 => sync_job(rt, alloc, false),
        _ => sync_job(rt, alloc, true),
    }
}

fn init_job(rt: &impl Abort, alloc: Global) -> Runner {
    Runner {
        job: JobState::init(value(rt, alloc, b"/master")),
        heard: Heard::new(Order::Init, 0),
    }
}

fn copy_job(rt: &impl Abort, alloc: Global, low: u16, head: u16) -> Runner {
    let high = head.saturating_sub(low).saturating_add(1);
    Runner {
        job: JobState::copy_props(token(rt, alloc, b"job"), RevNo::new(low), RevNo::new(high)),
        heard: Heard::new(Order::Copy(high), low),
    }
}

fn sync_job(rt: &impl Abort, alloc: Global, steal: bool) -> Runner {
    let order = if steal { Order::Steal } else { Order::Sync };
    Runner {
        job: JobState::sync(token(rt, alloc, b"job"), steal),
        heard: Heard::new(order, 0),
    }
}

// What happens at a seat: a job begins, does one thing, or leaves.
fn at_seat(
    rt: &impl Abort,
    alloc: Global,
    world: &mut World,
    seat: u64,
    runner: Option<Runner>,
    bits: u64,
) -> Option<Runner> {
    let Some(runner) = runner else {
        return Some(begun(rt, alloc, bits, world.room.head()));
    };
    if runner.heard.over || bits % 64 == 0 {
        world.leaves(seat, runner);
        return None;
    }
    let mishap = match bits % 64 {
        1 => Mishap::Memory,
        2 => Mishap::Master,
        _ => Mishap::None,
    };
    Some(world.step(rt, alloc, seat, runner, mishap))
}

// A list of one zero.
fn zero(rt: &impl Abort, alloc: Global) -> Vec<u64> {
    let mut numbers = Vec::new(alloc);
    numbers.push(0).expect(rt, "memory");
    numbers
}

fn new_place(rt: &impl Abort, alloc: Global) -> Place {
    Place {
        mirror: PlainMirror::new(repo(rt, alloc)),
        room: PlainRoom {
            begun: false,
            merged: 0,
            copying: None,
            locked: false,
            holder: None,
            copies: zero(rt, alloc),
            acknowledged: 0,
            shown: 0,
        },
    }
}

fn new_world(rt: &impl Abort, alloc: Global) -> World {
    let Place { mirror, room } = new_place(rt, alloc);
    World {
        master: repo(rt, alloc),
        mirror,
        origin: PlainMaster {
            moment: 0,
            texts: zero(rt, alloc),
            marks: zero(rt, alloc),
        },
        room,
        other: new_place(rt, alloc),
        counts: Counts {
            wrong: false,
            fine: 0,
            refused: 0,
            failed: 0,
            read: 0,
            within: 0,
            stolen: 0,
            copied: 0,
        },
    }
}

// A number up to the head.
fn at_most(bits: u64, head: u16) -> u16 {
    ((bits % (u64::from(head) + 1)) & 0xFFFF) as u16
}

// The jobs at the two seats of a mirror.
#[derive(Drop)]
struct Pair {
    one: Option<Runner>,
    two: Option<Runner>,
}

impl Pair {
    // One thing happens at one of the seats.
    fn goes_on(&mut self, rt: &impl Abort, alloc: Global, world: &mut World, n: u64, bits: u64) {
        if n % 2 == 0 {
            let runner = at_seat(rt, alloc, world, 1, self.one.take(), bits);
            seated(&mut self.one, runner);
        } else {
            let runner = at_seat(rt, alloc, world, 2, self.two.take(), bits);
            seated(&mut self.two, runner);
        }
    }

    // The mirror stops, within a call of the first or the second seat's job or between calls.
    fn stop(&mut self, rt: &impl Abort, alloc: Global, world: &mut World, n: u64, bits: u64) {
        if n == 4 {
            world.stops(rt, alloc, 1, &self.one, bits & 1 == 1);
        } else {
            world.stops(rt, alloc, 2, &self.two, bits & 1 == 1);
        }
        seated(&mut self.one, None);
        seated(&mut self.two, None);
    }

    // No jobs any more.
    fn end(self) {
        let Pair { one, two } = self;
        gone(one);
        gone(two);
    }
}

// What happens next at the present mirror.
fn event(rt: &impl Abort, alloc: Global, world: &mut World, pair: &mut Pair, n: u64, bits: u64) {
    match n {
        0 => {
            if bits & 1 == 0 {
                world.master_commits(rt, alloc);
            }
        }
        1 | 2 | 3 => {
            let n = at_most(bits, world.origin.head());
            world.master_is_edited(rt, alloc, n);
        }
        4 | 5 => pair.stop(rt, alloc, world, n, bits),
        6 => {
            let n = at_most(bits, world.room.head());
            world.is_read(rt, alloc, n);
        }
        n => pair.goes_on(rt, alloc, world, n, bits),
    }
}

// What two seats' jobs do at each of two mirrors in a walk of so many events.
fn walk(rt: &impl Abort, alloc: Global, events: u64) -> World {
    let mut world = new_world(rt, alloc);
    world.master_is_edited(rt, alloc, 0);
    let mut pair = Pair {
        one: None,
        two: None,
    };
    let mut other = Pair {
        one: None,
        two: None,
    };
    let mut state = 7u64;
    for _ in 0..events {
        state = shuffled(state);
        let bits = state >> 40;
        if bits & 0x10000 != 0 {
            world.turns();
            swap(&mut pair, &mut other);
        }
        event(rt, alloc, &mut world, &mut pair, (state >> 33) % 64, bits);
        let n = at_most(bits >> 3, world.room.head());
        let agrees = world.agrees(rt, alloc, n);
        world.check(agrees);
    }
    pair.end();
    other.end();
    world
}

// What a walk has too little of, or what is wrong with it.
fn wrong_of(world: &World) -> Option<&'static str> {
    let counts = &world.counts;
    if counts.wrong {
        return Some("an answer or a mirror that isn't as re-computed");
    }
    if world.room.head() <= 50 || world.other.room.head() <= 50 || counts.fine <= 50 {
        return Some("too few revisions, or jobs that ended well");
    }
    if counts.refused <= 50 || counts.failed <= 10 || counts.read <= 50 {
        return Some("too few refusals, failures or reads");
    }
    if counts.within <= 10 || counts.stolen <= 10 || counts.copied <= 10 {
        return Some("too few stops within a call, stolen locks or copies");
    }
    None
}

#[test]
fn random_events_go_as_the_protocol_says(rt: HostRuntime) {
    let world = walk(&rt, rt.alloc(), 8000);
    none_is_wrong(&rt, wrong_of(&world));
    drop(world);
}
