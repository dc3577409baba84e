//! A walk of random calls over a mirror in memory, beside a plain re-computation.
use crate::tests;
use crate::tests::{one_prop, repo, token, value};
use dump_load::ChangeSet;
use node_base::RevNo;
use std::alloc::Global;
use std::process::Abort;
use sync_core::{MirrorCall, Number, PlainMirror, Seat, Standing, look};

// A mirror as five numbers and a map: what is merged, what is being copied, who holds the lock, whether a lock is
// there, and for each revision the letter in its copied property. None before it is initialised.
#[derive(Drop)]
struct Plain {
    begun: bool,
    merged: u16,
    copying: Option<u16>,
    locked: bool,
    holder: Option<u64>,
    letters: Vec<u8>,
}

// A call with its number and its letter.
#[derive(Clone, Copy, PartialEq, Eq)]
enum Kind {
    Init,
    Take,
    Steal,
    Release,
    SetCopying,
    Commit,
    Put,
    Merge,
    Clear,
    Leave,
}

fn kind_of(n: u64) -> Kind {
    match n {
        0 => Kind::Init,
        1 => Kind::Take,
        2 => Kind::Steal,
        3 => Kind::Release,
        4 => Kind::SetCopying,
        5 => Kind::Commit,
        6 => Kind::Put,
        7 => Kind::Merge,
        8 => Kind::Clear,
        _ => Kind::Leave,
    }
}

impl Plain {
    fn head(&self) -> u16 {
        (self.letters.len().saturating_sub(1) & 0xFFFF) as u16
    }

    // The answer that the protocol gives, and the state after it.
    fn say(&mut self, rt: &impl Abort, seat: u64, kind: Kind, n: u16, letter: u8) -> u8 {
        let head = self.head();
        let merged = self.merged;
        let copying = self.copying;
        let holder = self.holder;
        let after = head.saturating_add(1);
        let idle = merged == head && copying.is_none();
        let noted = merged == head && copying == Some(n) && n == after;
        let committed = copying == Some(n) && n == head;
        let own = holder == Some(seat);
        match kind {
            Kind::Init => return self.init(rt, letter),
            Kind::Take => {
                let locked = self.locked;
                return self.lock(seat, locked, 54);
            }
            Kind::Steal => return self.lock(seat, holder.is_some(), 55),
            Kind::Leave => {
                if own {
                    self.holder = None;
                }
                return 0;
            }
            _ => {}
        }
        if !own {
            return 59;
        }
        let met = match kind {
            Kind::Release => true,
            Kind::SetCopying => idle && n == after,
            Kind::Commit => noted,
            Kind::Put => n <= merged || committed,
            Kind::Merge => committed && merged < n,
            _ => merged == head && copying == Some(merged),
        };
        if !met {
            return 61;
        }
        match kind {
            Kind::Release => {
                self.locked = false;
                self.holder = None;
            }
            Kind::SetCopying => self.copying = Some(n),
            Kind::Commit => self.letters.push(letter).expect(rt, "memory"),
            Kind::Put => {
                if let Some(old) = self.letters.get_mut(usize::from(n)) {
                    *old = letter;
                }
            }
            Kind::Merge => self.merged = n,
            _ => self.copying = None,
        }
        0
    }

    fn init(&mut self, rt: &impl Abort, letter: u8) -> u8 {
        if self.begun {
            return 52;
        }
        self.begun = true;
        self.letters.clear();
        self.letters.push(letter).expect(rt, "memory");
        0
    }

    fn lock(&mut self, seat: u64, against: bool, number: u8) -> u8 {
        if !self.begun {
            return 51;
        }
        if against {
            return number;
        }
        self.locked = true;
        self.holder = Some(seat);
        0
    }
}

// The same call of the mirror. A leaving seat is no call.
fn say(
    rt: &impl Abort,
    alloc: Global,
    mirror: &mut PlainMirror,
    seat: u64,
    kind: Kind,
    n: u16,
    letter: u8,
) -> u8 {
    if kind == Kind::Leave {
        mirror.leave(Seat::new(seat));
        return 0;
    }
    let number = RevNo::new(n);
    let url = value(rt, alloc, b"/master");
    let token = token(rt, alloc, b"job");
    let props = one_prop(rt, alloc, b"p", &[letter]);
    let set = ChangeSet::empty(alloc);
    let call = match kind {
        Kind::Init => MirrorCall::Init {
            url: &url,
            uuid: &url,
            props: &props,
        },
        Kind::Take => MirrorCall::TakeLock(&token),
        Kind::Steal => MirrorCall::StealLock(&token),
        Kind::Release => MirrorCall::ReleaseLock,
        Kind::SetCopying => MirrorCall::SetCopying(number),
        Kind::Commit => MirrorCall::Commit {
            number,
            set: &set,
            props: &props,
        },
        Kind::Put => MirrorCall::PutProps {
            number,
            props: &props,
        },
        Kind::Merge => MirrorCall::SetMerged(number),
        Kind::Clear | Kind::Leave => MirrorCall::ClearCopying,
    };
    let answer = tests::say(alloc, mirror, seat, &call);
    drop((url, props));
    answer
}

fn spelt(number: Number) -> Option<u64> {
    number.spelt()
}

// The letter in a revision's copied property.
fn letter_of(mirror: &PlainMirror, n: u16) -> Option<u8> {
    let value = mirror.repo.props(RevNo::new(n))?.get(b"p")?;
    value.first().copied()
}

// Whether the mirror stands as the re-computation says.
fn agree(rt: &impl Abort, alloc: Global, mirror: &PlainMirror, plain: &Plain, n: u16) -> bool {
    let Some(own) = mirror.repo.props(RevNo::ZERO) else {
        return false;
    };
    let standing = look(alloc, own, mirror.repo.head()).expect(rt, "memory");
    let letter = letter_of(mirror, n);
    let stands = stands(&standing, plain);
    drop(standing);
    stands
        && mirror.holder == plain.holder.map(Seat::new)
        && (!plain.begun || letter == plain.letters.get(usize::from(n)).copied())
}

fn stands(standing: &Standing, plain: &Plain) -> bool {
    let merged = if plain.begun {
        Some(u64::from(plain.merged))
    } else {
        None
    };
    standing.url.is_some() == plain.begun
        && standing.head.get() == plain.head()
        && standing.lock.is_some() == plain.locked
        && spelt(standing.merged) == merged
        && spelt(standing.copying) == plain.copying.map(u64::from)
}

// The next of a row of numbers that look random.
pub(crate) fn shuffled(state: u64) -> u64 {
    state
        .wrapping_mul(6_364_136_223_846_793_005)
        .wrapping_add(1_442_695_040_888_963_407)
}

fn new_plain(rt: &impl Abort, alloc: Global) -> Plain {
    let mut letters = Vec::new(alloc);
    letters.push(0).expect(rt, "memory");
    Plain {
        begun: false,
        merged: 0,
        copying: None,
        locked: false,
        holder: None,
        letters,
    }
}

// Whether a random call is answered as the re-computation says, and leaves the mirror so.
fn fits(
    rt: &impl Abort,
    alloc: Global,
    mirror: &mut PlainMirror,
    plain: &mut Plain,
    bits: u64,
) -> bool {
    let kind = kind_of((bits >> 9) % 10);
    let seat = bits & 1;
    let n = plain
        .head()
        .saturating_add(((bits >> 1) % 3) as u16)
        .saturating_sub(1);
    let letter = ((bits >> 3) & 0x3F) as u8;
    let wanted = plain.say(rt, seat, kind, n, letter);
    let got = say(rt, alloc, mirror, seat, kind, n, letter);
    wanted == got && agree(rt, alloc, mirror, plain, n)
}

// The head after so many random calls; None where the mirror and the re-computation differ.
fn walk(rt: &impl Abort, alloc: Global, calls: u64) -> Option<u16> {
    let mut mirror = PlainMirror::new(repo(rt, alloc));
    let mut plain = new_plain(rt, alloc);
    let mut state = 1u64;
    for _ in 0..calls {
        state = shuffled(state);
        if !fits(rt, alloc, &mut mirror, &mut plain, state >> 33) {
            return None;
        }
    }
    let answer = Some(plain.head());
    drop(mirror);
    answer
}

#[test]
fn random_calls_are_answered_as_the_protocol_says(rt: HostRuntime) {
    let alloc = rt.alloc();
    let head = walk(&rt, alloc, 8000);
    assert!(rt; head > Some(10));
}
