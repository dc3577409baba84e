//! A master, a mirror and its jobs re-computed as plain numbers: what each job does next, by the mirror's numbers and
//! what was answered to the job, what each call is answered, and what it makes.
use std::process::Abort;

// What a job does, as a name and a number.
#[derive(Clone, Copy, PartialEq, Eq)]
pub(crate) enum Deed {
    Init,
    Take,
    Steal,
    Release,
    SetCopying(u16),
    Commit(u16),
    Put(u16),
    Merge(u16),
    Clear,
    Look,
    Who,
    Latest,
    Fetch(u16),
    FetchProps(u16),
    End,
}

// What a job is to do.
#[derive(Clone, Copy, PartialEq, Eq)]
pub(crate) enum Order {
    Init,
    Sync,
    Steal,
    Copy(u16),
}

// What was answered to a job. It fetches one thing at a time: the moment at which the master had got it is kept.
#[derive(Drop)]
pub(crate) struct Heard {
    pub(crate) order: Order,
    pub(crate) locked: bool,
    pub(crate) looked: bool,
    pub(crate) told: bool,
    pub(crate) latest: Option<u16>,
    pub(crate) fetched: Option<u64>,
    pub(crate) put: bool,
    pub(crate) next: u16,
    pub(crate) refusal: u8,
    pub(crate) over: bool,
}

// The master: at which of its moments each revision was committed, and each revision's properties written.
#[derive(Drop)]
pub(crate) struct PlainMaster {
    pub(crate) moment: u64,
    pub(crate) texts: Vec<u64>,
    pub(crate) marks: Vec<u64>,
}

// The mirror: its numbers, its lock, for each revision the moment at which its properties were written at the master,
// and the greatest that was acknowledged and that a reader was given.
#[derive(Drop)]
pub(crate) struct PlainRoom {
    pub(crate) begun: bool,
    pub(crate) merged: u16,
    pub(crate) copying: Option<u16>,
    pub(crate) locked: bool,
    pub(crate) holder: Option<u64>,
    pub(crate) copies: Vec<u64>,
    pub(crate) acknowledged: u16,
    pub(crate) shown: u16,
}

pub(crate) fn short(n: usize) -> u16 {
    (n & 0xFFFF) as u16
}

impl PlainMaster {
    pub(crate) fn head(&self) -> u16 {
        short(self.texts.len().saturating_sub(1))
    }

    pub(crate) fn mark(&self, n: u16) -> Option<u64> {
        self.marks.get(usize::from(n)).copied()
    }
}

impl PlainRoom {
    pub(crate) fn head(&self) -> u16 {
        short(self.copies.len().saturating_sub(1))
    }

    // Whether the lock call of an order is refused, and why.
    pub(crate) fn at_lock(&self, against: bool, number: u8) -> u8 {
        if !self.begun {
            51
        } else if against {
            number
        } else {
            0
        }
    }

    // The answer to a call of a job: what jobs call after their lock is never refused.
    pub(crate) fn answer(&self, deed: Deed) -> u8 {
        match deed {
            Deed::Init => { if self.begun { 52 } else { 0 } }
            Deed::Take => self.at_lock(self.locked, 54),
            Deed::Steal => self.at_lock(self.holder.is_some(), 55),
            _ => 0,
        }
    }

    // What a call that is taken makes; false where properties would go back in time.
    pub(crate) fn does(&mut self, rt: &impl Abort, seat: u64, deed: Deed, mark: u64) -> bool {
        match deed {
            Deed::Init => {
                self.begun = true;
                self.copies.clear();
                self.copies.push(mark).expect(rt, "memory");
            }
            Deed::Take | Deed::Steal => {
                self.locked = true;
                self.holder = Some(seat);
            }
            Deed::Release => {
                self.locked = false;
                self.holder = None;
            }
            Deed::SetCopying(n) => self.copying = Some(n),
            Deed::Commit(_) => self.copies.push(mark).expect(rt, "memory"),
            Deed::Put(n) => return self.puts(n, mark),
            Deed::Merge(n) => self.merged = n,
            Deed::Clear => self.copying = None,
            _ => {}
        }
        true
    }

    pub(crate) fn puts(&mut self, n: u16, mark: u64) -> bool {
        match self.copies.get_mut(usize::from(n)) {
            None => false,
            Some(old) => {
                let rises = *old <= mark;
                *old = mark;
                rises
            }
        }
    }
}

// What a job does next, by the numbers of the mirror and what was answered to it.
pub(crate) fn wanted(heard: &Heard, room: &PlainRoom) -> Deed {
    if heard.over {
        return Deed::End;
    }
    match heard.order {
        Order::Init => wanted_to_init(heard),
        Order::Sync => wanted_behind_lock(heard, room, Deed::Take, 0),
        Order::Steal => wanted_behind_lock(heard, room, Deed::Steal, 0),
        Order::Copy(high) => wanted_behind_lock(heard, room, Deed::Take, high),
    }
}

pub(crate) fn wanted_to_init(heard: &Heard) -> Deed {
    if !heard.told {
        Deed::Who
    } else if heard.fetched.is_none() {
        Deed::FetchProps(0)
    } else {
        Deed::Init
    }
}

pub(crate) fn wanted_behind_lock(heard: &Heard, room: &PlainRoom, lock: Deed, high: u16) -> Deed {
    if !heard.locked {
        lock
    } else if heard.refusal != 0 {
        Deed::Release
    } else if !heard.looked {
        Deed::Look
    } else if !heard.told {
        Deed::Who
    } else if is_copy(heard.order) {
        wanted_to_copy(heard, high)
    } else {
        wanted_to_sync(heard, room)
    }
}

pub(crate) fn is_copy(order: Order) -> bool {
    match order {
        Order::Copy(_) => true,
        _ => false,
    }
}

// A range is copied from its first number to its last.
pub(crate) fn wanted_to_copy(heard: &Heard, high: u16) -> Deed {
    let n = heard.next;
    if n > high {
        Deed::Release
    } else if heard.fetched.is_some() {
        Deed::Put(n)
    } else {
        Deed::FetchProps(n)
    }
}

// A revision that is committed is given its properties again, merged and cleared; else the one after the head comes.
pub(crate) fn wanted_to_sync(heard: &Heard, room: &PlainRoom) -> Deed {
    let head = room.head();
    match room.copying {
        Some(n) => {
            if n != head {
                wanted_of_next(heard, n)
            } else if room.merged == n {
                Deed::Clear
            } else if heard.put {
                Deed::Merge(n)
            } else if heard.fetched.is_some() {
                Deed::Put(n)
            } else {
                Deed::FetchProps(n)
            }
        }
        None => match heard.latest {
            None => Deed::Latest,
            Some(latest) => {
                if latest > head {
                    Deed::SetCopying(head.saturating_add(1))
                } else {
                    Deed::Release
                }
            }
        },
    }
}

pub(crate) fn wanted_of_next(heard: &Heard, n: u16) -> Deed {
    if heard.latest.is_none() {
        Deed::Latest
    } else if heard.fetched.is_some() {
        Deed::Commit(n)
    } else {
        Deed::Fetch(n)
    }
}

impl Heard {
    pub(crate) fn new(order: Order, low: u16) -> Heard {
        Heard {
            order,
            locked: false,
            looked: false,
            told: false,
            latest: None,
            fetched: None,
            put: false,
            next: low,
            refusal: 0,
            over: false,
        }
    }

    // The first refusal counts. One of the first call or of the last ends the job, and so does any of an init job.
    pub(crate) fn refused(&mut self, deed: Deed, number: u8) {
        if self.refusal == 0 {
            self.refusal = number;
        }
        if deed == Deed::Release || !self.locked {
            self.over = true;
        }
    }

    pub(crate) fn answered(&mut self, deed: Deed, origin: &PlainMaster, room: &PlainRoom) {
        match deed {
            Deed::Take | Deed::Steal => self.locked = true,
            Deed::Look => self.looked = true,
            Deed::Who => self.known(room),
            Deed::Latest => self.latest = Some(origin.head()),
            Deed::Fetch(n) | Deed::FetchProps(n) => self.fetched = origin.mark(n),
            Deed::Commit(_) => self.fetched = None,
            Deed::Put(n) => {
                self.fetched = None;
                self.put = true;
                self.next = n.saturating_add(1);
            }
            Deed::Merge(_) => self.put = false,
            Deed::Init | Deed::Release => self.over = true,
            _ => {}
        }
    }

    // The master is the mirror's. A range that isn't merged whole is refused then.
    pub(crate) fn known(&mut self, room: &PlainRoom) {
        self.told = true;
        if let Order::Copy(high) = self.order {
            if high > room.merged {
                self.refusal = 58;
            }
        }
    }
}

pub(crate) fn is_call(deed: Deed) -> bool {
    match deed {
        Deed::Who | Deed::Latest | Deed::Fetch(_) | Deed::FetchProps(_) | Deed::End => false,
        _ => true,
    }
}
