//! Growths that are refused: the test here answers for a refusal itself, at whatever growth it comes. A preloaded malloc
//! that answers nothing once, or `rt try --test --fail-alloc N`, refuses one.

ghost use Rattle.mirror_share.specs.Names.{IsNamed};

use crate::calls::{Came, LIFE, Parts, came_of};
use crate::shares::some_opened;
use crate::values::number_of;
use fleet_disk::{DiskFile, MemDisk};
use mirror_share::{JobSeat, MirrorName, MirrorShare, OpenedMirror};
use node_base::RevNo;
use std::alloc::Global;
use std::marker::Brand;
use std::rt::HostRuntime;
use std::sync::Wait;
use store_share::ReaderSeat;
use sync_core::{MirrorCall, Numbers, Reply};

// How the mirror stands; None where memory is refused.
fn told<R: Wait, L: MirrorName>(
    rt: &R,
    alloc: Global,
    share: &MirrorShare<L, MemDisk>,
    seat: &mut JobSeat<L>,
) -> Option<Numbers> {
    match share.step(rt, alloc, seat, &MirrorCall::Look) {
        Ok(Reply::Seen(standing)) => Some(Numbers::of(&standing)),
        _ => None,
    }
}

// A call. Behind a refusal (70) the mirror stands as before, and the call is done when it is made again; behind a failure
// of the disk (31) it stands as before, and no call is taken any more (32).
fn made<R: Wait, L: MirrorName>(
    rt: &R,
    alloc: Global,
    share: &MirrorShare<L, MemDisk>,
    seat: &mut JobSeat<L>,
    reader: &mut ReaderSeat<L>,
    call: &MirrorCall<'_>,
) -> Came {
    let before = told(rt, alloc, share, seat);
    let number = number_of(share.step_by(rt, alloc, seat, reader, call));
    if number == 0 {
        return Came::Done;
    }
    let stands = before == told(rt, alloc, share, seat) || before.is_none();
    let again = number_of(share.step_by(rt, alloc, seat, reader, call));
    came_of(number, again, stands)
}

// The calls of a mirror of one revision, up to one that isn't done.
fn lives<R: Wait, L: MirrorName>(
    rt: &R,
    alloc: Global,
    share: &MirrorShare<L, MemDisk>,
    seat: &mut JobSeat<L>,
    reader: &mut ReaderSeat<L>,
    parts: &Parts,
) -> Came {
    for kind in &LIFE {
        match made(rt, alloc, share, seat, reader, &parts.call(*kind)) {
            Came::Done => {}
            other => return other,
        }
    }
    Came::Done
}

// Whether a reader who has seen the commit reads it.
fn is_read<L: MirrorName>(share: &MirrorShare<L, MemDisk>, reader: &mut ReaderSeat<L>) -> bool {
    reader.seen() == RevNo::new(1) && share.read_at(reader, RevNo::new(1)).is_some()
}

fn judged<R: Wait, L: MirrorName>(
    rt: &R,
    alloc: Global,
    share: &MirrorShare<L, MemDisk>,
    parts: &Parts,
) -> Option<bool> {
    let mut reader = share.enter_reader(rt, alloc).ok()?;
    let Ok(mut seat) = share.enter_job(rt, alloc, &parts.token) else {
        return None;
    };
    let came = lives(rt, alloc, share, &mut seat, &mut reader, parts);
    share.leave(rt, seat);
    match came {
        Came::Done => Some(is_read(share, &mut reader)),
        Came::Over => None,
        Came::Wrong => Some(false),
    }
}

// A life of a mirror. None where a growth was refused before it or in its disk, else whether all was as it is to be, and
// the disk.
fn life<R: Wait, L: MirrorName>(
    rt: &R,
    alloc: Global,
    opened: OpenedMirror<MemDisk>,
    parts: &Parts,
) -> (Option<bool>, MemDisk)
    requires { IsNamed opened L.cells L.merged L.copying L.head L.holder }
{
    let share = MirrorShare::<L, MemDisk>::of(alloc, opened);
    let answer = judged(rt, alloc, &share, parts);
    (answer, share.close().into_book().into_store().into_disk())
}

fn lived<R: Wait>(rt: &R, alloc: Global, parts: &Parts) -> Option<(bool, MemDisk)> {
    let (answer, disk) = life::<R, Brand>(rt, alloc, some_opened(alloc)?, parts);
    match answer {
        Some(well) => Some((well, disk)),
        None => None,
    }
}

// Two lives, of which one may meet the refusal: both went well, and wrote the same. So a refused call wrote nothing.
fn are_alike<R: Wait>(rt: &R, alloc: Global) -> bool {
    let Some(parts) = Parts::new(alloc, b"job") else {
        return true;
    };
    let Some((one, disk)) = lived(rt, alloc, &parts) else {
        return true;
    };
    let Some((other, same)) = lived(rt, alloc, &parts) else {
        return one;
    };
    one && other && disk.bytes(DiskFile::Journal) == same.bytes(DiskFile::Journal)
}

#[test]
fn a_refused_growth_changes_nothing(rt: HostRuntime) {
    assert!(rt; are_alike(&rt, rt.alloc()));
}
