//! A book by itself: its seats, and a cell that refuses its box. The commit is answered 32 then, and so is each call behind
//! it.

ghost use Rattle.std.specs.Prelude.{◌≡◌};
ghost use Rattle.mirror_share.specs.Names.{IsNamed};

use crate::calls::{Kind, LIFE, Parts};
use crate::shares::{blank, is_at, master, opened};
use crate::values::{number_of, some_log};
use fleet_disk::MemDisk;
use mirror_share::{JobSeat, MirrorBook, MirrorName, OpenedMirror};
use node_base::RevNo;
use repo_store::RepoStore;
use std::alloc::Global;
use std::marker::Brand;
use std::process::Abort;
use std::rt::HostRuntime;
use store_share::{Rev, RevRow};
use sync_core::MirrorCall;

// A job comes in, begins the mirror, takes its lock and leaves; a reader sees what is shown.
fn is_kept<R: Abort, L: MirrorName>(
    rt: &R,
    alloc: Global,
    book: &mut MirrorBook<L, MemDisk>,
    row: &RevRow,
) -> bool
    requires { row.now ≡ L.cells }
{
    let parts = Parts::new(alloc, b"a").expect(rt, "memory");
    let mut seat = book.enter_job(alloc, &parts.token).expect(rt, "a seat");
    let begun = number_of(book.step(alloc, row, &mut seat, &parts.call(Kind::Init)));
    let taken = number_of(book.step(alloc, row, &mut seat, &parts.call(Kind::Take)));
    let looked = is_at(book.step(alloc, row, &mut seat, &MirrorCall::Look), 0, b"0");
    let running = number_of(book.enter_job(alloc, &parts.token));
    book.is_whole();
    book.leave(seat);
    let mut reader = book.seat_reader(row.notes(alloc).expect(rt, "notes"));
    let newest = book.latest(&mut reader) == RevNo::ZERO;
    let back = number_of(book.enter_job(alloc, &parts.token));
    let answer = (begun, taken, running, back) == (0, 0, 55, 0) && looked && newest;
    drop(parts);
    answer
}

// Revision 1 of another repository, in a box.
fn first_of(rt: &impl Abort, alloc: Global, source: &RepoStore<MemDisk>) -> Box<Rev> {
    let number = RevNo::new(1);
    let set = source.repo().set(number).expect(rt, "a set");
    let tree = source.repo().tree(number).expect(rt, "a tree");
    let rev = Rev {
        number,
        set: set.share(alloc).expect(rt, "memory"),
        tree: tree.share().expect(rt, "memory"),
    };
    Box::new(alloc, rev).expect(rt, "memory")
}

// Sets the cell of revision 1 before the mirror has that revision.
fn take_cell<R: Abort>(rt: &R, alloc: Global, row: &RevRow) -> bool {
    let mut source = master(rt, alloc);
    let props = some_log(alloc, b"ha").expect(rt, "memory");
    let receipt = source
        .put_props(alloc, RevNo::ZERO, props)
        .expect(rt, "a receipt");
    let rev = first_of(rt, alloc, &source);
    let mut notes = row.notes(alloc).expect(rt, "notes");
    let is_set = row.show_in(receipt, rev, &mut notes).is_ok();
    let _disk = source.into_disk();
    is_set
}

// Whether each of a mirror's calls and a look are refused (32).
fn all_fail<L: MirrorName>(
    alloc: Global,
    book: &mut MirrorBook<L, MemDisk>,
    row: &RevRow,
    seat: &mut JobSeat<L>,
    parts: &Parts,
) -> bool
    requires { row.now ≡ L.cells }
{
    let mut all = number_of(book.step(alloc, row, seat, &MirrorCall::Look)) == 32;
    for kind in &LIFE {
        all = number_of(book.step(alloc, row, seat, &parts.call(*kind))) == 32 && all;
    }
    all
}

// The calls of a mirror up to the commit of revision 1, which its cell refuses, since it is set before, and all behind it.
fn is_refused<R: Abort, L: MirrorName>(
    rt: &R,
    alloc: Global,
    book: &mut MirrorBook<L, MemDisk>,
    row: &RevRow,
) -> bool
    requires { row.now ≡ L.cells }
{
    let is_set = take_cell(rt, alloc, row);
    let parts = Parts::new(alloc, b"a").expect(rt, "memory");
    let mut seat = book.enter_job(alloc, &parts.token).expect(rt, "a seat");
    let begun = number_of(book.step(alloc, row, &mut seat, &parts.call(Kind::Init)));
    let taken = number_of(book.step(alloc, row, &mut seat, &parts.call(Kind::Take)));
    let copying = number_of(book.step(alloc, row, &mut seat, &parts.call(Kind::Copying)));
    let before = book.is_stuck();
    let committed = number_of(book.step(alloc, row, &mut seat, &parts.call(Kind::Commit)));
    let fail = all_fail(alloc, book, row, &mut seat, &parts);
    let answer = (begun, taken, copying, committed) == (0, 0, 0, 32);
    drop(parts);
    answer && is_set && !before && fail
}

// Whether no reader is told of the commit that was refused, though it stands (21 for its properties).
fn is_unseen<R: Abort, L: MirrorName>(
    rt: &R,
    alloc: Global,
    book: &mut MirrorBook<L, MemDisk>,
    row: &RevRow,
) -> bool
    requires { row.now ≡ L.cells }
{
    let mut reader = book.seat_reader(row.notes(alloc).expect(rt, "notes"));
    let newest = book.latest(&mut reader);
    let number = match book.rev_props(RevNo::new(1)) {
        Ok(_props) => 0,
        Err(fault) => fault.number(),
    };
    newest == RevNo::ZERO && number == 21 && book.is_stuck()
}

// What is tried of a book.
#[derive(Clone, Copy)]
enum Case {
    Keeps,
    Refuses,
}

// Whether a book does what is tried, and what its head is then.
fn judged<R: Abort, L: MirrorName>(
    rt: &R,
    alloc: Global,
    opened: OpenedMirror<MemDisk>,
    case: Case,
) -> (bool, u16)
    requires { IsNamed opened L.cells L.merged L.copying L.head L.holder }
{
    let (mut book, row) = opened.into_book::<L>(alloc);
    let answer = match case {
        Case::Keeps => is_kept(rt, alloc, &mut book, &row),
        Case::Refuses => {
            is_refused(rt, alloc, &mut book, &row) && is_unseen(rt, alloc, &mut book, &row)
        }
    };
    let store = book.into_book().into_store();
    let head = store.repo().head().get();
    let _disk = store.into_disk();
    (answer, head)
}

fn passes<R: Abort>(rt: &R, alloc: Global, case: Case) -> (bool, u16) {
    let opened = opened(rt, alloc, blank(rt, alloc));
    judged::<R, Brand>(rt, alloc, opened, case)
}

#[test]
fn a_book_keeps_its_seats(rt: HostRuntime) {
    assert!(rt; passes(&rt, rt.alloc(), Case::Keeps) == (true, 0));
}

#[test]
fn a_refused_cell_ends_the_calls(rt: HostRuntime) {
    assert!(rt; passes(&rt, rt.alloc(), Case::Refuses) == (true, 1));
}
