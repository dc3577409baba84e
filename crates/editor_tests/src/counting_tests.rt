//! What is open when an edit is refused is let go of, and the edit is given up once.

ghost use Rattle.std.specs.Prelude.{◌≡◌, IfOk};

use crate::received_tests::FULL;
use crate::streams_for_tests::items_from;
use delta_editor::{Editor, EditorFault, Source};
use node_base::{NodePath, PropName, RevNo};
use ra_edit::receive::receive;
use std::alloc::Global;
use std::rt::HostRuntime;
use std::snapshot::Snapshot;

/// How often an editor opened something, refused a call, and so on.
#[derive(Clone, Copy, PartialEq, Eq)]
pub(crate) struct Counts {
    pub(crate) opened: usize,
    pub(crate) closed: usize,
    pub(crate) discarded: usize,
    pub(crate) refused: usize,
    pub(crate) aborted: usize,
    pub(crate) ended: usize,
}

// Nothing is counted yet.
const NOTHING: Counts = Counts {
    opened: 0,
    closed: 0,
    discarded: 0,
    refused: 0,
    aborted: 0,
    ended: 0,
};

// An editor that counts, takes so many calls and refuses each later one.
struct Counting<'a> {
    alloc: Global,
    counts: &'a mut Counts,
    left: usize,
}

// What is open in a counting editor. It has to be closed or discarded.
struct Open {
    path: Snapshot<NodePath>,
}

impl<'a> Counting<'a> {
    // A call, which may be refused.
    fn take(&mut self) -> Result<(), EditorFault> {
        if self.left == 0 {
            self.counts.refused = self.counts.refused.saturating_add(1);
            return Err(EditorFault::OutOfOrder);
        }
        self.left -= 1;
        Ok(())
    }

    fn open(&mut self, path: &NodePath) -> Result<Open, EditorFault>
        ensures { IfOk result (λ b. b.path.value ≡ path.now) }
    {
        self.take()?;
        self.counts.opened = self.counts.opened.saturating_add(1);
        Ok(Open {
            path: Snapshot::of(path),
        })
    }

    fn close(&mut self, baton: Open) -> Result<(), EditorFault> {
        let Open { path: _ } = baton;
        self.counts.closed = self.counts.closed.saturating_add(1);
        self.take()
    }

    fn discard(&mut self, baton: Open) {
        let Open { path: _ } = baton;
        self.counts.discarded = self.counts.discarded.saturating_add(1);
    }
}

impl<'a> Editor for Counting<'a> {
    ghost use Rattle.std.specs.Prelude.{⊤};

    type Dir = Open;

    type File = Open;

    type Done = ();

    ghost shows = { λ e calls. ⊤ };

    ghost done_shows = { λ d calls. ⊤ };

    ghost dir_path = { λ d. d.path.value };

    ghost file_path = { λ f. f.path.value };

    ghost Began = { Unit {0} };

    ghost began = { λ e. tt };

    ghost done_began = { λ d. tt };

    ghost refuses = { λ nothing calls c e. ⊤ };

    ghost lets_go = { λ e paths. ⊤ };

    ghost given_up = { λ e. ⊤ };

    fn target(&mut self, rev: RevNo) -> Result<(), EditorFault> {
        self.take()
    }

    fn open_root(&mut self, base: Option<RevNo>) -> Result<Open, EditorFault> {
        let root = NodePath::root(self.alloc);
        self.open(&root)
    }

    fn add_dir(
        &mut self,
        up: &mut Open,
        path: &NodePath,
        from: Option<&Source>,
    ) -> Result<Open, EditorFault> {
        self.open(path)
    }

    fn open_dir(
        &mut self,
        up: &mut Open,
        path: &NodePath,
        base: Option<RevNo>,
    ) -> Result<Open, EditorFault> {
        self.open(path)
    }

    fn delete_entry(
        &mut self,
        up: &mut Open,
        path: &NodePath,
        base: Option<RevNo>,
    ) -> Result<(), EditorFault> {
        self.take()
    }

    fn add_file(
        &mut self,
        up: &mut Open,
        path: &NodePath,
        from: Option<&Source>,
    ) -> Result<Open, EditorFault> {
        self.open(path)
    }

    fn open_file(
        &mut self,
        up: &mut Open,
        path: &NodePath,
        base: Option<RevNo>,
    ) -> Result<Open, EditorFault> {
        self.open(path)
    }

    fn dir_prop(
        &mut self,
        dir: &mut Open,
        name: &PropName,
        value: Option<&[u8]>,
    ) -> Result<(), EditorFault> {
        self.take()
    }

    fn file_prop(
        &mut self,
        file: &mut Open,
        name: &PropName,
        value: Option<&[u8]>,
    ) -> Result<(), EditorFault> {
        self.take()
    }

    fn text_start(&mut self, file: &mut Open) -> Result<(), EditorFault> {
        self.take()
    }

    fn text_piece(&mut self, file: &mut Open, piece: &[u8]) -> Result<(), EditorFault> {
        self.take()
    }

    fn text_end(&mut self, file: &mut Open) -> Result<(), EditorFault> {
        self.take()
    }

    fn close_file(&mut self, file: Open, sum: Option<[u8; 16]>) -> Result<(), EditorFault> {
        self.close(file)
    }

    fn close_dir(&mut self, dir: Open) -> Result<(), EditorFault> {
        self.close(dir)
    }

    fn discard_file(&mut self, file: Open) {
        self.discard(file);
    }

    fn discard_dir(&mut self, dir: Open) {
        self.discard(dir);
    }

    fn close_edit(self) -> Result<(), EditorFault> {
        let mut this = self;
        let taken = this.take();
        let Counting {
            alloc: _,
            counts,
            left: _,
        } = this;
        if taken.is_ok() {
            counts.ended = counts.ended.saturating_add(1);
        }
        taken
    }

    fn abort_edit(self) {
        let Counting {
            alloc: _,
            counts,
            left: _,
        } = self;
        counts.aborted = counts.aborted.saturating_add(1);
    }
}

/// What a drive comes to for an editor that takes so many calls, 0 or the number of its refusal, and what that editor
/// counts.
pub(crate) fn counted(alloc: Global, bytes: &[u8], breaks: bool, left: usize) -> (u8, Counts) {
    let mut counts = NOTHING;
    let editor = Counting {
        alloc,
        counts: &mut counts,
        left,
    };
    let mut items = items_from(alloc, bytes, 7, breaks);
    let number = match receive(alloc, &mut items, editor) {
        Ok(()) => 0,
        Err(fault) => fault.number(),
    };
    (number, counts)
}

/// Whether an edit was given up with all that was open let go of.
pub(crate) fn is_given_up(counts: &Counts) -> bool {
    counts.opened == counts.closed.saturating_add(counts.discarded)
        && counts.aborted == 1
        && counts.ended == 0
}

// Whether a drive of so many calls is given up where its editor refuses any one of them. The last call takes the
// editor.
fn each_call_may_be_refused(alloc: Global, bytes: &[u8], calls: usize) -> bool {
    for left in 0..calls.saturating_sub(1) {
        let (number, counts) = counted(alloc, bytes, false, left);
        if number != 15 || counts.refused != 1 || !is_given_up(&counts) {
            return false;
        }
    }
    true
}

// What is counted where so many things are opened and closed.
fn all_closed(count: usize) -> Counts {
    Counts {
        opened: count,
        closed: count,
        ..NOTHING
    }
}

// Whether a drive of so many calls, which opens so many things, is given up where its editor refuses any one of them, and
// not where it refuses none.
fn is_counted(alloc: Global, bytes: &[u8], calls: usize, opened: usize) -> bool {
    let mut refused = all_closed(opened);
    refused.refused = 1;
    let mut ended = all_closed(opened);
    ended.ended = 1;
    each_call_may_be_refused(alloc, bytes, calls)
        && counted(alloc, bytes, false, calls.saturating_sub(1)) == (15, refused)
        && counted(alloc, bytes, false, calls) == (0, ended)
}

#[test]
fn a_refused_call_is_the_last_one(rt: HostRuntime) {
    let alloc = rt.alloc();
    assert!(rt; is_counted(alloc, FULL, 20, 5));
    assert!(rt; is_counted(alloc, b"( target-rev ( 2 ) ) ( finish-replay ( ) ) ", 4, 1));
    assert!(rt; is_counted(alloc, b"( close-edit ( ) ) ( finish-replay ( ) ) ", 3, 1));
}

// Whether any beginning of a drive is given up, where the input ends or where the reader fails behind it.
fn fronts_are_given_up(alloc: Global, bytes: &[u8]) -> bool {
    for end in 0..bytes.len() {
        let front = bytes.get(..end).unwrap_or(b"");
        let ended = counted(alloc, front, false, usize::MAX);
        let failed = counted(alloc, front, true, usize::MAX);
        if !is_given_up(&ended.1) || failed != (49, ended.1) || !(ended.0 == 7 || ended.0 == 48) {
            return false;
        }
    }
    true
}

#[test]
fn what_is_open_is_discarded_where_a_drive_stops(rt: HostRuntime) {
    assert!(rt; fronts_are_given_up(rt.alloc(), FULL));
}

// Drives, the number of each refusal, and how many things had been opened and closed by then.
const DISCARDED: [(&[u8], u8, usize, usize); 8] = [
    (b"( close-dir ( 1:r ) ) ", 46, 0, 0),
    (
        b"( open-root ( ( ) 1:r ) ) ( finish-replay ( ) ) ",
        46,
        1,
        0,
    ),
    (b"( open-root ( ( ) 1:r ) ) ( frob ( ) ) ", 48, 1, 0),
    (
        b"( open-root ( ( ) 1:r ) ) ( open-dir ( 1:d 1:r 1:d ( ) ) ) ( open-file ( 3:d/f 1:d 1:f ( ) ) ) ( close-dir ( 1:r ) ) ",
        46,
        3,
        0,
    ),
    (
        b"( open-root ( ( ) 1:r ) ) ( open-file ( 1:f 1:r 1:f ( ) ) ) ( apply-textdelta ( 1:f ( ) ) ) ( finish-replay ( ) ) ",
        46,
        2,
        0,
    ),
    (
        b"( open-root ( ( ) 1:r ) ) ( open-file ( 1:f 1:r 1:f ( ) ) ) ( apply-textdelta ( 1:f ( ) ) ) ( textdelta-chunk ( 1:f 4:SVN\x00 ) ) ( textdelta-end ( 1:f ) ) ( close-file ( 1:f ( 32:b1946ac92492d2347c6235b4d2611184 ) ) ) ",
        6,
        2,
        0,
    ),
    (
        b"( open-root ( ( ) 1:r ) ) ( open-dir ( 1:d 1:r 1:d ( ) ) ) ( close-dir ( 1:d ) ) ( abort-edit ( ) ) ",
        60,
        2,
        1,
    ),
    (
        b"( open-root ( ( ) 1:r ) ) ( close-dir ( 1:r ) ) ( close-edit ( ) ) ( close-edit ( ) ) ",
        48,
        1,
        1,
    ),
];

// Whether a drive is refused so, and what is open is discarded once.
fn is_discarded(alloc: Global, bytes: &[u8], number: u8, opened: usize, closed: usize) -> bool {
    let wanted = Counts {
        opened,
        closed,
        discarded: opened.saturating_sub(closed),
        aborted: 1,
        ..NOTHING
    };
    counted(alloc, bytes, false, usize::MAX) == (number, wanted)
}

#[test]
fn what_is_open_is_discarded_at_a_refusal(rt: HostRuntime) {
    for (bytes, number, opened, closed) in &DISCARDED {
        assert!(rt; is_discarded(rt.alloc(), bytes, *number, *opened, *closed));
    }
}
