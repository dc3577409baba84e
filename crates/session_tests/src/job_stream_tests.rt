//! Jobs whose master is told by bytes, over streams that fail at each of their reads and writes.

use crate::client_sessions::{Line as Stream, OPENED, WHOLE};
use crate::served_tests::{repo, served};
use crate::sync_runs::{
    BEGINS, BEGUN, GOES_ON, Job, Left, Line, SYNCED, empty, run_by, run_over, stored,
};
use fleet_disk::{MemDisk, Pick};
use repo_store::RepoStore;
use std::alloc::Global;
use std::process::Abort;
use std::rt::HostRuntime;
use sync_job::LentMaster;

// A mirror that is begun, all synced.
fn begun(rt: &impl Abort, alloc: Global) -> MemDisk {
    let bytes = served(rt, alloc, BEGINS);
    let left = run_over(
        rt,
        alloc,
        empty(rt, alloc),
        bytes.as_slice(),
        &WHOLE,
        &Job::Begin,
    );
    left.disk.crash(Pick::New).expect(rt, "memory")
}

// A job over a stream that may fail: it went well; it was refused (60) behind some of its lines, and the next one, whose
// master lies in a store, told the others; or it isn't as it is to be.
#[derive(Clone, Copy, PartialEq, Eq)]
enum Came {
    Well,
    MadeUp,
    Wrong,
}

// A job, the mirror where it begins, what its master tells, and its lines.
#[derive(Drop)]
struct Trial<'a> {
    source: &'a RepoStore<MemDisk>,
    begun: &'a MemDisk,
    bytes: &'a [u8],
    job: &'a Job,
    lines: &'a [Line],
}

impl<'a> Trial<'a> {
    fn run(&self, rt: &impl Abort, alloc: Global, bytes: &[u8], stream: &Stream) -> Came {
        let Ok(disk) = self.begun.crash(Pick::New) else {
            return Came::Wrong;
        };
        let Left { disk, number, told } = run_over(rt, alloc, disk, bytes, stream, self.job);
        if number == 0 {
            return if told.as_slice() == self.lines {
                Came::Well
            } else {
                Came::Wrong
            };
        }
        let later = run_by(rt, alloc, disk, LentMaster::new(self.source), self.job);
        let is_so = number == 60
            && later.number == 0
            && self.are_told(told.as_slice(), later.told.as_slice());
        if is_so { Came::MadeUp } else { Came::Wrong }
    }

    // Whether the lines are told in two runs: each once; a copying tells all of them again.
    fn are_told(&self, first: &[Line], later: &[Line]) -> bool {
        match self.lines.strip_prefix(first) {
            Some(rest) => match self.job {
                Job::Begin | Job::Synchronize => later == rest,
                Job::Copy => later == self.lines,
            },
            None => false,
        }
    }

    // The first read behind the opening, of sixteen bytes each, whose failure isn't made up for, by the bytes before it.
    fn first_read(&self, rt: &impl Abort, alloc: Global) -> Option<usize> {
        let stream = Stream {
            size: 16,
            breaks: true,
            passing: u64::MAX,
        };
        for (read, _) in self.bytes.chunks(16).enumerate() {
            let end = read.saturating_mul(16);
            let front = self.bytes.get(..end).unwrap_or(b"");
            if end >= OPENED.len() && self.run(rt, alloc, front, &stream) != Came::MadeUp {
                return Some(end);
            }
        }
        if self.run(rt, alloc, self.bytes, &stream) == Came::Well {
            None
        } else {
            Some(self.bytes.len())
        }
    }

    // How many writes have to pass for the job to go well; none where the failure of one behind fewer isn't made up for.
    fn writes(&self, rt: &impl Abort, alloc: Global) -> Option<u64> {
        for passing in 0..1_000u64 {
            let stream = Stream {
                size: 4_096,
                breaks: false,
                passing,
            };
            match self.run(rt, alloc, self.bytes, &stream) {
                Came::Well => return Some(passing),
                Came::MadeUp => {}
                Came::Wrong => return None,
            }
        }
        None
    }
}

// Whether a job makes up for each read and each write that fails; it makes so many writes at least.
fn makes_up(
    rt: &impl Abort,
    alloc: Global,
    begun: MemDisk,
    asked: &[u8],
    job: &Job,
    lines: &[Line],
    least: u64,
) -> bool {
    let held = repo(rt, alloc);
    let source = stored(rt, alloc, &held);
    let bytes = served(rt, alloc, asked);
    let trial = Trial {
        source: &source,
        begun: &begun,
        bytes: bytes.as_slice(),
        job,
        lines,
    };
    let reads = trial.first_read(rt, alloc);
    let writes = trial.writes(rt, alloc);
    let _disk = source.into_disk();
    let answer = reads.is_none() && writes.is_some_and(|writes| writes >= least);
    drop((begun, held));
    answer
}

#[test]
fn an_initialisation_whose_stream_fails(rt: HostRuntime) {
    let alloc = rt.alloc();
    let disk = empty(&rt, alloc);
    assert!(rt; makes_up(&rt, alloc, disk, BEGINS, &Job::Begin, &BEGUN, 3));
}

#[test]
fn a_synchronisation_whose_stream_fails(rt: HostRuntime) {
    let alloc = rt.alloc();
    let disk = begun(&rt, alloc);
    assert!(rt; makes_up(&rt, alloc, disk, GOES_ON, &Job::Synchronize, &SYNCED, 7));
}

const COPIED: [Line; 2] = [Line::Copied(0), Line::Copied(1)];

// A mirror that is brought up to its master.
fn brought_up(rt: &impl Abort, alloc: Global) -> MemDisk {
    let bytes = served(rt, alloc, GOES_ON);
    let disk = begun(rt, alloc);
    let left = run_over(rt, alloc, disk, bytes.as_slice(), &WHOLE, &Job::Synchronize);
    assert!(rt; left.number == 0);
    left.disk
}

#[test]
fn a_copying_whose_stream_fails(rt: HostRuntime) {
    let alloc = rt.alloc();
    let disk = brought_up(&rt, alloc);
    let asked = b"( rev-proplist ( 0 ) ) ( rev-proplist ( 1 ) ) ";
    assert!(rt; makes_up(&rt, alloc, disk, asked, &Job::Copy, &COPIED, 4));
}
