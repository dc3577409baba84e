//! A mirror on a disk that several threads share: jobs bring it up to date, one holder of its sync lock at a time, and
//! readers wait for nobody.
//!
//! [`MirrorBook`] is what lies under the lock: a store with what its row shows of it (`store_share::MasterBook`), the
//! calls that were taken since it was opened, the running seat whose call took the sync lock, the jobs that run, and four
//! ledgers, which count what is merged, what is being copied, the head, and the holder's place. [`MirrorShare`] is the lock
//! with the row beside it. A job has a [`JobSeat`], a reader a `store_share::ReaderSeat`. What a reader's seat has seen it
//! reads for good, without a lock and without memory.
//!
//! A job's seat that holds the sync lock has the whole share of each ledger. So what no clause can tell of a lock is told of
//! the seat: while it holds, its look tells what its own calls left, and a lawful call of its job is never refused for its
//! lock (59) or its turn (61), whoever calls between. The name of a share has its row's cells and its ledgers
//! ([`MirrorName`]).
//!
//! ```text
//! let share = MirrorShare::<L, D>::of(alloc, OpenedMirror::of(alloc, store)?);
//! let seat = share.enter_job(rt, alloc, &token)?;
//! let mut ports = JobPorts::new(alloc, master, SeatMirror::new(rt, alloc, &share, seat)?, report);
//! run_sync_at(alloc, &mut ports, token, false)?;
//! share.leave(rt, ports.into_parts().1.into_seat());
//! ```
//!
//! A step makes its growths, among them the kept call and the box of the revision, before the first call of the
//! device; then it writes its entry, shows the revision in its cell, and answers.
#![tactic(auto)]

pub use book::MirrorBook;
pub use name::MirrorName;
pub use opened::OpenedMirror;
pub use port::SeatMirror;
pub use runs::{run_copy_revprops_at, run_sync_at};
pub use seat::JobSeat;
pub use share::MirrorShare;

mod blanks;
mod book;
mod calls;
mod entries;
mod faults;
mod hand;
mod hands;
mod jobs;
pub mod law;
mod ledger;
mod ledgers;
mod name;
mod opened;
mod port;
mod runs;
mod seat;
mod share;
