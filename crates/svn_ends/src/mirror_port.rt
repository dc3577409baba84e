//! The port over a mirror's share.

ghost use Rattle.std.specs.Prelude.{◌≡◌, true, IfOk};
ghost use Rattle.store_share.specs.Seats.{known_by, seen_by};
ghost use Rattle.svn_ends.specs.Ports.{seat_of, takes_none};
ghost use Rattle.svn_ends.specs.Shown.{MirrorShows};

use crate::port::SharePort;
use fleet_disk::Disk;
use mirror_share::{MirrorName, MirrorShare};
use std::alloc::{AllocError, Global};
use std::sync::Wait;
use store_share::RowName;

/// A session's port over a mirror's share, which it only reads: a mirror is served while its jobs bring it up.
pub type MirrorSharePort<'a, R, L, D> = SharePort<'a, R, L, MirrorShare<L, D>>;

/// The port of a session over a mirror's share, whose seat has seen what is shown now. It takes no changes. Only want of
/// memory (70) refuses it.
pub fn over_mirror<'a, R: Wait, L: MirrorName, D: Disk>(
    rt: &'a R,
    alloc: Global,
    share: &'a MirrorShare<L, D>,
) -> Result<MirrorSharePort<'a, R, L, D>, AllocError>
    ensures mirror { IfOk result (λ p. takes_none p ≡ true) }
    ensures shown { IfOk result (λ p. MirrorShows share.now (known_by (seat_of p)) (seen_by (seat_of p))) }
{
    SharePort::new(rt, alloc, share, true)
}
