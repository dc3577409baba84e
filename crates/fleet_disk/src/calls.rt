//! What a host does with the three files of a folder.
ghost use Rattle.std.specs.Prelude.{◌≡◌, ◌≤◌, ℕ, length, take, IfOk, OnOk};
ghost use Rattle.fleet_disk.specs.Image.{Image, bytes_of};
ghost use Rattle.fleet_disk.specs.Rests.{Rests};
ghost use Rattle.fleet_disk.specs.Rules.{overwritten, IsRead, Torn, CutBack, OnFile, Follows};
ghost use Rattle.fleet_disk.specs.Rules.{Goes, Stays};

use crate::disk::{DiskFault, DiskFile};

/// The open files of a folder, by the calls that a host has for them.
///
/// It is a disk but for one thing: a sync is one of a file. What the clauses say of bytes holds of an honest host. A
/// call is refused only where the host's count of failures rose, honest or not, and nobody but the host counts them.
pub trait HostCalls {
    /// The host keeps the rules, and nobody else has the files.
    ghost honest: { Self → Type 0 };

    /// What a read gives.
    ghost reads: { Self → Image };

    /// The images that a stop may leave now.
    ghost may_leave: { Self → Image → Type 0 };

    /// A number that doesn't fall from call to call.
    ghost clock: { Self → ℕ };

    /// The images that a stop at some moment since that clock might have left, during a call or between two.
    ghost left_since: { Self → ℕ → Image → Type 0 };

    /// How often a call of the host has failed.
    ghost failures: { Self → ℕ };

    /// Reads some bytes from an offset on into the front of a buffer, and answers how many: one or more where the
    /// file goes on there and the buffer isn't empty (`pread`).
    fn read_at(&mut self, file: DiskFile, at: u64, buf: &mut [u8]) -> Result<usize, DiskFault>
        ensures within { IfOk result (λ n. n ≤ length buf.old) }
        ensures bytes { honest self.old → IfOk result (λ n. IsRead
            (bytes_of file (reads self.old)) at n buf.old buf.new) }
        ensures stays { Stays honest reads may_leave clock left_since failures self.old self.new result };

    /// How many bytes a file has.
    fn length(&mut self, file: DiskFile) -> Result<u64, DiskFault>
        ensures bytes { honest self.old → IfOk result (λ n. n ≡ length (bytes_of file (reads self.old))) }
        ensures stays { Stays honest reads may_leave clock left_since failures self.old self.new result };

    /// Writes bytes over what is there, and past the end (`pwrite`, until all is written).
    fn write_all_at(&mut self, file: DiskFile, at: u64, bytes: &[u8]) -> Result<(), DiskFault>
        requires { honest self.old → at ≤ length (bytes_of file (reads self.old)) }
        ensures written { honest self.old → OnOk result (OnFile file (λ old new.
            new ≡ overwritten at bytes.now old) (reads self.old) (reads self.new)) }
        ensures left { honest self.old → Follows (OnFile file (Torn at (length bytes.now))) (may_leave self.old)
            (may_leave self.new) }
        ensures goes { Goes honest may_leave clock left_since failures self.old self.new result };

    /// Cuts a file to a length that it has or is past (`ftruncate`).
    fn truncate(&mut self, file: DiskFile, len: u64) -> Result<(), DiskFault>
        requires { honest self.old → len ≤ length (bytes_of file (reads self.old)) }
        ensures cut { honest self.old → OnOk result (OnFile file (λ old new.
            new ≡ take len old) (reads self.old) (reads self.new)) }
        ensures left { honest self.old → Follows (OnFile file (CutBack len)) (may_leave self.old) (may_leave self.new) }
        ensures goes { Goes honest may_leave clock left_since failures self.old self.new result };

    /// Makes what was written of this file last (`fdatasync`). After Ok a stop leaves of it what a read gives.
    fn sync_file(&mut self, file: DiskFile) -> Result<(), DiskFault>
        ensures durable { honest self.old → OnOk result (Rests file (reads self.old) (may_leave self.new)) }
        ensures stays { Stays honest reads may_leave clock left_since failures self.old self.new result };

    /// A stop now is one since an earlier clock.
    ghost counts_now: { (host : Self) (t : ℕ) (c : Image) → honest host → t ≤ clock host → may_leave host c
        → left_since host t c };

    /// Since this clock there is no other stop.
    ghost only_now: { (host : Self) (c : Image) → honest host → left_since host (clock host) c → may_leave host c };

    /// What a read gives is one of the images that a stop may leave.
    ghost reads_left: { (host : Self) → honest host → may_leave host (reads host) };
}
