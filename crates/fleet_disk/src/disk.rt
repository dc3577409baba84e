//! A disk as a log sees it: what a read gives, and what a stop may leave.
ghost use Rattle.std.specs.Prelude.{◌≡◌, ◌≤◌, ℕ, length, take, IfOk, OnOk};
ghost use Rattle.fleet_disk.specs.Image.{Image, bytes_of};
ghost use Rattle.fleet_disk.specs.Rules.{overwritten, IsRead, Torn, CutBack, OnFile, Follows, Only};
ghost use Rattle.fleet_disk.specs.Rules.{Goes, Stays};

use thiserror::Error;

/// A file of a disk.
#[derive(Clone, Copy, PartialEq, Eq)]
pub enum DiskFile {
    /// The entries, one after another.
    Journal,
    /// The gates that say which entries stand, of a log without sums.
    Gate,
    /// The gates with the entries' sums, of a log that has them.
    Slots,
}

/// Why a disk refused a call.
#[derive(Clone, Copy, Debug, PartialEq, Eq, Error)]
pub enum DiskFault {
    /// The device failed (31).
    #[error("device failed")]
    DeviceFailed,
}

/// Three files on a device that may fail, and that may stop at any moment.
///
/// What the clauses say of bytes holds of an honest disk, and each call keeps honesty both ways. A refusal comes
/// only where the count of failures rose, honest or not.
pub trait Disk {
    /// The disk keeps the rules.
    ghost honest: { Self → Type 0 };

    /// What a read gives.
    ghost reads: { Self → Image };

    /// The images that a stop may leave now.
    ghost may_leave: { Self → Image → Type 0 };

    /// A number that doesn't fall from call to call.
    ghost clock: { Self → ℕ };

    /// The images that a stop at some moment since that clock might have left, during a call or between two.
    ghost left_since: { Self → ℕ → Image → Type 0 };

    /// How often the device has failed.
    ghost failures: { Self → ℕ };

    /// Reads some bytes from an offset on into the front of a buffer, and answers how many: one or more where the
    /// file goes on there and the buffer isn't empty.
    fn read(&mut self, file: DiskFile, at: u64, buf: &mut [u8]) -> Result<usize, DiskFault>
        ensures within { IfOk result (λ n. n ≤ length buf.old) }
        ensures bytes { honest self.old → IfOk result (λ n. IsRead
            (bytes_of file (reads self.old)) at n buf.old buf.new) }
        ensures stays { Stays honest reads may_leave clock left_since failures self.old self.new result };

    /// How many bytes a file has.
    fn len(&mut self, file: DiskFile) -> Result<u64, DiskFault>
        ensures bytes { honest self.old → IfOk result (λ n. n ≡ length (bytes_of file (reads self.old))) }
        ensures stays { Stays honest reads may_leave clock left_since failures self.old self.new result };

    /// Writes bytes over what is there, and past the end.
    fn write_at(&mut self, file: DiskFile, at: u64, bytes: &[u8]) -> Result<(), DiskFault>
        requires { honest self.old → at ≤ length (bytes_of file (reads self.old)) }
        ensures written { honest self.old → OnOk result (OnFile file (λ old new.
            new ≡ overwritten at bytes.now old) (reads self.old) (reads self.new)) }
        ensures left { honest self.old → Follows (OnFile file (Torn at (length bytes.now))) (may_leave self.old)
            (may_leave self.new) }
        ensures goes { Goes honest may_leave clock left_since failures self.old self.new result };

    /// Cuts a file to a length that it has or is past.
    fn cut(&mut self, file: DiskFile, len: u64) -> Result<(), DiskFault>
        requires { honest self.old → len ≤ length (bytes_of file (reads self.old)) }
        ensures cut { honest self.old → OnOk result (OnFile file (λ old new.
            new ≡ take len old) (reads self.old) (reads self.new)) }
        ensures left { honest self.old → Follows (OnFile file (CutBack len)) (may_leave self.old) (may_leave self.new) }
        ensures goes { Goes honest may_leave clock left_since failures self.old self.new result };

    /// Makes what was written last. After Ok a stop leaves what a read gives.
    fn sync(&mut self) -> Result<(), DiskFault>
        ensures durable { honest self.old → OnOk result (Only (reads self.old) (may_leave self.new)) }
        ensures stays { Stays honest reads may_leave clock left_since failures self.old self.new result };

    /// A stop now is one since an earlier clock.
    ghost counts_now: { (disk : Self) (t : ℕ) (c : Image) → honest disk → t ≤ clock disk → may_leave disk c
        → left_since disk t c };

    /// Since this clock there is no other stop.
    ghost only_now: { (disk : Self) (c : Image) → honest disk → left_since disk (clock disk) c → may_leave disk c };

    /// What a read gives is one of the images that a stop may leave.
    ghost reads_left: { (disk : Self) → honest disk → may_leave disk (reads disk) };
}
