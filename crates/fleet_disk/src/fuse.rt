//! A disk whose calls fail after a number of them.
ghost use Rattle.std.specs.Prelude.{◌≡◌, ◌≤◌, ◌+◌, length, take, IfOk, OnOk};
ghost use Rattle.fleet_disk.specs.Fused.{inner_of, passing_of, fuse_of, Burns, GoesIn, Passes, StaysIn};
ghost use Rattle.fleet_disk.specs.Image.{bytes_of};
ghost use Rattle.fleet_disk.specs.Rules.{overwritten, IsRead, Torn, CutBack, OnFile, Follows, Only};

use crate::disk::{Disk, DiskFault, DiskFile};

/// How often a disk fails once its calls have passed.
#[derive(Clone, Copy, PartialEq, Eq)]
pub enum Fuse {
    /// One call fails, and the later ones pass.
    Once,
    /// Each later call fails.
    ForGood,
    /// No call fails any more.
    Spent,
}

/// Another disk, of whose calls a number pass before one, or each later one, fails and leaves that disk alone.
#[derive(Drop)]
pub struct FuseDisk<D: Disk> {
    inner: D,
    left: u64,
    fuse: Fuse,
    failures: u64,
}

impl<D: Disk> FuseDisk<D> {
    /// This many calls pass; then one fails, or each, as the fuse says.
    pub fn new(inner: D, calls: u64, fuse: Fuse) -> FuseDisk<D>
        ensures inner { inner_of result ≡ inner }
        ensures calls { passing_of result ≡ calls }
        ensures fuse { fuse_of result ≡ fuse }
    {
        FuseDisk {
            inner,
            left: calls,
            fuse,
            failures: 0,
        }
    }

    /// The disk inside.
    pub fn into_inner(self) -> D
        ensures { result ≡ inner_of self }
    {
        let FuseDisk {
            inner,
            left: _,
            fuse: _,
            failures: _,
        } = self;
        inner
    }

    // The next call passes; else its failure is counted.
    fn passes(&mut self) -> bool
        ensures { Passes self.old self.new result }
    {
        if self.left > 0 {
            self.left -= 1;
            return true;
        }
        match self.fuse {
            Fuse::Spent => return true,
            Fuse::Once => self.fuse = Fuse::Spent,
            Fuse::ForGood => {}
        }
        self.failures = self.failures.saturating_add(1);
        false
    }
}

impl<D: Disk> Disk for FuseDisk<D> {
    ghost honest = { λ disk. D.honest disk.inner };

    ghost reads = { λ disk. D.reads disk.inner };

    ghost may_leave = { λ disk. D.may_leave disk.inner };

    ghost clock = { λ disk. D.clock disk.inner };

    ghost left_since = { λ disk. D.left_since disk.inner };

    ghost failures = { λ disk. D.failures disk.inner + disk.failures };

    ghost counts_now = { λ disk t c. D.counts_now disk.inner t c };

    ghost only_now = { λ disk c. D.only_now disk.inner c };

    ghost reads_left = { λ disk. D.reads_left disk.inner };

    fn read(&mut self, file: DiskFile, at: u64, buf: &mut [u8]) -> Result<usize, DiskFault>
        ensures within { IfOk result (λ n. n ≤ length buf.old) }
        ensures bytes { D.honest self.old.inner → IfOk result (λ n. IsRead
            (bytes_of file (D.reads self.old.inner)) at n buf.old buf.new) }
        ensures stays { StaysIn D.Disk self.old self.new result }
        ensures burns { Burns D.failures self.old self.new result }
    {
        if !self.passes() {
            return Err(DiskFault::DeviceFailed);
        }
        self.inner.read(file, at, buf)
    }

    fn len(&mut self, file: DiskFile) -> Result<u64, DiskFault>
        ensures bytes { D.honest self.old.inner
            → IfOk result (λ n. n ≡ length (bytes_of file (D.reads self.old.inner))) }
        ensures stays { StaysIn D.Disk self.old self.new result }
        ensures burns { Burns D.failures self.old self.new result }
    {
        if !self.passes() {
            return Err(DiskFault::DeviceFailed);
        }
        self.inner.len(file)
    }

    fn write_at(&mut self, file: DiskFile, at: u64, bytes: &[u8]) -> Result<(), DiskFault>
        requires { D.honest self.old.inner → at ≤ length (bytes_of file (D.reads self.old.inner)) }
        ensures written { D.honest self.old.inner → OnOk result (OnFile file (λ old new.
            new ≡ overwritten at bytes.now old) (D.reads self.old.inner) (D.reads self.new.inner)) }
        ensures left { D.honest self.old.inner → Follows (OnFile file (Torn at (length bytes.now)))
            (D.may_leave self.old.inner) (D.may_leave self.new.inner) }
        ensures goes { GoesIn D.Disk self.old self.new result }
        ensures burns { Burns D.failures self.old self.new result }
    {
        if !self.passes() {
            return Err(DiskFault::DeviceFailed);
        }
        self.inner.write_at(file, at, bytes)
    }

    fn cut(&mut self, file: DiskFile, len: u64) -> Result<(), DiskFault>
        requires { D.honest self.old.inner → len ≤ length (bytes_of file (D.reads self.old.inner)) }
        ensures cut { D.honest self.old.inner → OnOk result (OnFile file (λ old new.
            new ≡ take len old) (D.reads self.old.inner) (D.reads self.new.inner)) }
        ensures left { D.honest self.old.inner → Follows (OnFile file (CutBack len)) (D.may_leave self.old.inner)
            (D.may_leave self.new.inner) }
        ensures goes { GoesIn D.Disk self.old self.new result }
        ensures burns { Burns D.failures self.old self.new result }
    {
        if !self.passes() {
            return Err(DiskFault::DeviceFailed);
        }
        self.inner.cut(file, len)
    }

    fn sync(&mut self) -> Result<(), DiskFault>
        ensures durable { D.honest self.old.inner
            → OnOk result (Only (D.reads self.old.inner) (D.may_leave self.new.inner)) }
        ensures stays { StaysIn D.Disk self.old self.new result }
        ensures burns { Burns D.failures self.old self.new result }
    {
        if !self.passes() {
            return Err(DiskFault::DeviceFailed);
        }
        self.inner.sync()
    }
}
