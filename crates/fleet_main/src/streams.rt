//! The standard streams of a process that was started without one of them.
//!
//! A process knows its open files by numbers, of which 0 to 2 are its standard streams, and the host gives a file that
//! is opened the lowest number that is free. So a process that is started with one closed, as by `svnfleet load DIR
//! <&-`, would have its next file there: a folder's file would be read as the input, or take what is printed. The null
//! device is opened there first, and the process goes on as with `</dev/null` or `>/dev/null`.
ghost use Rattle.std.specs.Prelude.{◌<◌, ℕ, ⊤, IfErr, OnOk};
ghost use Rattle.std.specs.declared.io.Error.{Error as ErrorOf};

use std::fs::OpenOptions;
use std::io;
use std::os::fd::{AsRawFd, IntoRawFd};

// The last of the standard streams.
const STANDARD_ERROR: i32 = 2;

/// The numbers by which a process knows its open files.
pub trait Descriptors {
    /// The number is that of an open file.
    ghost is_open: { Self → ℕ → Type 0 };

    /// The host answered a call by this error.
    ghost has_failed_by: { Self → ErrorOf → Type 0 };

    /// Opens the null device, for reading and writing: where a standard stream is closed the lowest of them is open
    /// then, and the others are as they were.
    fn open_null(&mut self) -> io::Result<()>
        ensures lowest { OnOk result ((n : ℕ) → n < 3 → ((m : ℕ) → m < n → is_open self.old m) → is_open self.new n) }
        ensures cause { IfErr result (has_failed_by self.new) };
}

/// The numbers that the host gives.
#[derive(Drop)]
pub struct HostDescriptors<'a> {
    rt: &'a HostRuntime,
}

impl<'a> HostDescriptors<'a> {
    /// Those of this process.
    pub fn new(rt: &'a HostRuntime) -> HostDescriptors<'a> {
        HostDescriptors { rt }
    }
}

impl<'a> Descriptors for HostDescriptors<'a> {
    // The library says nothing of the numbers that a host gives.
    ghost is_open = { λ descriptors n. ⊤ };

    ghost has_failed_by = { λ descriptors error. ⊤ };

    fn open_null(&mut self) -> io::Result<()> {
        let null = OpenOptions::new()
            .read(true)
            .write(true)
            .open(self.rt, "/dev/null")?;
        // A number that is let go stays open until the process ends.
        if null.as_raw_fd() <= STANDARD_ERROR {
            let _standard = null.into_raw_fd();
        }
        Ok(())
    }
}

/// Opens the null device in place of each standard stream that is closed. Then all three are open, and a file that is
/// opened later is none of them. The error is the host's.
pub fn fill_streams<D: Descriptors>(descriptors: &mut D) -> io::Result<()>
    ensures open { OnOk result ((n : ℕ) → n < 3 → D.is_open descriptors.new n) }
    ensures cause { IfErr result (D.has_failed_by descriptors.new) }
{
    descriptors.open_null()?; // standard input
    descriptors.open_null()?; // standard output
    descriptors.open_null()?; // standard error
    Ok(())
}
