//! What is done in a folder of the host, each with what it comes to, so that a table of them is a test.

use crate::disk_tests::goes_round;
use crate::steps::{Step, first_wrong};
use fleet_disk::{
    FolderFault, HeldFiles, HostDisk, StdFiles, StdFolders, complete_folder, create_folder,
    open_folder,
};
use std::alloc::Global;
use std::fs::{File, OpenOptions};
use std::io::Write;
use std::{fs, io};

/// Something that is done in a folder, and what it comes to.
#[derive(Clone, Copy)]
pub(crate) enum Deed<'a> {
    /// The folder is there, and empty.
    Empty,
    /// A file with these bytes is put at a path.
    Put(&'a str, &'a [u8]),
    /// The file at a path is taken away.
    Take(&'a str),
    /// Nothing is at a path.
    Missing(&'a str),
    /// So many bytes are at a path.
    Has(&'a str, u64),
    /// The folder's disk is made, opened or completed, and these calls come to what they say.
    Made(&'a [Step<'a>]),
    Opened(&'a [Step<'a>]),
    Completed(&'a [Step<'a>]),
    /// The folder's disk is made, and goes round.
    Round,
    /// The folder's disk is neither opened nor made.
    Refused,
    /// The folder is taken away.
    Gone,
}

type Folder = HostDisk<StdFiles<File>>;

/// The disk of a folder, which is made where it is missing.
pub(crate) fn made_disk<R: HeldFiles>(
    host: &R,
    alloc: Global,
    folder: &str,
) -> Result<HostDisk<StdFiles<R::File>>, FolderFault> {
    create_folder(&mut StdFolders::new(host), alloc, folder)
}

/// The disk of a folder.
pub(crate) fn opened_disk<R: HeldFiles>(
    host: &R,
    alloc: Global,
    folder: &str,
) -> Result<HostDisk<StdFiles<R::File>>, FolderFault> {
    open_folder(&mut StdFolders::new(host), alloc, folder)
}

/// The disk of a folder, with its slots.
pub(crate) fn completed_disk<R: HeldFiles>(
    host: &R,
    alloc: Global,
    folder: &str,
) -> Result<HostDisk<StdFiles<R::File>>, FolderFault> {
    complete_folder(&mut StdFolders::new(host), alloc, folder)
}

/// An empty folder of this name.
pub(crate) fn empty_folder(rt: &HostRuntime, folder: &str) -> io::Result<()> {
    let _missing = fs::remove_dir_all(rt, folder);
    fs::create_dir(rt, folder)
}

fn put(rt: &HostRuntime, path: &str, bytes: &[u8]) -> io::Result<()> {
    let mut file = OpenOptions::new().write(true).create(true).open(rt, path)?;
    file.write_all(bytes)
}

// How many bytes are at the path; None where nothing is.
fn length(rt: &HostRuntime, path: &str) -> Option<u64> {
    match fs::metadata(rt, path) {
        Ok(found) => Some(found.len()),
        Err(_) => None,
    }
}

// Whether there is a disk, and its calls come to what they say.
fn goes(disk: Result<Folder, FolderFault>, steps: &[Step<'_>]) -> bool {
    match disk {
        Ok(mut disk) => first_wrong(&mut disk, steps).is_none(),
        Err(_) => false,
    }
}

// Whether a deed comes to what it says.
fn comes(rt: &HostRuntime, folder: &str, deed: &Deed<'_>) -> bool {
    match *deed {
        Deed::Empty => empty_folder(rt, folder).is_ok(),
        Deed::Put(path, bytes) => put(rt, path, bytes).is_ok(),
        Deed::Take(path) => fs::remove_file(rt, path).is_ok(),
        Deed::Missing(path) => length(rt, path).is_none(),
        Deed::Has(path, count) => length(rt, path) == Some(count),
        Deed::Made(steps) => goes(made_disk(rt, rt.alloc(), folder), steps),
        Deed::Opened(steps) => goes(opened_disk(rt, rt.alloc(), folder), steps),
        Deed::Completed(steps) => goes(completed_disk(rt, rt.alloc(), folder), steps),
        Deed::Round => match made_disk(rt, rt.alloc(), folder) {
            Ok(mut disk) => goes_round(&mut disk),
            Err(_) => false,
        },
        Deed::Refused => {
            !goes(opened_disk(rt, rt.alloc(), folder), &[])
                && !goes(made_disk(rt, rt.alloc(), folder), &[])
        }
        Deed::Gone => fs::remove_dir_all(rt, folder).is_ok(),
    }
}

/// The first deed in a folder that doesn't come to what it says.
pub(crate) fn first_undone(rt: &HostRuntime, folder: &str, deeds: &[Deed<'_>]) -> Option<u64> {
    for (number, deed) in deeds.iter().enumerate() {
        if !comes(rt, folder, deed) {
            return Some(number as u64);
        }
    }
    None
}
