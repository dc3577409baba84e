//! Folders that are opened, made and completed by the calls of a host that keeps the rules.

use crate::one_folder::OneFolder;
use fleet_disk::{
    Disk, DiskFile, FolderCalls, FolderFault, MemDisk, complete_folder, create_folder, open_folder,
};
use std::alloc::Global;

// Whether the folder's journal has so many bytes, by a disk that is lent and given back.
fn has<C: FolderCalls>(calls: &mut C, alloc: Global, len: u64) -> bool {
    let Ok(mut disk) = open_folder(calls, alloc, "folder") else {
        return false;
    };
    let found = disk.len(DiskFile::Journal);
    calls.close("folder", disk);
    found == Ok(len)
}

// Whether two bytes are written behind a folder's journal, by a disk that was lent and is given back.
fn grows<C: FolderCalls>(calls: &mut C, lent: Result<C::Place, FolderFault>) -> bool {
    let Ok(mut disk) = lent else {
        return false;
    };
    let done = match disk.len(DiskFile::Journal) {
        Ok(len) => disk.write_at(DiskFile::Journal, len, b"ab").is_ok(),
        Err(_) => false,
    };
    let synced = disk.sync().is_ok();
    calls.close("folder", disk);
    done && synced
}

// What is written on a disk that was lent is there when it is lent again, and only then it is lent again.
#[test]
fn a_folder_lends_its_disk_and_takes_it_back(rt: HostRuntime) {
    let alloc = rt.alloc();
    let mut calls = OneFolder::new(MemDisk::new(alloc));
    assert!(rt; has(&mut calls, alloc, 0));
    let opened = open_folder(&mut calls, alloc, "folder");
    assert!(rt; opened.is_ok() && open_folder(&mut calls, alloc, "folder").is_err());
    assert!(rt; grows(&mut calls, opened) && has(&mut calls, alloc, 2));
    let made = create_folder(&mut calls, alloc, "folder");
    assert!(rt; grows(&mut calls, made) && has(&mut calls, alloc, 4));
    let completed = complete_folder(&mut calls, alloc, "folder");
    assert!(rt; grows(&mut calls, completed) && has(&mut calls, alloc, 6));
    assert!(rt; open_folder(&mut calls, alloc, "another").is_err());
}
