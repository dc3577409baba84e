//! The disks of folders, by the single calls of a host.
ghost use Rattle.std.specs.Prelude.{◌≡◌, IfOk, IfSome, IsSome, IsSomeAnd, IsTrue, OnOk, string_bytes};
ghost use Rattle.fleet_disk.specs.FolderFiles.{path_in, AreAll, HasBytes, IsFound, LacksEntries, Shows};
ghost use Rattle.fleet_disk.specs.Folders.{AreFound, AreMade, IsCompleted, IsCreated, IsOver, LendsAndMakes};
ghost use Rattle.fleet_disk.specs.Folders.{LendsOnlyIn, MakesAtIn, MakesFiles, MakesNoneIn};
ghost use Rattle.fleet_disk.specs.Lasting.{IsMadeToLast, LastsUnlessFull, LastsUnlessLacking};
ghost use Rattle.fleet_disk.specs.Lending.{Counts, Lends, MakesIn, Spares};
ghost use Rattle.fleet_disk.specs.declared.disk.DiskFile.{DiskFile};
ghost use Rattle.fleet_disk.specs.declared.disk.DiskFile.TheVariants.{Journal};

use crate::above::above;
use crate::disk::DiskFile;
use crate::folder_calls::FolderCalls;
use crate::folder_fault::FolderFault;
use crate::folder_files::FolderFiles;
use std::alloc::{AllocError, Global};

/// Lends the disk of a folder as it stands, and makes nothing. A file that isn't there counts as empty, and isn't held.
/// While the disk is lent nobody else has the folder: it holds the journal. No failure of the disk is counted yet. The
/// host refuses where the folder is in use or was moved meanwhile (31); it or memory (70) may refuse besides.
pub fn open_folder<C: FolderCalls>(
    calls: &mut C,
    alloc: Global,
    folder: &str,
) -> Result<C::Place, FolderFault>
    ensures lends { IfOk result (Lends C.Place.Disk C.honest C.disk calls.old calls.new folder.now) }
    ensures over { IfOk result (IsOver C.FolderCalls C.Place.Disk calls.new folder.now) }
    ensures only { LendsOnlyIn C.FolderCalls calls.old calls.new result }
{
    let files = found(calls, alloc, folder)?;
    lend(calls, alloc, folder, files)
}

/// Lends the disk of a folder as `open_folder` does, but makes the folder and its files where they are missing, so that
/// all files are open, and makes the names of new ones last. Where a file is there already and isn't empty, nothing is
/// made. The folder above has to be there.
pub fn create_folder<C: FolderCalls>(
    calls: &mut C,
    alloc: Global,
    folder: &str,
) -> Result<C::Place, FolderFault>
    ensures lends { IfOk result (Lends C.Place.Disk C.honest C.disk calls.old calls.new folder.now) }
    ensures over { IfOk result (IsOver C.FolderCalls C.Place.Disk calls.new folder.now) }
    ensures made { IfOk result (IsCreated C.FolderCalls calls.old calls.new folder.now) }
    ensures lasting { IfOk result (LastsUnlessFull C.honest C.lacks C.lasts C.Place.reads calls.old calls.new
        folder.now) }
    ensures makes { LendsAndMakes C.FolderCalls folder.now calls.old calls.new result }
{
    let files = found(calls, alloc, folder)?;
    let is_full = has_bytes(calls, &files)?;
    if is_full {
        return lend(calls, alloc, folder, files);
    }
    let files = make_all(calls, alloc, folder, files)?;
    lend(calls, alloc, folder, files)
}

/// Lends the disk of a folder as `open_folder` does, but makes `slots` where that alone is missing, and makes its name
/// last: a log that has its entries in the other two can then be written with sums. Where the journal or the gate isn't
/// there, nothing is made.
pub fn complete_folder<C: FolderCalls>(
    calls: &mut C,
    alloc: Global,
    folder: &str,
) -> Result<C::Place, FolderFault>
    ensures lends { IfOk result (Lends C.Place.Disk C.honest C.disk calls.old calls.new folder.now) }
    ensures over { IfOk result (IsOver C.FolderCalls C.Place.Disk calls.new folder.now) }
    ensures made { IfOk result (IsCompleted C.FolderCalls calls.old calls.new folder.now) }
    ensures lasting { IfOk result (LastsUnlessLacking C.honest C.lasts C.Place.reads calls.old calls.new folder.now) }
    ensures makes { LendsAndMakes C.FolderCalls folder.now calls.old calls.new result }
{
    let files = found(calls, alloc, folder)?;
    if lacks_entries(&files) {
        return lend(calls, alloc, folder, files);
    }
    let files = make_slots(calls, alloc, folder, files)?;
    lend(calls, alloc, folder, files)
}

// Lends the disk of a folder over these files.
fn lend<C: FolderCalls>(
    calls: &mut C,
    alloc: Global,
    folder: &str,
    files: FolderFiles<C::File>,
) -> Result<C::Place, FolderFault>
    requires { AreFound C.FolderCalls calls.old folder.now files }
    ensures lends { IfOk result (Lends C.Place.Disk C.honest C.disk calls.old calls.new folder.now) }
    ensures shown { C.honest calls.old → IfOk result (λ place. Shows C.has_bytes files (C.Place.reads place)) }
    ensures files { IfOk result (λ place. C.files place ≡ files) }
    ensures uncounted { IfOk result (λ place. C.Place.failures place ≡ 0) }
    ensures only { LendsOnlyIn C.FolderCalls calls.old calls.new result }
{
    let mut opened = files;
    calls.lend(alloc, folder, &mut opened)
}

// Where a folder has a file.
fn path_to(alloc: Global, folder: &str, file: DiskFile) -> Result<String, AllocError>
    ensures { IfOk result (λ path. string_bytes path ≡ path_in folder.now file) }
{
    match file {
        DiskFile::Journal => format!(in alloc; "{folder}/journal"),
        DiskFile::Gate => format!(in alloc; "{folder}/gate"),
        DiskFile::Slots => format!(in alloc; "{folder}/slots"),
    }
}

// Opens a file of a folder, where it is there.
fn opened<C: FolderCalls>(
    calls: &mut C,
    alloc: Global,
    folder: &str,
    file: DiskFile,
) -> Result<Option<C::File>, FolderFault>
    ensures found { IfOk result (IsFound C.is_at (C.lacks calls.new) (path_in folder.now file)) }
    ensures makes { MakesNoneIn C.FolderCalls calls.old calls.new result }
{
    let path = path_to(alloc, folder, file)?;
    calls.open(path.as_str())
}

// Makes a file of a folder.
fn made<C: FolderCalls>(
    calls: &mut C,
    alloc: Global,
    folder: &str,
    file: DiskFile,
) -> Result<C::File, FolderFault>
    ensures at { IfOk result (λ made. C.is_at made (path_in folder.now file)) }
    ensures new { IfOk result C.is_new }
    ensures makes { MakesFiles C.FolderCalls folder.now calls.old calls.new result }
{
    let path = path_to(alloc, folder, file)?;
    calls.make(path.as_str())
}

// Holds the journal, where it is there.
fn hold_found<C: FolderCalls>(calls: &mut C, journal: &Option<C::File>) -> Result<(), FolderFault>
    ensures held { OnOk result (IfSome journal.now C.is_held) }
    ensures makes { MakesNoneIn C.FolderCalls calls.old calls.new result }
{
    match journal {
        Some(file) => calls.hold(file),
        None => Ok(()),
    }
}

// The files of a folder that are there, of which the journal is held.
fn found<C: FolderCalls>(
    calls: &mut C,
    alloc: Global,
    folder: &str,
) -> Result<FolderFiles<C::File>, FolderFault>
    ensures found { IfOk result (AreFound C.FolderCalls calls.new folder.now) }
    ensures makes { MakesNoneIn C.FolderCalls calls.old calls.new result }
{
    let journal = opened(calls, alloc, folder, DiskFile::Journal)?;
    hold_found(calls, &journal)?;
    let gate = opened(calls, alloc, folder, DiskFile::Gate)?;
    let slots = opened(calls, alloc, folder, DiskFile::Slots)?;
    Ok(FolderFiles {
        journal,
        gate,
        slots,
    })
}

// Whether a file is there that isn't empty.
fn has_bytes<C: FolderCalls>(
    calls: &mut C,
    files: &FolderFiles<C::File>,
) -> Result<bool, FolderFault>
    ensures some { IfOk result (λ some. IsTrue some → HasBytes C.has_bytes files.now) }
    ensures none { IfOk result (λ some. ¬ IsTrue some → AreAll C.is_new files.now) }
    ensures makes { MakesNoneIn C.FolderCalls calls.old calls.new result }
{
    let journal = is_full(calls, &files.journal)?;
    let gate = is_full(calls, &files.gate)?;
    let slots = is_full(calls, &files.slots)?;
    Ok(journal || gate || slots)
}

// Whether a file is there and isn't empty.
fn is_full<C: FolderCalls>(calls: &mut C, file: &Option<C::File>) -> Result<bool, FolderFault>
    ensures some { IfOk result (λ some. IsTrue some → IsSomeAnd file.now C.has_bytes) }
    ensures none { IfOk result (λ some. ¬ IsTrue some → IfSome file.now C.is_new) }
    ensures makes { MakesNoneIn C.FolderCalls calls.old calls.new result }
{
    match file {
        Some(file) => {
            let is_empty = calls.is_empty(file)?;
            Ok(!is_empty)
        }
        None => Ok(false),
    }
}

// A file that the entries of a log without sums are in isn't there.
fn lacks_entries<F>(files: &FolderFiles<F>) -> bool
    ensures lacks { IsTrue result → LacksEntries files.now }
    ensures has { (IsTrue result → ⊥) → IsSome files.now.journal × IsSome files.now.gate }
{
    files.journal.is_none() || files.gate.is_none()
}

// The file, which is made where it is missing.
fn there<C: FolderCalls>(
    calls: &mut C,
    alloc: Global,
    folder: &str,
    file: DiskFile,
    found: Option<C::File>,
) -> Result<C::File, FolderFault>
    requires { IfSome found (λ there. C.is_at there (path_in folder.now file)) }
    ensures at { IfOk result (λ there. C.is_at there (path_in folder.now file)) }
    ensures new { IfSome found C.is_new → IfOk result C.is_new }
    ensures makes { MakesFiles C.FolderCalls folder.now calls.old calls.new result }
{
    match found {
        Some(there) => Ok(there),
        None => made(calls, alloc, folder, file),
    }
}

// The journal, which is made and held where it is missing.
fn held_journal<C: FolderCalls>(
    calls: &mut C,
    alloc: Global,
    folder: &str,
    found: Option<C::File>,
) -> Result<C::File, FolderFault>
    requires at { IfSome found (λ there. C.is_at there (path_in folder.now Journal)) }
    requires held { IfSome found C.is_held }
    ensures at { IfOk result (λ there. C.is_at there (path_in folder.now Journal)) }
    ensures held { IfOk result C.is_held }
    ensures new { IfSome found C.is_new → IfOk result C.is_new }
    ensures makes { MakesFiles C.FolderCalls folder.now calls.old calls.new result }
{
    match found {
        Some(there) => Ok(there),
        None => {
            let file = made(calls, alloc, folder, DiskFile::Journal)?;
            calls.hold(&file)?;
            Ok(file)
        }
    }
}

// Makes the folder where it is missing. Its name lasts once the folder above is synced.
fn make_missing<C: FolderCalls>(calls: &mut C, folder: &str) -> Result<(), FolderFault>
    ensures name { C.honest calls.old
        → OnOk result (C.lacks calls.old folder.now → C.lasts calls.new folder.now) }
    ensures makes { MakesAtIn C.FolderCalls folder.now calls.old calls.new result }
{
    let is_made = calls.make_folder(folder)?;
    if is_made {
        return calls.sync_folder(above(folder));
    }
    Ok(())
}

// The same files, with those made that are missing, in a folder that is made where it is. The journal is held before
// another is made, so that of two processes that begin at once one alone goes on.
fn make_files<C: FolderCalls>(
    calls: &mut C,
    alloc: Global,
    folder: &str,
    files: FolderFiles<C::File>,
) -> Result<FolderFiles<C::File>, FolderFault>
    requires { AreFound C.FolderCalls calls.old folder.now files }
    ensures made { IfOk result (AreMade C.FolderCalls calls.new folder.now files) }
    ensures makes { MakesFiles C.FolderCalls folder.now calls.old calls.new result }
{
    let FolderFiles {
        journal,
        gate,
        slots,
    } = files;
    let journal = held_journal(calls, alloc, folder, journal)?;
    let gate = there(calls, alloc, folder, DiskFile::Gate, gate)?;
    let slots = there(calls, alloc, folder, DiskFile::Slots, slots)?;
    Ok(FolderFiles {
        journal: Some(journal),
        gate: Some(gate),
        slots: Some(slots),
    })
}

// The same, with the names made to last.
fn make_all<C: FolderCalls>(
    calls: &mut C,
    alloc: Global,
    folder: &str,
    files: FolderFiles<C::File>,
) -> Result<FolderFiles<C::File>, FolderFault>
    requires { AreFound C.FolderCalls calls.old folder.now files }
    ensures made { IfOk result (AreMade C.FolderCalls calls.new folder.now files) }
    ensures lasting { OnOk result (IsMadeToLast C.honest C.lacks C.lasts calls.old calls.new folder.now) }
    ensures nothing_else { MakesIn C.lacks folder.now calls.old calls.new }
    ensures spares { Spares C.honest C.disk C.failures calls.old calls.new }
    ensures cause { Counts C.failures calls.old calls.new result }
{
    make_missing(calls, folder)?;
    let files = make_files(calls, alloc, folder, files)?;
    calls.sync_folder(folder)?;
    Ok(files)
}

// The same files, with `slots`, which is made where it is missing. The name is made to last also where an earlier call
// was stopped before it came to that.
fn make_slots<C: FolderCalls>(
    calls: &mut C,
    alloc: Global,
    folder: &str,
    files: FolderFiles<C::File>,
) -> Result<FolderFiles<C::File>, FolderFault>
    requires found { AreFound C.FolderCalls calls.old folder.now files }
    requires journal { IsSome files.journal }
    requires gate { IsSome files.gate }
    ensures made { IfOk result (AreMade C.FolderCalls calls.new folder.now files) }
    ensures lasting { OnOk result ((file : DiskFile) → C.lasts calls.new (path_in folder.now file)) }
    ensures makes { MakesFiles C.FolderCalls folder.now calls.old calls.new result }
{
    let FolderFiles {
        journal,
        gate,
        slots,
    } = files;
    let slots = there(calls, alloc, folder, DiskFile::Slots, slots)?;
    calls.sync_folder(folder)?;
    Ok(FolderFiles {
        journal,
        gate,
        slots: Some(slots),
    })
}
