//! What a host does to open, make and close the files of folders.
ghost use Rattle.std.specs.Prelude.{◌≡◌, ℕ, List, false, true, IfOk, OnOk};
ghost use Rattle.fleet_disk.specs.FolderFiles.{AreIn, IsFound, IsHeld, Shows};
ghost use Rattle.fleet_disk.specs.Lasting.{IsSynced, KeepsNames};
ghost use Rattle.fleet_disk.specs.Lending.{FolderDisk, Lends, LendsOnly, MakesAt, MakesNone, MakesNothing};
ghost use Rattle.fleet_disk.specs.Lending.{TakesBack, There};
ghost use Rattle.fleet_disk.specs.declared.folder_files.FolderFiles.{FolderFiles as FilesOf};

use crate::disk::Disk;
use crate::folder_fault::FolderFault;
use crate::folder_files::FolderFiles;
use std::alloc::Global;

/// The single calls of a host by which the files of folders are opened, made and closed.
///
/// What the clauses say of disks holds of an honest host. A call is refused only where the host's count of failures rose
/// (31), or where memory ran out (70), honest or not.
pub trait FolderCalls {
    /// An open file.
    type File: Drop;

    /// The disk of a folder whose files are open.
    type Place: Disk + Drop;

    /// Nobody else changes the folders, each has one name, and their disks keep the rules.
    ghost honest: { Self → Type 0 };

    /// What a folder has for a disk. Files that aren't there read as empty ones do.
    ghost disk: { Self → List ℕ → FolderDisk Self.Place };

    /// Nothing is at a path.
    ghost lacks: { Self → List ℕ → Type 0 };

    /// The file is the one at this path.
    ghost is_at: { Self.File → List ℕ → Type 0 };

    /// No other opening of the file is held, in this process or in another, until it is closed.
    ghost is_held: { Self.File → Type 0 };

    /// The host answered that the file isn't empty.
    ghost has_bytes: { Self.File → Type 0 };

    /// The host made the file, or answered that it is empty.
    ghost is_new: { Self.File → Type 0 };

    /// A stop leaves what is at a path.
    ghost lasts: { Self → List ℕ → Type 0 };

    /// The files that a disk is over.
    ghost files: { Self.Place → FilesOf Self.File };

    /// How often a call of the host has failed.
    ghost failures: { Self → ℕ };

    /// Opens the file at a path to read and write it (`open`); None where nothing is there.
    fn open(&mut self, path: &str) -> Result<Option<Self::File>, FolderFault>
        ensures found { IfOk result (IsFound is_at (lacks self.new) path.now) }
        ensures makes { MakesNone honest disk lacks lasts failures self.old self.new result };

    /// Makes an empty file at a path, where nothing is (`open` with `O_CREAT` and `O_EXCL`).
    fn make(&mut self, path: &str) -> Result<Self::File, FolderFault>
        ensures at { IfOk result (λ file. is_at file path.now) }
        ensures new { IfOk result is_new }
        ensures makes { MakesAt honest disk lacks lasts failures path.now self.old self.new result };

    /// Holds a file (`flock`). It is refused where another opening holds it.
    fn hold(&mut self, file: &Self::File) -> Result<(), FolderFault>
        ensures held { OnOk result (is_held file.now) }
        ensures makes { MakesNone honest disk lacks lasts failures self.old self.new result };

    /// Whether a file has no byte (`fstat`).
    fn is_empty(&mut self, file: &Self::File) -> Result<bool, FolderFault>
        ensures bytes { IfOk result (λ empty. empty ≡ false → has_bytes file.now) }
        ensures new { IfOk result (λ empty. empty ≡ true → is_new file.now) }
        ensures makes { MakesNone honest disk lacks lasts failures self.old self.new result };

    /// Makes a folder (`mkdir`); false where something of its name is there.
    fn make_folder(&mut self, folder: &str) -> Result<bool, FolderFault>
        ensures there { honest self.old → IfOk result (λ made. made ≡ false → ¬ lacks self.old folder.now) }
        ensures makes { MakesAt honest disk lacks lasts failures folder.now self.old self.new result };

    /// Makes the names in a folder last (`fsync`).
    fn sync_folder(&mut self, folder: &str) -> Result<(), FolderFault>
        ensures synced { OnOk result (IsSynced (lasts self.new) folder.now) }
        ensures makes { MakesNone honest disk lacks lasts failures self.old self.new result };

    /// Lends the disk of a folder over those of its files that are there, which it takes. One that is lent isn't lent
    /// again. A host may refuse a folder that was moved since its journal was opened.
    fn lend(
        &mut self,
        alloc: Global,
        folder: &str,
        opened: &mut FolderFiles<Self::File>,
    ) -> Result<Self::Place, FolderFault>
        ensures lends { AreIn is_at (lacks self.old) folder.now opened.old → IsHeld is_held opened.old
            → IfOk result (Lends Self.Place.Disk honest disk self.old self.new folder.now) }
        ensures shown { AreIn is_at (lacks self.old) folder.now opened.old → honest self.old
            → IfOk result (λ place. Shows has_bytes opened.old (Self.Place.reads place)) }
        ensures files { IfOk result (λ place. files place ≡ opened.old) }
        ensures uncounted { IfOk result (λ place. Self.Place.failures place ≡ 0) }
        ensures only { LendsOnly honest disk lacks lasts failures self.old self.new result };

    /// Closes the files of a folder, and takes its disk back (`close`).
    fn close(&mut self, folder: &str, place: Self::Place)
        ensures back { TakesBack Self.Place.honest honest disk failures self.old self.new folder.now place }
        ensures nothing { MakesNothing lacks self.old self.new }
        ensures names { KeepsNames lasts self.old self.new };

    /// The disks that are there keep the rules.
    ghost keeps_rules: { (calls : Self) (folder : List ℕ) (place : Self.Place) → honest calls
        → disk calls folder ≡ There place → Self.Place.honest place };
}
