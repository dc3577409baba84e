//! Folders that lend their disks and take them back.
ghost use Rattle.std.specs.Prelude.{◌≡◌, ◌≤◌, ℕ, List, IfOk, IfErr, OnErr};
ghost use Rattle.fleet_disk.specs.Lasting.{KeepsNames, LastsUnlessFull, LastsUnlessLacking};
ghost use Rattle.fleet_disk.specs.Lending.{FolderDisk, IsCounted, Lends, MakesIn, MakesNothing};
ghost use Rattle.fleet_disk.specs.Lending.{OthersStay, Spares, Lent, There};

use fleet_disk::{Disk, FolderFault};
use std::alloc::Global;

/// Folders, each of which lends its disk and takes it back.
///
/// While a disk is lent its folder has none; when it is back, the folder's disk is what came back. What the clauses say
/// of disks holds of honest folders. A folder lends no disk only where the count of failures rose, or where memory ran
/// out, honest or not.
pub trait Folders {
    /// The disk of a folder.
    type Place: Disk + Drop;

    /// Nobody else changes the folders, each has one name, and their disks keep the rules.
    ghost honest: { Self → Type 0 };

    /// What a folder has for a disk.
    ghost disk: { Self → List ℕ → FolderDisk Self.Place };

    /// Nothing is at a path.
    ghost lacks: { Self → List ℕ → Type 0 };

    /// A stop leaves what is at a path.
    ghost lasts: { Self → List ℕ → Type 0 };

    /// How often the host has failed.
    ghost failures: { Self → ℕ };

    /// Lends the disk of a folder as it stands; nothing is made. A disk that is lent isn't lent again.
    fn open(&mut self, alloc: Global, folder: &str) -> Result<Self::Place, FolderFault>
        ensures lends { IfOk result (Lends Self.Place.Disk honest disk self.old self.new folder.now) }
        ensures nothing { MakesNothing lacks self.old self.new }
        ensures names { KeepsNames lasts self.old self.new }
        ensures same { OnErr result (Spares honest disk failures self.old self.new) }
        ensures later { failures self.old ≤ failures self.new }
        ensures cause { IfErr result (IsCounted (failures self.old) (failures self.new)) };

    /// The same of a folder whose entries are to be given their sums: what they will be in is made beside the files that
    /// have them, and nothing where these aren't there. So the disk is the one that stands there. A stop leaves the
    /// folder's files unless the journal or the gate is empty.
    fn complete(&mut self, alloc: Global, folder: &str) -> Result<Self::Place, FolderFault>
        ensures lends { IfOk result (Lends Self.Place.Disk honest disk self.old self.new folder.now) }
        ensures lasting { IfOk result (LastsUnlessLacking honest lasts Self.Place.reads self.old self.new folder.now) }
        ensures nothing_else { MakesIn lacks folder.now self.old self.new }
        ensures same { OnErr result (Spares honest disk failures self.old self.new) }
        ensures later { failures self.old ≤ failures self.new }
        ensures cause { IfErr result (IsCounted (failures self.old) (failures self.new)) };

    /// The same of a folder that is made where it is missing, as its files are where they are empty; the folder above
    /// has to be there. A stop leaves what is made unless the disk has bytes.
    fn create(&mut self, alloc: Global, folder: &str) -> Result<Self::Place, FolderFault>
        ensures lends { IfOk result (Lends Self.Place.Disk honest disk self.old self.new folder.now) }
        ensures lasting { IfOk result (LastsUnlessFull honest lacks lasts Self.Place.reads self.old self.new
            folder.now) }
        ensures nothing_else { MakesIn lacks folder.now self.old self.new }
        ensures same { OnErr result (Spares honest disk failures self.old self.new) }
        ensures later { failures self.old ≤ failures self.new }
        ensures cause { IfErr result (IsCounted (failures self.old) (failures self.new)) };

    /// Takes the disk of a folder back.
    fn close(&mut self, folder: &str, place: Self::Place)
        ensures back { honest self.old → disk self.old folder.now ≡ Lent → disk self.new folder.now ≡ There place }
        ensures others { honest self.old → disk self.old folder.now ≡ Lent
            → OthersStay folder.now (disk self.old) (disk self.new) }
        ensures honest { honest self.old → Self.Place.honest place → honest self.new }
        ensures nothing { MakesNothing lacks self.old self.new }
        ensures names { KeepsNames lasts self.old self.new }
        ensures later { failures self.old ≤ failures self.new };

    /// The disks that are there keep the rules.
    ghost keeps_rules: { (folders : Self) (folder : List ℕ) (place : Self.Place) → honest folders
        → disk folders folder ≡ There place → Self.Place.honest place };
}
