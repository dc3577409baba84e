//! The texts of refusals.
ghost use Rattle.std.specs.Prelude.{◌≡◌, ◌++◌, false, Some, IfOk, string_bytes};
ghost use Rattle.std.specs.Fmt.{DisplaysOnOk};
ghost use Rattle.std.specs.Option.{option_map};
ghost use Rattle.sync_core.specs.Faults.{fault_line, fault_text, tells_more};
ghost use Rattle.sync_core.specs.declared.fault.SyncFault.TheVariants.{Inconsistent};

use crate::fault::SyncFault;
use node_base::{RevNo, ToldNumber, texts};
use std::alloc::{AllocError, Global};
use std::fmt;

impl SyncFault {
    /// The line that a program prints for it, with its line end.
    pub fn line(&self, alloc: Global) -> Result<String, AllocError>
        ensures { IfOk result (λ s. string_bytes s ≡ fault_line self.now) }
    {
        let number = self.number();
        format!(in alloc; "svnfleet: {number} {self}\n")
    }

    /// The text of a refusal that tells no more than that it is this one.
    fn fixed_text(&self) -> &'static str
        ensures { tells_more self.now ≡ false → result.now ≡ fault_text self.now }
    {
        match self {
            SyncFault::NotInitialised => texts::NOT_INITIALISED,
            SyncFault::AlreadyInitialised => texts::ALREADY_INITIALISED,
            SyncFault::NotEmpty => texts::NOT_EMPTY,
            SyncFault::WrongMaster => texts::WRONG_MASTER,
            SyncFault::NotHolder => texts::NOT_HOLDER,
            SyncFault::OutOfTurn => texts::OUT_OF_TURN,
            SyncFault::OutOfMemory => texts::OUT_OF_MEMORY,
            _ => "",
        }
    }
}

impl fmt::Display for SyncFault {
    ghost use Rattle.std.specs.Prelude.{Some};
    ghost use Rattle.sync_core.specs.Faults.{fault_text};

    ghost output = { λ f. Some (fault_text f) };

    /// Its text, without a line end.
    fn fmt<W: fmt::Write>(&self, f: &mut fmt::Formatter<W>) -> fmt::Result {
        match self {
            SyncFault::LockHeld(token) => write_told("the sync lock is held by ", token, "", f),
            SyncFault::HolderRunning(token) => write_told("the holder ", token, " is running", f),
            SyncFault::Inconsistent {
                merged,
                copying,
                head,
            } => write_inconsistent(merged, copying, *head, f),
            SyncFault::NotYetCopied(number) => {
                write_told("revision ", number, " is not copied yet", f)
            }
            SyncFault::MasterFailed(text) => write_told("master: ", text, "", f),
            SyncFault::Other(refusal) => write!(f, "{refusal}"),
            other => f.write_str(other.fixed_text()),
        }
    }
}

// Writes what a refusal tells, between two texts.
fn write_told<T: fmt::Display, W: fmt::Write>(
    before: &str,
    told: &T,
    after: &str,
    f: &mut fmt::Formatter<W>,
) -> fmt::Result
    ensures { DisplaysOnOk W.write_str_gives f.old result (option_map (λ t.
        before.now ++ t ++ after.now) (T.output told.now)) f.new }
{
    write!(f, "{before}{told}{after}")
}

// Writes that a mirror rests in no shape.
fn write_inconsistent<W: fmt::Write>(
    merged: &ToldNumber,
    copying: &ToldNumber,
    head: RevNo,
    f: &mut fmt::Formatter<W>,
) -> fmt::Result
    ensures { DisplaysOnOk W.write_str_gives f.old result (Some
        (fault_text (Inconsistent merged.now copying.now head))) f.new }
{
    write!(
        f,
        "inconsistent: merged {merged}, copying {copying}, head {head}"
    )
}
