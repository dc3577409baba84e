//! The line that tells a refusal. Writing it takes no memory.
ghost use Rattle.std.specs.Prelude.{◌++◌, [], OnOk, OnErr};
ghost use Rattle.node_base.specs.Refusals.{fault_line, inconsistent_text, refusal_text, shown_token, told_text};
ghost use Rattle.fleet_engines.specs.Streams.{FailedIn, OnlyPeerFails, TellsFailure, Writes};

use crate::stream::{write, write_count, write_parts};
use byte_streams::Output;
use node_base::{Refusal, RevNo, ToldNumber, shown_byte};

// Writes a token as it is printed.
fn write_shown<O: Output>(output: &mut O, token: &[u8]) -> Result<(), Refusal>
    ensures ok { OnOk result (Writes O.contents output.old output.new (shown_token token.now)) }
    ensures peer { TellsFailure O.failures output.old output.new result }
    ensures failed { OnErr result (FailedIn O.failures output.old output.new) }
    ensures only_peer { OnlyPeerFails result }
{
    for byte in token {
        write(output, &[shown_byte(*byte)])?;
    }
    Ok(())
}

// Writes a token between two texts.
fn write_token<O: Output>(
    output: &mut O,
    before: &[u8],
    token: &[u8],
    after: &[u8],
) -> Result<(), Refusal>
    ensures ok { OnOk result (Writes O.contents output.old output.new
        (before.now ++ (shown_token token.now ++ after.now))) }
    ensures peer { TellsFailure O.failures output.old output.new result }
    ensures failed { OnErr result (FailedIn O.failures output.old output.new) }
    ensures only_peer { OnlyPeerFails result }
{
    write(output, before)?;
    write_shown(output, token)?;
    write(output, after)
}

// Writes what is told of a number between two texts.
fn write_told<O: Output>(
    output: &mut O,
    before: &[u8],
    number: &ToldNumber,
    after: &[u8],
) -> Result<(), Refusal>
    ensures ok { OnOk result (Writes O.contents output.old output.new
        (before.now ++ (told_text number.now ++ after.now))) }
    ensures peer { TellsFailure O.failures output.old output.new result }
    ensures failed { OnErr result (FailedIn O.failures output.old output.new) }
    ensures only_peer { OnlyPeerFails result }
{
    match number {
        ToldNumber::Missing => write_parts(output, before, b"-", after),
        ToldNumber::Spelt(number) => write_count(output, before, *number, after),
        ToldNumber::Huge(digits) => write_token(output, before, digits.as_slice(), after),
    }
}

// Writes that a mirror's properties of its synchronisation fit no shape in which it rests.
fn write_inconsistent<O: Output>(
    output: &mut O,
    merged: &ToldNumber,
    copying: &ToldNumber,
    head: RevNo,
) -> Result<(), Refusal>
    ensures ok { OnOk result (Writes O.contents output.old output.new (inconsistent_text merged.now copying.now
        head)) }
    ensures peer { TellsFailure O.failures output.old output.new result }
    ensures failed { OnErr result (FailedIn O.failures output.old output.new) }
    ensures only_peer { OnlyPeerFails result }
{
    write_told(output, b"inconsistent: merged ", merged, b", copying ")?;
    write_told(output, b"", copying, b", head ")?;
    write_count(output, b"", u64::from(head.get()), b"")
}

// Writes the text of a refusal.
fn write_text<O: Output>(output: &mut O, refusal: &Refusal) -> Result<(), Refusal>
    ensures ok { OnOk result (Writes O.contents output.old output.new (refusal_text refusal.now)) }
    ensures peer { TellsFailure O.failures output.old output.new result }
    ensures failed { OnErr result (FailedIn O.failures output.old output.new) }
    ensures only_peer { OnlyPeerFails result }
{
    match refusal {
        Refusal::Behind(head) => {
            write_count(
                output,
                b"the base is not the head ",
                u64::from(head.get()),
                b"",
            )
        }
        Refusal::Damaged(entry) => write_count(output, b"entry ", *entry, b" is damaged"),
        Refusal::LockHeld(token) => {
            write_token(output, b"the sync lock is held by ", token.as_slice(), b"")
        }
        Refusal::HolderRunning(token) => {
            write_token(output, b"the holder ", token.as_slice(), b" is running")
        }
        Refusal::Inconsistent {
            merged,
            copying,
            head,
        } => write_inconsistent(output, merged, copying, *head),
        Refusal::NotYetCopied(number) => write_count(
            output,
            b"revision ",
            u64::from(number.get()),
            b" is not copied yet",
        ),
        Refusal::MasterFailed(text) => {
            write_parts(output, b"master: ", text.as_str().as_bytes(), b"")
        }
        other => write(output, other.fixed_text().as_bytes()),
    }
}

/// Writes the line that tells a refusal, `svnfleet: NUMBER TEXT`. PeerFailed (49) where the output failed, and only
/// there; it takes no memory.
pub fn write_line<O: Output>(output: &mut O, refusal: &Refusal) -> Result<(), Refusal>
    ensures ok { OnOk result (Writes O.contents output.old output.new (fault_line refusal.now)) }
    ensures peer { TellsFailure O.failures output.old output.new result }
    ensures failed { OnErr result (FailedIn O.failures output.old output.new) }
    ensures only_peer { OnlyPeerFails result }
{
    write_count(output, b"svnfleet: ", u64::from(refusal.number()), b" ")?;
    write_text(output, refusal)?;
    write(output, b"\n")
}
