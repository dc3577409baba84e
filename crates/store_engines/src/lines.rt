//! Lines that tell what was done.
ghost use Rattle.std.specs.Prelude.{◌≡◌, IfOk, OnOk, OnErr, string_bytes};
ghost use Rattle.fleet_engines.specs.Streams.{FailedIn, OnlyPeerFails, TellsFailure, Writes};
ghost use Rattle.store_engines.specs.Loads.{loaded_line};
ghost use Rattle.store_engines.specs.Commits.{committed_line};

use byte_streams::Output;
use fleet_engines::{hand_on, write, write_count};
use node_base::{Refusal, RevNo};
use std::alloc::{AllocError, Global};

/// The line for a revision that was committed.
pub fn committed_line(alloc: Global, number: usize) -> Result<String, AllocError>
    ensures { IfOk result (λ s. string_bytes s ≡ committed_line number) }
{
    format!(in alloc; "Committed revision {number}.\n")
}

/// Writes a line and hands it on, so that it is out before anything else is done.
pub fn say<O: Output>(output: &mut O, line: &String) -> Result<(), Refusal>
    ensures ok { OnOk result (Writes O.contents output.old output.new (string_bytes line.now)) }
    ensures peer { TellsFailure O.failures output.old output.new result }
    ensures failed { OnErr result (FailedIn O.failures output.old output.new) }
    ensures only_peer { OnlyPeerFails result }
{
    write(output, line.as_str().as_bytes())?;
    hand_on(output)
}

/// Writes the line for a revision that was loaded, and hands it on.
pub fn say_loaded<O: Output>(output: &mut O, number: RevNo) -> Result<(), Refusal>
    ensures ok { OnOk result (Writes O.contents output.old output.new (loaded_line number)) }
    ensures peer { TellsFailure O.failures output.old output.new result }
    ensures failed { OnErr result (FailedIn O.failures output.old output.new) }
    ensures only_peer { OnlyPeerFails result }
{
    write_count(output, b"Loaded revision ", u64::from(number.get()), b".\n")?;
    hand_on(output)
}
