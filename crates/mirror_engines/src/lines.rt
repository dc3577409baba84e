//! The lines that a run prints.
ghost use Rattle.std.specs.Prelude.{OnOk, OnErr};
ghost use Rattle.fleet_engines.specs.Streams.{FailedIn, OnlyPeerFails, TellsFailure, Writes};
ghost use Rattle.mirror_engines.specs.Lines.{line_of};

use byte_streams::Output;
use fleet_engines::{hand_on, write_count};
use node_base::Refusal;
use sync_job::Told;

// Writes the line that tells what a job has done.
fn write_told<O: Output>(output: &mut O, told: &Told) -> Result<(), Refusal>
    ensures ok { OnOk result (Writes O.contents output.old output.new (line_of told.now)) }
    ensures peer { TellsFailure O.failures output.old output.new result }
    ensures failed { OnErr result (FailedIn O.failures output.old output.new) }
    ensures only_peer { OnlyPeerFails result }
{
    match told {
        Told::Committed(number) => {
            write_count(
                output,
                b"Committed revision ",
                u64::from(number.get()),
                b".\n",
            )
        }
        Told::Copied(number) => write_count(
            output,
            b"Copied properties for revision ",
            u64::from(number.get()),
            b".\n",
        ),
    }
}

/// Writes the line that tells what a job has done, and hands it on. PeerFailed (49) where the output failed, and only
/// there.
pub fn say<O: Output>(output: &mut O, told: &Told) -> Result<(), Refusal>
    ensures ok { OnOk result (Writes O.contents output.old output.new (line_of told.now)) }
    ensures peer { TellsFailure O.failures output.old output.new result }
    ensures failed { OnErr result (FailedIn O.failures output.old output.new) }
    ensures only_peer { OnlyPeerFails result }
{
    write_told(output, told)?;
    hand_on(output)
}
