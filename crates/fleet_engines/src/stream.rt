//! How an engine reads and writes: a stream's failure is PeerFailed (49), and nothing else is.
ghost use Rattle.std.specs.Prelude.{◌≡◌, ◌≤◌, ◌<◌, ◌++◌, length, take, IfOk, OnOk, OnErr};
ghost use Rattle.std.specs.Fmt.{decimal};
ghost use Rattle.std.specs.Io.KnownBytes.{Consumes, IsAtEnd, Keeps};
ghost use Rattle.byte_streams.specs.Causes.{CountsOne};
ghost use Rattle.fleet_engines.specs.Streams.{FailedIn, OnlyPeerFails, TellsFailure, Writes};

use byte_streams::{Input, Output, write_bytes};
use itoa::Buffer;
use node_base::Refusal;

/// Reads some bytes, none only at the end. PeerFailed (49) where the input failed, and only there.
pub fn read<I: Input>(input: &mut I, piece: &mut [u8]) -> Result<usize, Refusal>
    ensures bound { IfOk result (λ n. n ≤ length piece.new) }
    ensures bytes { IfOk result (λ n. Consumes (I.remaining input.old) (I.remaining input.new) (take n piece.new)) }
    ensures end { IfOk result (λ n. n ≡ 0 → 0 < length piece.new → IsAtEnd (I.remaining input.new)) }
    ensures none { OnErr result (Keeps (I.remaining input.old) (I.remaining input.new)) }
    ensures counted { CountsOne (I.reads input.old) (I.reads input.new) }
    ensures later { I.failures input.old ≤ I.failures input.new }
    ensures working { OnOk result (I.failures input.new ≡ I.failures input.old) }
    ensures failed { OnErr result (FailedIn I.failures input.old input.new) }
    ensures only_peer { OnlyPeerFails result }
{
    match input.read(piece) {
        Ok(n) => Ok(n),
        Err(_) => Err(Refusal::PeerFailed),
    }
}

/// Writes all these bytes. PeerFailed (49) where the output failed, and only there.
pub fn write<O: Output>(output: &mut O, bytes: &[u8]) -> Result<(), Refusal>
    ensures ok { OnOk result (Writes O.contents output.old output.new bytes.now) }
    ensures peer { TellsFailure O.failures output.old output.new result }
    ensures failed { OnErr result (FailedIn O.failures output.old output.new) }
    ensures only_peer { OnlyPeerFails result }
{
    match write_bytes(output, bytes) {
        Ok(()) => Ok(()),
        Err(_) => Err(Refusal::PeerFailed),
    }
}

/// Writes what is told between two texts. PeerFailed (49) where the output failed, and only there.
pub fn write_parts<O: Output>(
    output: &mut O,
    before: &[u8],
    told: &[u8],
    after: &[u8],
) -> Result<(), Refusal>
    ensures ok { OnOk result (Writes O.contents output.old output.new (before.now ++ (told.now ++ after.now))) }
    ensures peer { TellsFailure O.failures output.old output.new result }
    ensures failed { OnErr result (FailedIn O.failures output.old output.new) }
    ensures only_peer { OnlyPeerFails result }
{
    write(output, before)?;
    write(output, told)?;
    write(output, after)
}

/// Writes a number between two texts. PeerFailed (49) where the output failed, and only there.
pub fn write_count<O: Output>(
    output: &mut O,
    before: &[u8],
    number: u64,
    after: &[u8],
) -> Result<(), Refusal>
    ensures ok { OnOk result (Writes O.contents output.old output.new (before.now ++ (decimal number ++ after.now))) }
    ensures peer { TellsFailure O.failures output.old output.new result }
    ensures failed { OnErr result (FailedIn O.failures output.old output.new) }
    ensures only_peer { OnlyPeerFails result }
{
    let mut digits = Buffer::new();
    write_parts(output, before, digits.format(number).as_bytes(), after)
}

/// Hands on what is held back. PeerFailed (49) where the output failed, and only there.
pub fn hand_on<O: Output>(output: &mut O) -> Result<(), Refusal>
    ensures kept { Keeps (O.contents output.old) (O.contents output.new) }
    ensures handed { OnOk result (O.is_handed_on output.new) }
    ensures peer { TellsFailure O.failures output.old output.new result }
    ensures later { O.failures output.old ≤ O.failures output.new }
    ensures failed { OnErr result (FailedIn O.failures output.old output.new) }
    ensures only_peer { OnlyPeerFails result }
{
    match output.flush() {
        Ok(()) => Ok(()),
        Err(_) => Err(Refusal::PeerFailed),
    }
}
