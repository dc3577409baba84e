//! The layout of the gates: a slot for each entry, and a gate behind the last.
ghost use Rattle.std.specs.Prelude.{◌≡◌, ◌++◌, ◌∷◌, []};
ghost use Rattle.gate_log.specs.Slots.{eight_bytes};

/// The byte of an open gate.
pub const OPEN: u8 = 1;

/// The byte that a gate is closed with. Each byte but that of an open gate is closed.
pub const CLOSED: u8 = 0;

/// How many bytes a gate has.
pub const GATE_BYTES: u64 = 1;

/// How many bytes a length has.
pub const LENGTH_BYTES: usize = 8;

/// How many bytes a sum has.
pub const SUM_BYTES: usize = 16;

// What stands between the gate of an entry and the closed gate behind it, and that gate, in the first version.
#[tactic(auto, unfolding(crate::specs::Slots::eight_bytes))]
pub fn closed_slot(end: u64) -> [u8; 9]
    ensures { result ≡ eight_bytes end ++ 0 ∷ [] }
{
    let [a, b, c, d, e, f, g, h] = end.to_be_bytes();
    [a, b, c, d, e, f, g, h, CLOSED]
}

// The same in the second version.
pub fn closed_slot_with_sum(end: u64, sum: [u8; SUM_BYTES]) -> [u8; 25]
    ensures { result ≡ eight_bytes end ++ sum ++ 0 ∷ [] }
{
    let length = end.to_be_bytes();
    let mut slot = [CLOSED; 25];
    slot[..LENGTH_BYTES].copy_from_slice(&length);
    slot[LENGTH_BYTES..LENGTH_BYTES + SUM_BYTES].copy_from_slice(&sum);
    slot
}
