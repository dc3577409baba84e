//! Where entries end in the journal.
ghost use Rattle.std.specs.Prelude.{◌≡◌, ◌<◌, ◌≤◌, ◌-◌, ℕ, List, Some, length, take, drop, slice_get};
ghost use Rattle.gate_log.specs.Standing.{last_end, IsRising, parts};

// The journal's length behind the last entry.
pub fn end_of(ends: &[u64]) -> u64
    ensures { result ≡ last_end 0 ends.now }
{
    match ends {
        [] => 0,
        [.., last] => *last,
    }
}

// Where an entry begins and ends in the journal.
pub fn bounds(ends: &[u64], entry: usize) -> (u64, u64)
    requires inside { entry < length ends.now }
    requires rising { IsRising 0 ends.now }
    ensures part { (journal : List ℕ) → slice_get (parts 0 ends.now journal) entry
        ≡ Some (take (result.1 - result.0) (drop result.0 journal)) }
    ensures order { result.0 < result.1 }
    ensures last { result.1 ≤ last_end 0 ends.now }
{
    let end = ends[entry];
    if entry == 0 {
        (0, end)
    } else {
        (ends[entry - 1], end)
    }
}
