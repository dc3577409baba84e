//! The revisions that a log tells.

ghost use Rattle.std.specs.Prelude.{◌≡◌, IfOk, IfErr, nat_lt};
ghost use Rattle.path_history.specs.Logs.{IsOneTooLong};
ghost use Rattle.path_history.specs.declared.fault.HistoryFault.TheVariants.{TooLong};
ghost use Rattle.ra_history.specs.Logs.{asked_of, cut, directed, IsTold};

use node_base::RevNo;
use path_history::{Asked, HistoryFault, Place, Sets, log_of};
use std::alloc::Global;

/// Which revisions are told: those from the first to the last, which may be the older one, as many as the limit says and
/// all where that is 0.
#[derive(Clone, Copy)]
pub struct LogRange {
    pub first: RevNo,
    pub last: RevNo,
    pub limit: u64,
    /// Whether the history of a path goes on from a copy to its source.
    pub crosses_copies: bool,
}

impl LogRange {
    // What is asked of the histories.
    fn asked(&self) -> Asked
        ensures { result ≡ asked_of self.now }
    {
        let (lowest, highest) = if self.falls() {
            (self.last, self.first)
        } else {
            (self.first, self.last)
        };
        Asked {
            lowest,
            highest,
            limit: 0,
            crosses_copies: self.crosses_copies,
        }
    }

    // Whether the newest revision is told first.
    fn falls(&self) -> bool
        ensures { result ≡ nat_lt self.now.last self.now.first }
    {
        self.last.get() < self.first.get()
    }
}

// As many as a limit says.
fn cut(limit: u64, numbers: Vec<u16>) -> Vec<u16>
    ensures { result.items ≡ cut limit numbers.items }
{
    let mut numbers = numbers;
    if limit != 0 && limit < numbers.len() as u64 {
        numbers.truncate(limit as usize);
    }
    numbers
}

// In the range's direction.
fn directed(range: &LogRange, numbers: Vec<u16>) -> Vec<u16>
    ensures { result.items ≡ directed range.now numbers.items }
{
    let mut numbers = numbers;
    if range.falls() {
        numbers.as_mut_slice().reverse();
    }
    numbers
}

/// The revisions of a range in which one of the places or something below it changed, in the range's direction.
/// `TooLong` where a path of a line is past the limits.
pub fn revisions_told<S: Sets>(
    alloc: Global,
    sets: &S,
    places: &[Place],
    range: &LogRange,
) -> Result<Vec<u16>, HistoryFault>
    ensures told { IfOk result (λ v. IsTold (S.sets sets.now) range.now places.now v.items) }
    ensures refused { IfErr result (λ e. e ≡ TooLong
        → IsOneTooLong range.now.crosses_copies (S.sets sets.now) places.now) }
{
    match log_of(alloc, sets, places, &range.asked()) {
        Ok(numbers) => Ok(cut(range.limit, directed(range, numbers))),
        Err(fault) => Err(fault),
    }
}
