//! Numbers of a mirror's properties as a refusal tells them.
ghost use Rattle.std.specs.Prelude.{◌≡◌};
ghost use Rattle.sync_core.specs.Faults.{told_of};

use crate::number::Number;
use node_base::{PropValue, ToldNumber};

/// What is told of a number whose property has that value.
pub fn told_of(number: Number, value: Option<PropValue>) -> ToldNumber
    ensures { result ≡ told_of number value }
{
    match number {
        Number::Absent => ToldNumber::Missing,
        Number::Misspelt => ToldNumber::Missing,
        Number::Spelt(number) => ToldNumber::Spelt(number),
        Number::Huge => match value {
            Some(digits) => ToldNumber::Huge(digits),
            None => ToldNumber::Missing,
        },
    }
}
