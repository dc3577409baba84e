//! Numbers as they stand in a mirror's properties.

/// What the value of a property says as a revision number: decimal digits without leading zeros spell one.
#[derive(Clone, Copy, PartialEq, Eq)]
pub enum Number {
    /// There is no such property.
    Absent,
    /// The value spells no number.
    Misspelt,
    /// The value spells this number.
    Spelt(u64),
    /// The value spells a number from 2^64 on, which no revision has.
    Huge,
}
