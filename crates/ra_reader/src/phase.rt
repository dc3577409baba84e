//! What a session awaits.

use browse_wire::ask::BrowseCommand;
use browse_wire::report::ReportCommand;
use ra_denial::Denial;

/// A command that a report follows, and what was reported for it so far.
#[derive(Drop)]
pub struct Order {
    pub command: BrowseCommand,
    pub said: Vec<ReportCommand>,
}

/// What a session awaits.
#[derive(Drop)]
pub enum Phase {
    /// A command.
    Idle,
    /// More of a report.
    Reporting(Order),
    /// The end of a report that is denied.
    Spoilt(Denial),
    /// What the client says of an edit.
    Edited,
}
