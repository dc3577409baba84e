//! The engines of svnfleet's commands over any input and output.
#![tactic(auto)]

ghost use Rattle.fleet_engines.specs.Grouping.{RevisionsAreGrouped};
ghost use Rattle.fleet_engines.specs.Pieces.{RecordsDontMatter};

pub use commands::{run_canon, run_list};
pub use line::write_line;
pub use open_revision::{OpenRevision, ReadRevision};
pub use product::Product;
pub use revision_nodes::{NODES, RevisionNodes};
pub use stream::{hand_on, read, write, write_count, write_parts};
pub use taker::Taker;
pub use whole_stream::read_stream;

mod commands;
mod engine;
mod history;
mod line;
mod lines;
mod listing;
mod open_revision;
mod product;
mod revision_nodes;
mod stream;
mod taker;
mod whole_stream;

/// What comes next of a stream doesn't depend on the records that are whole.
pub fn records_dont_matter()
    ensures { RecordsDontMatter }
{}

/// What is taken record by record is a list of revisions, each with its nodes, that make trees one after another; the
/// identity is the last one that is told before them.
pub fn revisions_are_grouped()
    ensures { RevisionsAreGrouped }
{}
