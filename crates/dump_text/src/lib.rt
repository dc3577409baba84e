//! Dump text of Subversion, formats 2 and 3: bytes to records, and records to format 2, in any pieces.
#![tactic(auto)]

pub use delta::DeltaBytes;
pub use fault::{DumpFault, dump_refusal};
pub use reader::DumpReader;
pub use record::{DeltaText, DumpRecord, NodeRecord, PropPart, RevRecord};
pub use writer::{WriteFault, write_head, write_props_entry, write_revision};

mod delta;
mod fault;
mod form;
mod head;
mod header;
mod held;
pub mod law;
mod limits;
mod reader;
mod record;
mod state;
mod writer;
