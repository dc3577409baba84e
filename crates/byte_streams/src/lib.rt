//! Bytes that are read and written, with failures that are counted: a call refuses only where its stream failed in it.
#![tactic(auto)]

mod counted;
mod fault;
mod fuse;
mod input;
mod lent;
mod memory;
mod output;
mod sink;
mod vec_writer;

pub use counted::{CountedReader, CountedWriter};
pub use fault::{SinkFault, StreamFault};
pub use fuse::FuseInput;
pub use input::{Input, MOST_READS};
pub use lent::Lent;
pub use memory::MemOutput;
pub use output::{Output, has_failed_since, write_bytes};
pub use sink::Sink;
pub use vec_writer::VecWriter;
