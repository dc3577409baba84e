//! Names, paths, properties, texts and nodes of a Subversion repository, and the words that contracts use for its
//! trees.
#![tactic(auto)]

pub use block::BlockReader;
pub use block_part::Part;
pub use fault::{PathFault, TreeFault};
pub use name::NodeName;
pub use node::{Action, Node, NodeKind, Source};
pub use number::read_decimal;
pub use path::{NodePath, compare_paths, path_order, rest_after};
pub use prop_delta::PropDelta;
pub use prop_fault::PropFault;
pub use prop_name::PropName;
pub use prop_value::PropValue;
pub use props::Props;
pub use refusal::Refusal;
pub use removed_names::RemovedNames;
pub use revision::RevNo;
pub use shown::{ShownToken, shown_byte};
pub use text::Text;
pub use text_fault::TextFault;
pub use told_number::ToldNumber;

mod block;
pub mod block_law;
mod block_part;
mod block_writer;
mod bytes;
mod fault;
pub mod limits;
mod name;
mod name_set;
mod name_text;
mod node;
mod number;
mod path;
mod pieces;
mod prop_delta;
mod prop_fault;
mod prop_list;
mod prop_name;
mod prop_value;
mod props;
mod refusal;
mod refused;
mod removed_names;
mod revision;
mod shown;
mod text;
mod text_fault;
pub mod texts;
mod told_number;
