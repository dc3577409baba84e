//! What is made of a dump.

/// What is made of a dump that is read.
#[derive(Clone, Copy, PartialEq, Eq)]
pub enum Product {
    /// The listing of its newest tree.
    List,
    /// Its canonical spelling.
    Canon,
}
