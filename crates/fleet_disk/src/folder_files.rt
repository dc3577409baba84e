//! The files of a folder that are open.

/// The open files of a folder, of which each may be missing.
#[derive(Drop)]
pub struct FolderFiles<F> {
    /// The file `journal`.
    pub journal: Option<F>,
    /// The file `gate`.
    pub gate: Option<F>,
    /// The file `slots`.
    pub slots: Option<F>,
}
