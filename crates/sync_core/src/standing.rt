//! How a mirror stands.

use crate::number::Number;
use node_base::{PropValue, RevNo};

/// What a mirror's properties of revision 0 say of its synchronisation, and its head.
#[derive(Drop)]
pub struct Standing {
    /// `svn:sync-from-url`: a mirror is initialized where it is there.
    pub url: Option<PropValue>,
    /// `svn:sync-from-uuid`: the identity of the repository that is mirrored.
    pub uuid: Option<PropValue>,
    /// `svn:sync-last-merged-rev`: the last revision that is copied whole.
    pub merged: Number,
    /// `svn:sync-currently-copying`: the revision that is being copied.
    pub copying: Number,
    /// `svn:sync-last-merged-rev` as it stands.
    pub merged_text: Option<PropValue>,
    /// `svn:sync-currently-copying` as it stands.
    pub copying_text: Option<PropValue>,
    /// `svn:sync-lock`: the token of the job that took the lock.
    pub lock: Option<PropValue>,
    /// The number of the newest revision.
    pub head: RevNo,
}
