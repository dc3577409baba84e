//! What a mirror answers to a call that it takes.
use crate::standing::Standing;

/// The answer to a call that is taken.
#[derive(Drop)]
pub enum Reply {
    /// The call is done.
    Done,
    /// How the mirror stands, to a look.
    Seen(Standing),
}
