//! What a job does next.
use crate::call::MirrorCall;
use node_base::RevNo;

/// What a job does next: a call of its mirror, a question to the master, or nothing more.
#[derive(Drop)]
pub enum Action<'a> {
    /// A call of the mirror. It is answered `Done`, a look `Seen`, or refused.
    Call(MirrorCall<'a>),
    /// Which repository the master is. It is answered `Identity`.
    AskIdentity,
    /// The master's newest revision. It is answered `Latest`.
    AskLatest,
    /// A revision of the master. It is answered `Revision`.
    Fetch(RevNo),
    /// The properties of a revision of the master. It is answered `Map`.
    FetchProps(RevNo),
    /// Nothing more: the job has ended.
    End,
}
