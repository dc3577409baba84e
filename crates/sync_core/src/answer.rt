//! What a job is answered.
ghost use Rattle.std.specs.Prelude.{◌≡◌};
ghost use Rattle.sync_core.specs.Deeds.{fault_in};

use crate::fault::SyncFault;
use crate::standing::Standing;
use dump_load::ChangeSet;
use node_base::{PropValue, Props, RevNo};

/// The answer to a job's action.
#[derive(Drop)]
pub enum Answer {
    /// The mirror has taken the call.
    Done,
    /// How the mirror stands.
    Seen(Standing),
    /// The master's identity as a mirror's properties spell it: hyphenated, in lower case.
    Identity(PropValue),
    /// The number of the master's newest revision.
    Latest(RevNo),
    /// What a revision of the master changes, and its properties.
    Revision(ChangeSet, Props),
    /// The properties of a revision of the master.
    Map(Props),
    /// The mirror has refused the call, or there is no memory for an answer.
    Refused(SyncFault),
    /// The master has refused, with that text.
    Failed(String),
}

impl Answer {
    /// The refusal that it is: the mirror's own, the master's as 60 with its text, and 61 for an answer to another
    /// question.
    pub(crate) fn fault(self) -> SyncFault
        ensures { result ≡ fault_in self }
    {
        match self {
            Answer::Refused(fault) => fault,
            Answer::Failed(text) => SyncFault::MasterFailed(text),
            Answer::Done => SyncFault::OutOfTurn,
            Answer::Seen(_) => SyncFault::OutOfTurn,
            Answer::Identity(_) => SyncFault::OutOfTurn,
            Answer::Latest(_) => SyncFault::OutOfTurn,
            Answer::Revision(_, _) => SyncFault::OutOfTurn,
            Answer::Map(_) => SyncFault::OutOfTurn,
        }
    }
}
