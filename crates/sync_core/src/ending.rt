//! How a job ends.
ghost use Rattle.std.specs.Prelude.{◌≡◌};
ghost use Rattle.sync_core.specs.declared.ending.Ending.TheVariants.{Fine};
ghost use Rattle.sync_core.specs.Endings.{released};

use crate::answer::Answer;
use crate::fault::SyncFault;

/// How a job ends: it has done what it was to do, or met a refusal, the first of its refusals.
#[derive(Drop)]
pub enum Ending {
    /// It has done what it was to do.
    Fine,
    /// It was refused.
    Refused(SyncFault),
}

impl Ending {
    /// How a job ends whose release of the lock is answered so: a lock that stays is a refusal where there was none
    /// before.
    pub(crate) fn released(self, answer: Answer) -> Ending
        ensures { result ≡ released self answer }
    {
        match self {
            Ending::Fine => ended(answer),
            Ending::Refused(fault) => Ending::Refused(fault),
        }
    }
}

// How a job ends whose last call is answered so.
fn ended(answer: Answer) -> Ending
    ensures { result ≡ released Fine answer }
{
    match answer {
        Answer::Done => Ending::Fine,
        other => Ending::Refused(other.fault()),
    }
}
