//! A mirror's numbers, and how calls move them.
ghost use Rattle.std.specs.Prelude.{◌≡◌};
ghost use Rattle.sync_core.specs.Calls.{call_of};
ghost use Rattle.sync_core.specs.Moves.{numbers_of, numbers_after};
ghost use Rattle.sync_core.specs.Names.{Absent, Spelt};

use crate::call::MirrorCall;
use crate::number::Number;
use crate::standing::Standing;
use node_base::RevNo;

/// What is merged, what is being copied, and the head.
#[derive(Clone, Copy, PartialEq, Eq)]
pub struct Numbers {
    pub merged: Number,
    pub copying: Number,
    pub head: RevNo,
}

impl Numbers {
    /// Those of a mirror that stands so.
    pub fn of(standing: &Standing) -> Numbers
        ensures { result ≡ numbers_of standing.now }
    {
        Numbers {
            merged: standing.merged,
            copying: standing.copying,
            head: standing.head,
        }
    }

    /// Those after an accepted call, as [`crate::law::calls_move_numbers`] says.
    pub fn after(self, call: &MirrorCall<'_>) -> Numbers
        ensures { result ≡ numbers_after self (call_of call.now) }
    {
        match call {
            MirrorCall::Init { .. } => begun(self.head),
            MirrorCall::SetCopying(number) => Numbers {
                copying: spelt(*number),
                ..self
            },
            MirrorCall::Commit { number, .. } => Numbers {
                head: *number,
                ..self
            },
            MirrorCall::SetMerged(number) => Numbers {
                merged: spelt(*number),
                ..self
            },
            MirrorCall::ClearCopying => Numbers {
                copying: Number::Absent,
                ..self
            },
            MirrorCall::TakeLock(_) => self,
            MirrorCall::StealLock(_) => self,
            MirrorCall::ReleaseLock => self,
            MirrorCall::PutProps { .. } => self,
            MirrorCall::Look => self,
        }
    }
}

// Those of a mirror that begins: revision 0 is merged.
fn begun(head: RevNo) -> Numbers
    ensures { (result.merged ≡ Spelt 0) × (result.copying ≡ Absent) × (result.head ≡ head) }
{
    Numbers {
        merged: Number::Spelt(0),
        copying: Number::Absent,
        head,
    }
}

fn spelt(number: RevNo) -> Number
    ensures { result ≡ Spelt number }
{
    Number::Spelt(u64::from(number.get()))
}
