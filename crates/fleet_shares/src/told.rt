//! What is told of each mirror once its job has ended.
ghost use Rattle.std.specs.Prelude.{◌≡◌, ◌≤◌, [], vec_len, vec_capacity};
ghost use Rattle.fleet_shares.specs.Closing.{brings_at};
ghost use Rattle.fleet_shares.specs.Told.{head_at, stand, stands, tell, tell_next, tells};

use crate::answers::Answered;
use crate::brings::Brings;
use crate::stores::FleetStores;
use fleet_disk::Disk;
use node_base::{Refusal, RevNo};
use sync_core::SyncFault;

/// What is told of each mirror, by its folder's refusal, its answer, whether it was brought up, and its store as it is
/// now. `told` is empty, and its room is made before.
pub(crate) fn tell_all<D: Disk + Drop>(
    stores: &FleetStores<D>,
    brings: &Brings,
    refusals: Vec<Option<Refusal>>,
    answers: Vec<Answered>,
    told: Vec<Answered>,
) -> Vec<Answered>
    requires { (told.items ≡ []) × (vec_len refusals ≤ vec_capacity told) }
    ensures { result.items ≡ tells (brings_at brings.now) 0 (stands 0 refusals.items stores.now) answers.items }
{
    let mut told = told;
    let mut rest = answers.into_iter();
    for refusal in refusals {
        let slot = told.len();
        let standing = stand(refusal, stores.head_at(slot));
        told.push_reserved(tell_next(standing, brings.at(slot), rest.next()));
    }
    told
}

// How a mirror stands.
fn stand(refusal: Option<Refusal>, head: Option<RevNo>) -> Result<RevNo, Refusal>
    ensures { result ≡ stand refusal head }
{
    match refusal {
        Some(refusal) => Err(refusal),
        None => match head {
            Some(head) => Ok(head),
            None => Err(Refusal::NoRepository),
        },
    }
}

// What is told of a mirror that stands so, where there is an answer for it. One that has none has failed (32).
fn tell_next(
    standing: Result<RevNo, Refusal>,
    is_brought: bool,
    answer: Option<Answered>,
) -> Answered
    ensures { result ≡ tell_next standing is_brought answer }
{
    match answer {
        Some(answer) => tell(standing, is_brought, answer),
        None => Err(SyncFault::Other(Refusal::Failed)),
    }
}

// What is told of a mirror that stands so.
fn tell(standing: Result<RevNo, Refusal>, is_brought: bool, answer: Answered) -> Answered
    ensures { result ≡ tell standing is_brought answer }
{
    match standing {
        Ok(head) => match answer {
            Ok(_) => {
                if is_brought {
                    return Ok(head);
                }
                Err(SyncFault::Other(Refusal::Failed))
            }
            Err(fault) => Err(fault),
        },
        Err(refusal) => Err(SyncFault::Other(refusal)),
    }
}
