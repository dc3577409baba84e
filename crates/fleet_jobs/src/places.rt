//! A place for the outcome of each order, by its number.
ghost use Rattle.std.specs.Prelude.{◌≡◌, ◌≤◌, [], vec_len, vec_capacity};
ghost use Rattle.fleet_jobs.specs.Places.{put_in, put_all, front};

use crate::order::Outcome;

// Puts an outcome into its place. One of no order is let go.
fn settle(places: &mut [Option<Outcome>], outcome: Outcome)
    ensures { places.new ≡ put_in places.old outcome }
{
    let Ok(at) = usize::try_from(outcome.order) else {
        return;
    };
    if at < places.len() {
        places[at] = Some(outcome);
    }
}

/// Puts all of them into their places.
pub(crate) fn settle_all(places: &mut [Option<Outcome>], outcomes: Vec<Outcome>)
    ensures { places.new ≡ put_all places.old outcomes.items }
{
    for outcome in outcomes {
        settle(places, outcome);
    }
}

/// The outcomes up to the first place that is empty, in the room that was made for them.
pub(crate) fn gather(places: Vec<Option<Outcome>>, room: Vec<Outcome>) -> Vec<Outcome>
    requires room { (room.items ≡ []) × (vec_len places ≤ vec_capacity room) }
    ensures { result.items ≡ front places.items }
{
    let mut room = room;
    for place in places {
        let Some(outcome) = place else {
            break;
        };
        room.push_reserved(outcome);
    }
    room
}
