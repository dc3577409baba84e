//! The shape in which a mirror rests, by its numbers.
ghost use Rattle.std.specs.Prelude.{◌≡◌, IfSome, None};
ghost use Rattle.sync_core.specs.Names.{Number};
ghost use Rattle.sync_core.specs.Mirror.{Resting, HasShape};
ghost use Rattle.sync_core.specs.Shapes.{shape_in};

use crate::number::Number;
use crate::resting::Resting;
use node_base::RevNo;

/// The shape of what is merged, what is being copied and the head; None where they fit none. No two shapes have the
/// same numbers.
#[tactic(auto, using(crate::proofs::ShapeLemmas::shape_of_found, crate::proofs::ShapeLemmas::none_of_none))]
pub fn shape_of(merged: Number, copying: Number, head: RevNo) -> Option<Resting>
    ensures table { result ≡ shape_in merged copying head }
    ensures shape { IfSome result (λ shape. HasShape shape merged copying head) }
    ensures none { result ≡ None → (shape : Resting) → HasShape shape merged copying head → ⊥ }
{
    tabled(merged, copying, head)
}

fn tabled(merged: Number, copying: Number, head: RevNo) -> Option<Resting>
    ensures { result ≡ shape_in merged copying head }
{
    let after = u64::from(head.get()) + 1;
    if merged.is(head) && copying.is_absent() {
        Some(Resting::Idle)
    } else if merged.is(head) && copying == Number::Spelt(after) {
        Some(Resting::Copying(after))
    } else if copying.is(head) && merged.precedes(head) {
        Some(Resting::Committed(u64::from(head.get())))
    } else if merged.is(head) && copying.is(head) {
        Some(Resting::Merged)
    } else {
        None
    }
}
