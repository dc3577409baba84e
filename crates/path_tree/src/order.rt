//! The order of names, byte by byte.
ghost use Rattle.std.specs.Prelude.{◌≡◌};
ghost use Rattle.node_base.specs.Path.{name_cmp};

use node_base::NodeName;
use std::cmp::Ordering;

fn compare_bytes(left: &[u8], right: &[u8]) -> Ordering
    ensures { result ≡ name_cmp left.now right.now }
{
    let Some((first, left)) = left.split_first() else {
        return if right.is_empty() {
            Ordering::Equal
        } else {
            Ordering::Less
        };
    };
    let Some((second, right)) = right.split_first() else {
        return Ordering::Greater;
    };
    match first.cmp(second) {
        Ordering::Equal => compare_bytes(left, right),
        order => order,
    }
}

/// The order of the bytes.
pub fn compare(left: &NodeName, right: &NodeName) -> Ordering
    ensures { result ≡ name_cmp left.now right.now }
{
    compare_bytes(left.as_str().as_bytes(), right.as_str().as_bytes())
}
