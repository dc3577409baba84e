//! Where a name is among children in the order of their names.
ghost use Rattle.std.specs.Prelude.{◌≡◌, ◌<◌, ◌≤◌, length, IfOk, IfErr, OnOk, IsSome, None};
ghost use Rattle.std.specs.FinMap as map;
ghost use Rattle.node_base.specs.Path.{name_cmp};
ghost use Rattle.path_tree.specs.Joined.{AreChildren, place};

use node_base::NodeName;
use std::cmp::Ordering;

// Where the name is, or where it would go.
pub fn place_of<X>(children: &[(NodeName, X)], name: &NodeName) -> Result<usize, usize>
    requires { AreChildren children.now }
    ensures at { IfOk result (λ i. i ≡ place name.now children.now) }
    ensures gap { IfErr result (λ i. i ≡ place name.now children.now) }
    ensures found { IfOk result (λ i. i < length children.now) }
    ensures present { OnOk result (IsSome (map.find name_cmp name.now children.now)) }
    ensures absent { IfErr result (λ _. map.find name_cmp name.now children.now ≡ None) }
    ensures in_range { IfErr result (λ i. i ≤ length children.now) }
{
    for (i, child) in children.iter().enumerate() {
        match name.compare(&child.0) {
            Ordering::Less => return Err(i),
            Ordering::Equal => return Ok(i),
            Ordering::Greater => {}
        }
    }
    Err(children.len())
}
