//! The children of a node, one after the other.
ghost use Rattle.std.specs.Prelude.{◌≡◌, ◌∷◌, [], IfOk, MatchOption};
ghost use Rattle.path_tree.specs.InOrder.{tops};
ghost use Rattle.path_tree.specs.Rows.{in_row};

use crate::row::{Row, Waiting, let_come};
use node_base::{Node, NodeName};
use std::alloc::{AllocError, Global};
use std::marker::Model;

/// A child's name and its node; both lie in the tree.
#[derive(Drop)]
pub struct ChildNode<'a> {
    pub name: &'a NodeName,
    pub node: &'a Node,
}

/// The children of a node that are still to come, in the order of their names. It takes memory for a few of them
/// alone, as many as a search by name looks at.
#[derive(Drop)]
pub struct Children<'a> {
    waiting: Vec<Waiting<'a>>,
}

impl<'a> Model for Children<'a> {
    ghost use Rattle.std.specs.Prelude.{List};
    ghost use Rattle.std.specs.Coded.{coded_list, coded×};
    ghost use Rattle.node_base.specs.Path.{Name, coded_name};
    ghost use Rattle.node_base.specs.Tree.{coded_node};
    ghost use Rattle.node_base.specs.declared.node.Node.{Node};
    ghost use Rattle.path_tree.specs.InOrder.{to_come, tops};

    ghost Value = { List (Name × Node) };

    ghost coded = { coded_list (coded× coded_name coded_node) };

    ghost view = { λ a. tops (to_come a.waiting.items) };
}

impl<'a> Children<'a> {
    // Those of a row.
    pub(crate) fn of(alloc: Global, row: &'a Row) -> Result<Children<'a>, AllocError>
        ensures { IfOk result (λ c. c ≡ tops (in_row row.now)) }
    {
        let mut waiting = Vec::new(alloc);
        let_come(row, &mut waiting)?;
        Ok(Children { waiting })
    }

    /// No children.
    pub fn none(alloc: Global) -> Children<'a>
        ensures { result ≡ [] }
    {
        Children {
            waiting: Vec::new(alloc),
        }
    }

    /// The first of those to come, which goes from them. None where there is none.
    pub fn next(&mut self) -> Result<Option<ChildNode<'a>>, AllocError>
        ensures { IfOk result (λ r. MatchOption r ((self.old ≡ []) × (self.new ≡ []))
            (λ c. self.old ≡ (c.name.now, c.node.now) ∷ self.new)) }
    {
        match self.waiting.pop() {
            Some(Waiting { child, behind }) => {
                let_come(behind, &mut self.waiting)?;
                Ok(Some(ChildNode {
                    name: child.name(),
                    node: child.branch().node(),
                }))
            }
            None => Ok(None),
        }
    }
}
