// Subtrees that were balanced, each with its balanced form.
ghost use Rattle.std.specs.Prelude.{◌≡◌, ◌+◌, IfSome, IfOk, OnOk};
ghost use Rattle.std.specs.List.{All};
ghost use Rattle.cord_node.specs.Tree.{cells, len_of, IsSound};
ghost use Rattle.cord_balance.specs.inner.Forest.{IsForm, IsKnown};

use cord_node::Node;
use std::rc::Rc;

/// A subtree and its balanced form.
#[derive(Drop)]
pub struct Known {
    pub node: Rc<Node>,
    pub form: Rc<Node>,
}

/// The balanced form of the subtree, if that was balanced before.
pub fn find<'a>(known: &'a [Known], node: &Node) -> Option<&'a Rc<Node>>
    requires known { All IsKnown known.now }
    requires sound { IsSound node.now }
    ensures { IfSome result (λ form. IsForm node.now form.now.value) }
{
    for pair in known {
        let balanced = pair.node.as_ref();
        if balanced.depth() == node.depth() && balanced.len() == node.len() && balanced.same(node) {
            return Some(&pair.form);
        }
    }
    None
}
