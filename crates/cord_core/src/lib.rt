//! Cords: immutable texts of at most `MAX_LEN` bytes, kept as trees of nodes that share their parts,
//! after `cord.h` of the Boehm collector's distribution, with reference counts in its place.
#![tactic(auto)]

ghost use Rattle.std.specs.Prelude.{◌≡◌, ◌≤◌, IfOk, IsOkUnless, IfSome, None, length, option_map};
ghost use Rattle.cord_io.specs.Table.{Table};
ghost use Rattle.cord_node.specs.Tree.{true_depth, IsSound};
ghost use Rattle.cord_core.specs.Cord.{text, text_len, depth, parts_of, IsCord, bytes_of, CordFits};

use cord_io::{CordError, MAX_DEPTH, MAX_LEN};
pub use cord_node::Node;
pub use laws::searches_answer_places;
use std::alloc::Global;
use std::marker::Model;
use std::rc::Rc;

mod join;
mod laws;
mod make;
mod part;
mod splice;

/// An immutable text of at most `MAX_LEN` bytes: nothing, or a tree of nodes, at most `MAX_DEPTH` deep.
#[derive(Drop)]
pub struct Cord {
    root: Option<Rc<Node>>,
}

impl Model for Cord {
    ghost use Rattle.std.specs.Prelude.{Option, option_map};
    ghost use Rattle.std.specs.Coded.{codes};
    ghost use Rattle.cord_node.specs.declared.Node.{Node};
    ghost use Rattle.cord_node.specs.contracts.Node as n;
    ghost use Rattle.cord_core.specs.Cord.{IsCord};

    ghost Value = { Option Node };

    ghost coded = { Prim.hlevel (codes, n.the_row.coded) };

    ghost view = { λ c. option_map (λ r. r.value) c.root };

    ghost invariant = { λ c. IsCord (option_map (λ r. r.value) c.root) };
}

impl Cord {
    /// The cord of no bytes.
    pub fn empty() -> Cord
        ensures { result ≡ None }
    {
        Cord { root: None }
    }

    /// The length of the text, in bytes.
    pub fn len(&self) -> u64
        ensures stored { result ≡ text_len self.now }
        ensures text { result ≡ length (text self.now) }
        ensures over { (t : Table) → CordFits t self.now → result ≡ length (bytes_of t self.now) }
        ensures limit { result ≤ MAX_LEN }
        ensures sound { IsCord self.now }
    {
        match &self.root {
            None => 0,
            Some(node) => node.len(),
        }
    }

    /// The depth of the tree: the steps from its root to its deepest part, 0 for the empty cord.
    pub fn depth(&self) -> u32
        ensures stored { result ≡ depth self.now }
        ensures truth { IfSome self.now (λ node. result ≡ true_depth node) }
        ensures limit { result ≤ MAX_DEPTH }
        ensures sound { IsCord self.now }
    {
        match &self.root {
            None => 0,
            Some(node) => node.depth(),
        }
    }

    /// The root of the tree: a sound node with the cord's text, length and depth, none for the empty cord.
    pub fn root(&self) -> Option<&Rc<Node>>
        ensures value { option_map (λ r. r.now.value) result ≡ self.now }
        ensures sound { IfSome result (λ r. IsSound r.now.value) }
        ensures cord { IsCord self.now }
    {
        self.root.as_ref()
    }

    /// The same cord once more, which shares its tree. Refused only when out of memory.
    pub fn share(&self, _alloc: Global) -> Result<Cord, CordError>
        ensures same { IfOk result (λ c. c ≡ self.now) }
        ensures sound { IsCord self.now }
        ensures refused { IsOkUnless result CordError.NoMemory }
    {
        match &self.root {
            None => Ok(Cord::empty()),
            Some(node) => {
                let node = node.clone()?;
                Ok(Cord { root: Some(node) })
            }
        }
    }
}
