//! The list of the nodes that wait.

ghost use Rattle.std.specs.Prelude.{◌≡◌, [], ◌∷◌, ◌++◌, length, IsNone, IfSome, OnOk, OnErr, ◌↔◌};
ghost use Rattle.um_nodes.specs.Taking.{IsTaken};
ghost use Rattle.um_nodes.specs.Keys.{IsKey, AreKeys};

use crate::order::first_of;
use std::alloc::Global;
use std::marker::Model;
use um_multipliers::Multipliers;
use um_num::Memory;

/// What a node is picked by.
#[derive(Clone, Copy, PartialEq, Eq, Debug)]
pub struct Key {
    pub id: u32,
    /// 0 for the root.
    pub depth: u32,
    /// Of the node's multipliers; 0 where their value on the node's box is endless.
    pub y0: i128,
    /// That value, in thousandths of the scaled objective times y0; 0 where it is endless.
    pub value: i128,
}

/// A node that waits, with the multipliers that it was handed.
#[derive(Debug, Drop)]
pub struct OpenNode {
    pub key: Key,
    /// Its id in the tree. The key's own id only breaks ties.
    pub node: u32,
    pub y: Multipliers,
}

/// The nodes that wait, in the order in which they were put.
#[derive(Debug, Drop)]
pub struct OpenNodes {
    nodes: Vec<OpenNode>,
}

impl Model for OpenNodes {
    ghost use Rattle.std.specs.Prelude.{List};
    ghost use Rattle.um_nodes.specs.declared.open_nodes.OpenNode.{OpenNode};
    ghost use Rattle.um_nodes.specs.Keys.{AreKeys};

    ghost Value = { List OpenNode };

    ghost view = { λ o. o.nodes.items };

    ghost invariant = { λ o. AreKeys o.nodes.items };
}

impl OpenNodes {
    /// No node. Takes no memory.
    pub fn new(alloc: Global) -> OpenNodes
        ensures { result ≡ [] }
    {
        OpenNodes {
            nodes: Vec::new(alloc),
        }
    }

    /// How many nodes wait.
    pub fn len(&self) -> usize
        ensures { result ≡ length self.now }
    {
        self.nodes.len()
    }

    /// What each list keeps.
    pub fn known(&self)
        ensures { AreKeys self.now }
    {
        let _ = &self.nodes;
    }

    /// Puts a node behind the others. The error is want of memory, drops the node and leaves the list.
    pub fn put(&mut self, entry: OpenNode) -> Result<(), Memory>
        requires { IsKey entry.key }
        ensures ok { OnOk result (self.new ≡ self.old ++ entry ∷ []) }
        ensures err { OnErr result (self.new ≡ self.old) }
    {
        match self.nodes.push(entry) {
            Ok(()) => Ok(()),
            Err(_refused) => Err(Memory),
        }
    }

    /// Takes the node that comes next. `None` exactly where no node waits.
    #[tactic(auto, using(crate::proofs::FirstPlace::taken))]
    pub fn take(&mut self) -> Option<OpenNode>
        ensures taken { IfSome result (λ entry. IsTaken self.old entry self.new) }
        ensures none { IsNone result ↔ (self.old ≡ []) }
        ensures rest { IsNone result → self.new ≡ [] }
    {
        let place = first_of(self.nodes.as_slice())?;
        Some(self.nodes.remove(place))
    }

    /// Takes the last node. `None` exactly where no node waits.
    pub fn pop(&mut self) -> Option<OpenNode>
        ensures taken { IfSome result (λ entry. self.old ≡ self.new ++ entry ∷ []) }
        ensures none { IsNone result ↔ (self.old ≡ []) }
        ensures rest { IsNone result → self.new ≡ [] }
    {
        self.nodes.pop()
    }
}
