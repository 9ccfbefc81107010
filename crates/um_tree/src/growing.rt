//! The tree that grows.

ghost use Rattle.std.specs.Prelude.{◌≡◌, ◌+◌, ◌<◌, ◌≤◌, [], ◌∷◌, length, map, slice_set, slice_index_or, None, Some, IfOk, OnOk, OnErr};
ghost use Rattle.um_model.specs.AnswerValues.{plain_node, plain_what};
ghost use Rattle.um_model.specs.declared.limits.TheConstants.{MOST_NODES};
ghost use Rattle.um_tree.specs.Growths.{origin_at, what_at, node_at, no_node, IsLeaf, IsOpenAt, parted, settled, IsTold};

use std::alloc::Global;
use std::marker::Model;
use std::mem::replace;
use um_model::{Branch, Node, Side, Solved, Tree, TreeFull, What};
use um_num::{List, Memory};

/// Where a node came from: it is the child of this node, by this branch, on this side.
#[derive(Clone, Copy, PartialEq, Eq, Debug)]
pub struct Origin {
    pub parent: u32,
    pub branch: Branch,
    pub side: Side,
}

/// A tree that grows, seen as what is known of its nodes by id.
#[derive(Debug, Drop)]
pub struct Growth {
    /// `None` for the root.
    origins: List<Option<Origin>>,
    nodes: List<Node>,
    /// The next node in preorder; `None` behind the last.
    nexts: List<Option<u32>>,
}

impl Model for Growth {
    ghost use Rattle.um_tree.specs.Growths.{GrowthValue};
    ghost use Rattle.um_tree.specs.Links.{IsGrowing};

    ghost Value = { GrowthValue };

    ghost use Rattle.std.specs.Prelude.{map};
    ghost use Rattle.um_model.specs.AnswerValues.{plain_node};

    ghost view = { λ g. record { origins = g.origins.items; nodes = map plain_node g.nodes.items } };

    ghost invariant = { λ g. IsGrowing (record { origins = g.origins.items; nodes = map plain_node g.nodes.items }) g.nexts.items };
}

impl Growth {
    ghost use Rattle.um_tree.specs.Growths.{IsGrowth};

    /// The root alone. The error is want of memory.
    pub fn new(alloc: Global, root: Node) -> Result<Growth, Memory>
        requires { IsLeaf (plain_what root.what) }
        ensures { IfOk result (λ g. g ≡ record { origins = None ∷ []; nodes = plain_node root ∷ [] }) }
    {
        let mut origins = List::new(alloc);
        let mut nodes = List::new(alloc);
        let mut nexts = List::new(alloc);
        origins.push(None)?;
        nodes.push(root)?;
        nexts.push(None)?;
        Ok(Growth {
            origins,
            nodes,
            nexts,
        })
    }

    /// How many nodes there are.
    pub fn len(&self) -> usize
        ensures { result ≡ length self.now.nodes }
    {
        self.nodes.len()
    }

    /// What each tree keeps.
    pub fn known(&self)
        ensures { IsGrowth self.now }
    {
        let _ = &self.nodes;
    }

    /// Where a node came from; `None` for the root.
    pub fn origin(&self, id: u32) -> Option<Origin>
        requires { id < length self.now.nodes }
        ensures { result ≡ origin_at self.now id }
    {
        self.origins.as_slice()[id as usize]
    }

    /// The node of this id.
    pub fn node(&self, id: u32) -> &Node
        requires { id < length self.now.nodes }
        ensures { plain_node result.now ≡ node_at self.now id }
    {
        &self.nodes.as_slice()[id as usize]
    }

    /// A leaf becomes a split, and these leaves get the next two ids as its children. The error is want
    /// of memory, and leaves the tree.
    pub fn split(
        &mut self,
        id: u32,
        solved: Option<Solved>,
        branch: Branch,
        left: Node,
        right: Node,
    ) -> Result<(), Memory>
        requires open { IsOpenAt self.old id }
        requires left { IsLeaf (plain_what left.what) }
        requires right { IsLeaf (plain_what right.what) }
        requires room { length self.old.nodes + 2 ≤ MOST_NODES }
        ensures ok { OnOk result (self.new ≡ parted self.old id solved branch (plain_node left) (plain_node right)) }
        ensures err { OnErr result (self.new ≡ self.old) }
    {
        self.origins.reserve(2)?;
        self.nodes.reserve(2)?;
        self.nexts.reserve(2)?;
        let first = self.nodes.len() as u32;
        let behind = self.nexts.as_slice()[id as usize];
        self.origins.push_reserved(Some(Origin {
            parent: id,
            branch,
            side: Side::Left,
        }));
        self.origins.push_reserved(Some(Origin {
            parent: id,
            branch,
            side: Side::Right,
        }));
        let what = What::Split(branch);
        *self.nodes.at_mut(id as usize) = Node { solved, what };
        self.nodes.push_reserved(left);
        self.nodes.push_reserved(right);
        *self.nexts.at_mut(id as usize) = Some(first);
        self.nexts.push_reserved(Some(first + 1));
        self.nexts.push_reserved(behind);
        Ok(())
    }

    /// A leaf becomes another one.
    pub fn settle(&mut self, id: u32, node: Node)
        requires open { IsOpenAt self.old id }
        requires leaf { IsLeaf (plain_what node.what) }
        ensures { self.new ≡ settled self.old id (plain_node node) }
    {
        *self.nodes.at_mut(id as usize) = node;
    }

    /// The tree of all nodes. The error is want of memory.
    pub fn into_tree(self, alloc: Global) -> Result<Tree, Memory>
        ensures { IfOk result (λ tree. IsTold self (map plain_node tree)) }
    {
        let Growth {
            origins: _origins,
            mut nodes,
            nexts,
        } = self;
        let nexts = nexts.as_slice();
        let mut tree = Tree::new(alloc);
        let mut next = Some(0);
        for _place in 0..nexts.len() {
            let Some(id) = next else { unreachable!() };
            let node = take_node(&mut nodes, id);
            next = nexts[id as usize];
            match tree.push(node) {
                Ok(()) => {}
                Err(TreeFull::Full) => unreachable!(),
                Err(TreeFull::Memory) => return Err(Memory),
            }
        }
        Ok(tree)
    }
}

/// The node of this id, with another one left in its place.
fn take_node(nodes: &mut List<Node>, id: u32) -> Node
    requires { id < length nodes.old.items }
    ensures node { plain_node result ≡ slice_index_or (map plain_node nodes.old.items) id no_node }
    ensures left { map plain_node nodes.new.items ≡ slice_set (map plain_node nodes.old.items) id no_node }
{
    let what = What::Void(0);
    replace(nodes.at_mut(id as usize), Node { solved: None, what })
}
