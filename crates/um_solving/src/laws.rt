//! Functions that do nothing: each has a law as its contract, so that the law is sure to be proved.

ghost use Rattle.um_relax.specs.Runs.{SameCostsLaw};
ghost use Rattle.um_solving.specs.Laws.{FullRootLaw, RootWithinLaw, ChildWithinLaw, FeasibleLaw, MembersLaw, DiscreteEndsLaw, WithinLaw, NoCostsBeginLaw, NextLaw, VertexLaw, HeldLaw, NoCostsVertexLaw, EmptyLaw, StoppedLaw};

/// The root box of a well-formed deck is not void.
pub fn full_root_law()
    ensures { FullRootLaw }
{}

/// The root box lies within itself.
pub fn root_within_law()
    ensures { RootWithinLaw }
{}

/// The children of a box within the root box lie within it.
pub fn child_within_law()
    ensures { ChildWithinLaw }
{}

/// A point of a box within the root box is feasible where the columns and sets keep their rules.
pub fn feasible_law()
    ensures { FeasibleLaw }
{}

/// The members of sets at a point of a box within the root box.
pub fn members_law()
    ensures { MembersLaw }
{}

/// Integer and semicontinuous columns have two finite ends in a box within the root box.
pub fn discrete_ends_law()
    ensures { DiscreteEndsLaw }
{}

/// What reduced costs want of the root box they want of each box within it.
pub fn within_law()
    ensures { WithinLaw }
{}

/// A node may be begun on a board that takes no costs.
pub fn no_costs_begin_law()
    ensures { NoCostsBeginLaw }
{}

/// The next node may be begun where a run on a node has led.
pub fn next_law()
    ensures { NextLaw }
{}

/// A run leaves the costs that the board takes.
pub fn same_costs_law()
    ensures { SameCostsLaw }
{}

/// What the vertex of a node and its multipliers mean for the deck, where the board takes the given costs.
pub fn vertex_law()
    ensures { VertexLaw }
{}

/// What they mean whichever costs the board takes.
pub fn held_law()
    ensures { HeldLaw }
{}

/// Without costs the multipliers of a vertex are 1 and none.
pub fn no_costs_vertex_law()
    ensures { NoCostsVertexLaw }
{}

/// What the multipliers of a node without a point mean for the deck.
pub fn empty_law()
    ensures { EmptyLaw }
{}

/// What a node's own multipliers mean for the deck where the search stopped at it.
pub fn stopped_law()
    ensures { StoppedLaw }
{}
