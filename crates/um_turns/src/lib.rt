//! The history of a search: what is told of each node that was solved, and what each act keeps of it.
//!
//! There is no code here. The specs say how a turn is run on the one board of a search, which the first turn opens, where each turn begins, what
//! became of its node, which multipliers a node is handed, and which vertex is the best point; the laws say that the
//! empty history is one, and that each act of a search keeps it or adds one turn. A node that was solved is never
//! written again, and boxes stay, so what is told of a turn stays told. A vertex that asks for no branch is feasible, and
//! the branch that it asks for takes it away.
#![tactic(auto)]

mod laws;

pub use laws::{
    beginning_history_law, behind_turn_law, box_within_law, draining_history_law,
    feasible_vertex_law, going_costs_law, going_on_law, new_best_law, order_law,
    parting_history_law, pivots_law, semi_lows_law, settling_history_law, shown_law,
    still_best_law, taking_history_law, turning_history_law, vertex_closes_law, vertex_point_law,
};
