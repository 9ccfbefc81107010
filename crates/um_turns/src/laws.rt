//! The laws of a history: what each act of a search keeps of it.

ghost use Rattle.um_turns.specs.Laws.{
  BeginningHistoryLaw,
  TakingHistoryLaw,
  SettlingHistoryLaw,
  TurningHistoryLaw,
  PartingHistoryLaw,
  DrainingHistoryLaw,
  BehindTurnLaw,
  PivotsLaw,
  StillBestLaw,
  NewBestLaw,
  OrderLaw,
  GoingOnLaw,
  GoingCostsLaw,
  ShownLaw,
  VertexClosesLaw,
  BoxWithinLaw,
  SemiLowsLaw,
  VertexPointLaw,
  FeasibleVertexLaw,
};

/// The root alone has an empty history.
pub fn beginning_history_law()
    ensures { BeginningHistoryLaw }
{}

/// A node is taken.
pub fn taking_history_law()
    ensures { TakingHistoryLaw }
{}

/// The node in hand becomes another one without a number.
pub fn settling_history_law()
    ensures { SettlingHistoryLaw }
{}

/// The node in hand becomes another one with the next number.
pub fn turning_history_law()
    ensures { TurningHistoryLaw }
{}

/// The node in hand becomes a split with the next number.
pub fn parting_history_law()
    ensures { PartingHistoryLaw }
{}

/// The last entry of a search that stopped becomes another node.
pub fn draining_history_law()
    ensures { DrainingHistoryLaw }
{}

/// The board, the pivots and the ends behind one turn more.
pub fn behind_turn_law()
    ensures { BehindTurnLaw }
{}

/// The pivots of all turns and those that are left.
pub fn pivots_law()
    ensures { PivotsLaw }
{}

/// A turn with no better vertex leaves the best point.
pub fn still_best_law()
    ensures { StillBestLaw }
{}

/// A feasible vertex with a lower objective is the best point.
pub fn new_best_law()
    ensures { NewBestLaw }
{}

/// The order of two numbers, as fractions are compared.
pub fn order_law()
    ensures { OrderLaw }
{}

/// The next number may be solved where each turn is finished.
pub fn going_on_law()
    ensures { GoingOnLaw }
{}

/// The board takes the given costs where no turn has shown a ray.
pub fn going_costs_law()
    ensures { GoingCostsLaw }
{}

/// The ray of a history was shown by the start problem.
pub fn shown_law()
    ensures { ShownLaw }
{}

/// The multipliers of a vertex close its node at the objective of the vertex.
pub fn vertex_closes_law()
    ensures { VertexClosesLaw }
{}

/// The box of each node of a tree lies within the root box.
pub fn box_within_law()
    ensures { BoxWithinLaw }
{}

/// The low ends of semicontinuous columns in the box of each node of a tree.
pub fn semi_lows_law()
    ensures { SemiLowsLaw }
{}

/// The vertex of a node is a point of the node's box.
pub fn vertex_point_law()
    ensures { VertexPointLaw }
{}

/// A vertex that asks for no branch is feasible.
pub fn feasible_vertex_law()
    ensures { FeasibleVertexLaw }
{}
