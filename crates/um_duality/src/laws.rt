//! Functions that do nothing: each has a law as its contract, so that the law is sure to be proved.

ghost use Rattle.um_duality.specs.Laws.{VertexLaw, ContinuousLaw, StrongDualityLaw, FarkasLaw};

/// The vertex of a board that has ended on a box satisfies the rows and lies within the ends of the box.
pub fn vertex_law()
    ensures { VertexLaw }
{}

/// On the root box of a continuous deck without sets, such a point is feasible.
pub fn continuous_law()
    ensures { ContinuousLaw }
{}

/// The bound of a board's multipliers is the objective of its vertex.
pub fn strong_duality_law()
    ensures { StrongDualityLaw }
{}

/// Where there is no point, the multipliers of Farkas empty the box.
pub fn farkas_law()
    ensures { FarkasLaw }
{}
