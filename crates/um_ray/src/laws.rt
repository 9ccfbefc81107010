//! Functions that do nothing: each has a law as its contract, so that the law is sure to be proved.

ghost use Rattle.um_ray.specs.Laws.{MayStartLaw, OnDirectionsLaw, PointLaw, LeastLaw, LevelLaw, RayLaw, StartedReadyLaw, StartedRayLaw, StartedLargeLaw};

/// The ends of the start problem may be put on a board that starts.
pub fn may_start_law()
    ensures { MayStartLaw }
{}

/// A run of the start problem is one on the box of directions.
pub fn on_directions_law()
    ensures { OnDirectionsLaw }
{}

/// The start problem has a point.
pub fn point_law()
    ensures { PointLaw }
{}

/// Its value is never above 0.
pub fn least_law()
    ensures { LeastLaw }
{}

/// It is 0 exactly where each end of the deck that a reduced cost wants is finite.
pub fn level_law()
    ensures { LevelLaw }
{}

/// Where it is below 0 at the end, the direction is a ray.
pub fn ray_law()
    ensures { RayLaw }
{}

/// Where a start is ready, each end of the deck that a reduced cost wants is finite.
pub fn started_ready_law()
    ensures { StartedReadyLaw }
{}

/// The ray that a start hands out is a ray of the deck.
pub fn started_ray_law()
    ensures { StartedRayLaw }
{}

/// Where a start finds a number too large, the deck has a ray still.
pub fn started_large_law()
    ensures { StartedLargeLaw }
{}
