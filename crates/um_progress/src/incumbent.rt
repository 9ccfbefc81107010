//! The best point so far.

use um_model::Point;
use um_num::Frac;

/// The best point so far, with its objective.
#[derive(Debug, Drop)]
pub struct Incumbent {
    pub point: Point,
    pub objective: Frac,
}
