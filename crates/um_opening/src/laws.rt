//! Functions that do nothing: each has a law as its contract, so that the law is sure to be proved.

ghost use Rattle.um_opening.specs.Laws.{BegunLaw, BegunCostsLaw, BegunWithoutLaw, ShownRayLaw};

/// The node of a number may be begun where its box is put on the board.
pub fn begun_law()
    ensures { BegunLaw }
{}

/// A number that shows no ray is begun with the given costs, where the board takes them.
pub fn begun_costs_law()
    ensures { BegunCostsLaw }
{}

/// A number that shows a ray is begun without costs.
pub fn begun_without_law()
    ensures { BegunWithoutLaw }
{}

/// What the start problem shows is a ray of the deck.
pub fn shown_ray_law()
    ensures { ShownRayLaw }
{}
