//! Functions that do nothing: each has a law as its contract, so that the law is sure to be proved.

ghost use Rattle.um_box.specs.Laws.{PathLaw};

/// Entering every branch of a path from the root gives the box of that path, and leaving them all, the
/// last one first, gives the root.
pub fn path_law()
    ensures { PathLaw }
{}
