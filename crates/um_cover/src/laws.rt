//! The laws of what is known of nodes.

ghost use Rattle.um_cover.specs.Laws.{AcceptedLaw, PartedLaw, SettledLaw, ImprovedLaw};

/// A tree whose nodes all hold in an answer is accepted.
pub fn accepted_law()
    ensures { AcceptedLaw }
{}

/// A split keeps what is known of the nodes.
pub fn parted_law()
    ensures { PartedLaw }
{}

/// A new leaf keeps what is known of the other nodes.
pub fn settled_law()
    ensures { SettledLaw }
{}

/// A better incumbent keeps what is known of the nodes.
pub fn improved_law()
    ensures { ImprovedLaw }
{}
