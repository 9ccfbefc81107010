//! The laws of a search: how it begins, what each act keeps of it, and the answers that follow.

ghost use Rattle.um_progress.specs.Laws.{
  BeginningLaw,
  TakingLaw,
  PuttingBackLaw,
  SettlingLaw,
  PartingLaw,
  RoomLaw,
  ImprovingLaw,
  WaitingKeyLaw,
  EntryKeyLaw,
  OptimalLaw,
  InfeasibleLaw,
  StoppingLaw,
  StoppingInHandLaw,
  DrainingLaw,
  StoppedLaw,
  EndlessCountLaw,
  BoundCountLaw,
  SettlingLineageLaw,
  PartingLineageLaw,
  RisingLaw,
};

/// The root alone, which waits, is a search.
pub fn beginning_law()
    ensures { BeginningLaw }
{}

/// The node that comes first is taken.
pub fn taking_law()
    ensures { TakingLaw }
{}

/// The node in hand is put back.
pub fn putting_back_law()
    ensures { PuttingBackLaw }
{}

/// The node in hand becomes a leaf that is not open.
pub fn settling_law()
    ensures { SettlingLaw }
{}

/// The node in hand becomes a split, and its open children wait.
pub fn parting_law()
    ensures { PartingLaw }
{}

/// There is room for two nodes more.
pub fn room_law()
    ensures { RoomLaw }
{}

/// A better point is found.
pub fn improving_law()
    ensures { ImprovingLaw }
{}

/// What waits has a key in order.
pub fn waiting_key_law()
    ensures { WaitingKeyLaw }
{}

/// The entry of an open child has a key in order.
pub fn entry_key_law()
    ensures { EntryKeyLaw }
{}

/// Where nothing waits, a point that was found is optimal.
pub fn optimal_law()
    ensures { OptimalLaw }
{}

/// Where nothing waits and no point was found, there is none.
pub fn infeasible_law()
    ensures { InfeasibleLaw }
{}

/// The search stops with no node in hand.
pub fn stopping_law()
    ensures { StoppingLaw }
{}

/// The search stops with a node in hand.
pub fn stopping_in_hand_law()
    ensures { StoppingInHandLaw }
{}

/// The last of those that wait becomes an open leaf.
pub fn draining_law()
    ensures { DrainingLaw }
{}

/// Where the search stopped and nothing waits any more, the answer by its cause is accepted.
pub fn stopped_law()
    ensures { StoppedLaw }
{}

/// A key without a bound makes the bounds endless.
pub fn endless_count_law()
    ensures { EndlessCountLaw }
{}

/// A key with a bound counts by it.
pub fn bound_count_law()
    ensures { BoundCountLaw }
{}

/// A leaf keeps that numbers rise from parents to children.
pub fn settling_lineage_law()
    ensures { SettlingLineageLaw }
{}

/// A split keeps that numbers rise from parents to children.
pub fn parting_lineage_law()
    ensures { PartingLineageLaw }
{}

/// Numbers rise from parents to children in the tree that is told.
pub fn rising_law()
    ensures { RisingLaw }
{}
