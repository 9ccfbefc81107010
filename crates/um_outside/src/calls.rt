//! Numbered calls, of which some are to fail.

ghost use Rattle.std.specs.Prelude.{◌≡◌, ◌+◌, [], ◌∷◌, ◌++◌, OnOk, OnErr};
ghost use Rattle.um_outside.specs.Numbered.{next_number, is_among};

use std::alloc::Global;
use um_num::{List, Memory};

/// How many calls were made, and the numbers of those that fail.
#[derive(Drop)]
pub struct Calls {
    /// Stands still at the last number of its type.
    made: u64,
    failing: List<u64>,
}

impl Calls {
    pub fn new(alloc: Global) -> Calls
        ensures made { result.made ≡ 0 }
        ensures failing { result.failing.items ≡ [] }
    {
        Calls {
            made: 0,
            failing: List::new(alloc),
        }
    }

    pub fn fail_at(&mut self, call: u64) -> Result<(), Memory>
        ensures made { self.new.made ≡ self.old.made }
        ensures ok { OnOk result (self.new.failing.items ≡ self.old.failing.items ++ call ∷ []) }
        ensures err { OnErr result (self.new.failing.items ≡ self.old.failing.items) }
    {
        self.failing.push(call)
    }

    /// Counts a call, and says whether it is one that fails.
    pub fn next(&mut self) -> bool
        ensures made { self.new.made ≡ next_number self.old.made }
        ensures failing { self.new.failing.items ≡ self.old.failing.items }
        ensures answer { result ≡ is_among (next_number self.old.made) self.old.failing.items }
    {
        self.made = self.made.saturating_add(1);
        self.failing.as_slice().contains(&self.made)
    }
}
