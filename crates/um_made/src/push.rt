//! Pushes whose refusal is want of memory.

ghost use Rattle.std.specs.Prelude.{◌≡◌, ◌∷◌, [], ◌++◌, OnOk};

use um_num::Memory;

/// Puts an item behind all others. A refused call drops the item.
pub fn push<T: Drop>(list: &mut Vec<T>, item: T) -> Result<(), Memory>
    ensures { OnOk result (list.new.items ≡ list.old.items ++ item ∷ []) }
{
    match list.push(item) {
        Ok(()) => Ok(()),
        Err(_refused) => Err(Memory),
    }
}
