//! Bytes behind those that a list has, where it has room for them.

ghost use Rattle.std.specs.Prelude.{◌≡◌, ◌-◌, ◌≤◌, ◌++◌, length};

use um_num::List;

/// Never refused.
pub fn append_reserved(bytes: &mut List<u8>, more: &[u8])
    requires { length more.now ≤ bytes.old.spare }
    ensures { bytes.new ≡ record { items = bytes.old.items ++ more.now; spare = bytes.old.spare - length more.now } }
{
    for byte in more {
        bytes.push_reserved(*byte);
    }
}
