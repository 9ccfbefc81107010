//! A sink: bytes go into it one after another.

ghost use Rattle.std.specs.Prelude.{◌≡◌, ◌<◌, length, false, OnOk, OnErr};
ghost use Rattle.um_outside.specs.Sinks.{SinkScene, Writes, Took, TookFront};

use crate::Failed;

/// An output that takes bytes and never gives them back.
pub trait Sink {
    ghost told: { Self → SinkScene };

    /// How many bytes were taken, at least one. A device that takes none has failed.
    fn write(&mut self, from: &[u8]) -> Result<usize, Failed>
        requires going { (told self.old).stopped ≡ false }
        requires some { 0 < length from.now }
        ensures { Writes from.now (told self.old) result (told self.new) };
}

/// Writes all bytes, or fails with a front of them written. Each write is offered all that is left.
pub fn write_all<O: Sink>(out: &mut O, bytes: &[u8]) -> Result<(), Failed>
    requires going { (O.told out.old).stopped ≡ false }
    ensures ok { OnOk result (Took bytes.now (O.told out.old) (O.told out.new)) }
    ensures err { OnErr result (TookFront bytes.now (O.told out.old) (O.told out.new)) }
{
    let mut at = 0;
    'pieces: while at < bytes.len() {
        at += out.write(&bytes[at..])?;
    }
    Ok(())
}
