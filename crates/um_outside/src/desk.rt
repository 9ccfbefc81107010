//! A desk: one file at a time is open on it, for reading or for writing.

ghost use Rattle.std.specs.Prelude.{◌≡◌, ◌<◌, length, false};
ghost use Rattle.um_outside.specs.Scenes.{Scene, Idle, IsReading, IsWriting, IsOpen};
ghost use Rattle.um_outside.specs.Desks.{OpensFile, ReadsFile, CreatesFile, WritesFile, ClosesFile};

use crate::Failed;

/// Files, of which one at a time is read or written.
pub trait Desk {
    ghost scene: { Self → Scene };

    fn open_file(&mut self, name: &str) -> Result<(), Failed>
        requires idle { (scene self.old).mode ≡ Idle }
        requires going { (scene self.old).stopped ≡ false }
        ensures { OpensFile name.now (scene self.old) result (scene self.new) };

    /// How many bytes were given; 0 is the end of the file.
    fn read(&mut self, into: &mut [u8]) -> Result<usize, Failed>
        requires reading { IsReading (scene self.old).mode }
        requires going { (scene self.old).stopped ≡ false }
        requires room { 0 < length into.old }
        ensures { ReadsFile into.new (scene self.old) result (scene self.new) };

    fn create_file(&mut self, name: &str) -> Result<(), Failed>
        requires idle { (scene self.old).mode ≡ Idle }
        requires going { (scene self.old).stopped ≡ false }
        ensures { CreatesFile name.now (scene self.old) result (scene self.new) };

    /// How many bytes were taken, at least one. A device that takes none has failed.
    fn write(&mut self, from: &[u8]) -> Result<usize, Failed>
        requires writing { IsWriting (scene self.old).mode }
        requires going { (scene self.old).stopped ≡ false }
        requires some { 0 < length from.now }
        ensures { WritesFile from.now (scene self.old) result (scene self.new) };

    fn close_file(&mut self) -> Result<(), Failed>
        requires open { IsOpen (scene self.old).mode }
        requires going { (scene self.old).stopped ≡ false }
        ensures { ClosesFile (scene self.old) result (scene self.new) };
}
