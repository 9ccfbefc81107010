//! A desk that remembers which file it was asked for last, so that a message can name it.

ghost use Rattle.std.specs.Prelude.{◌≡◌, ◌<◌, length, false, is_err, IfSome};
ghost use Rattle.um_outside.specs.Scenes.{Idle, IsReading, IsWriting, IsOpen};
ghost use Rattle.um_outside.specs.Desks.{OpensFile, ReadsFile, CreatesFile, WritesFile, ClosesFile};
ghost use Rattle.um_outside.specs.declared.asked.Access.TheVariants as access;

use std::alloc::Global;
use um_num::{FileName, Memory};
use um_outside::{Access, Desk, Failed};

/// A file that was asked for, and what for.
#[derive(Drop)]
pub struct AskedFile {
    pub access: Access,
    pub name: FileName,
}

/// Another desk, with the file that it was asked for last. Where no memory was found for its name it has none.
#[derive(Drop)]
pub struct NamingDesk<D> {
    alloc: Global,
    pub desk: D,
    pub last: Option<AskedFile>,
    /// Whether the last call on the other desk failed.
    pub failed: bool,
}

impl<D: Desk> NamingDesk<D> {
    pub fn new(alloc: Global, desk: D) -> NamingDesk<D>
        ensures { result.desk ≡ desk }
    {
        NamingDesk {
            alloc,
            desk,
            last: None,
            failed: false,
        }
    }

    fn note(&mut self, access: Access, name: &str)
        ensures desk { self.new.desk ≡ self.old.desk }
        ensures last { IfSome self.new.last (λ asked. (asked.access ≡ access) × (asked.name ≡ name.now)) }
    {
        self.last = match FileName::from_text(self.alloc, name) {
            Ok(name) => Some(AskedFile { access, name }),
            Err(Memory) => None,
        };
    }
}

impl<D: Desk> Desk for NamingDesk<D> {
    ghost scene = { λ desk. D.scene desk.desk };

    fn open_file(&mut self, name: &str) -> Result<(), Failed>
        requires idle { (D.scene self.old.desk).mode ≡ Idle }
        requires going { (D.scene self.old.desk).stopped ≡ false }
        ensures scene { OpensFile name.now (D.scene self.old.desk) result (D.scene self.new.desk) }
        ensures last { IfSome self.new.last (λ asked. (asked.access ≡ access.Open) × (asked.name ≡ name.now)) }
        ensures failed { self.new.failed ≡ is_err result }
    {
        self.note(Access::Open, name);
        let opened = self.desk.open_file(name);
        self.failed = opened.is_err();
        opened
    }

    fn read(&mut self, into: &mut [u8]) -> Result<usize, Failed>
        requires reading { IsReading (D.scene self.old.desk).mode }
        requires going { (D.scene self.old.desk).stopped ≡ false }
        requires room { 0 < length into.old }
        ensures scene { ReadsFile into.new (D.scene self.old.desk) result (D.scene self.new.desk) }
        ensures last { self.new.last ≡ self.old.last }
        ensures failed { self.new.failed ≡ is_err result }
    {
        let given = self.desk.read(into);
        self.failed = given.is_err();
        given
    }

    fn create_file(&mut self, name: &str) -> Result<(), Failed>
        requires idle { (D.scene self.old.desk).mode ≡ Idle }
        requires going { (D.scene self.old.desk).stopped ≡ false }
        ensures scene { CreatesFile name.now (D.scene self.old.desk) result (D.scene self.new.desk) }
        ensures last { IfSome self.new.last (λ asked. (asked.access ≡ access.Create) × (asked.name ≡ name.now)) }
        ensures failed { self.new.failed ≡ is_err result }
    {
        self.note(Access::Create, name);
        let created = self.desk.create_file(name);
        self.failed = created.is_err();
        created
    }

    fn write(&mut self, from: &[u8]) -> Result<usize, Failed>
        requires writing { IsWriting (D.scene self.old.desk).mode }
        requires going { (D.scene self.old.desk).stopped ≡ false }
        requires some { 0 < length from.now }
        ensures scene { WritesFile from.now (D.scene self.old.desk) result (D.scene self.new.desk) }
        ensures last { self.new.last ≡ self.old.last }
        ensures failed { self.new.failed ≡ is_err result }
    {
        let taken = self.desk.write(from);
        self.failed = taken.is_err();
        taken
    }

    fn close_file(&mut self) -> Result<(), Failed>
        requires open { IsOpen (D.scene self.old.desk).mode }
        requires going { (D.scene self.old.desk).stopped ≡ false }
        ensures scene { ClosesFile (D.scene self.old.desk) result (D.scene self.new.desk) }
        ensures last { self.new.last ≡ self.old.last }
        ensures failed { self.new.failed ≡ is_err result }
    {
        let closed = self.desk.close_file();
        self.failed = closed.is_err();
        closed
    }
}
