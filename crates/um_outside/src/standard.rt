//! A desk over std's files and a sink over standard output: the trusted edge.
//!
//! They tell no bytes and no files, since no contract can say what the system holds. Want of memory
//! inside std is a fault here.

ghost use Rattle.std.specs.Prelude.{◌≡◌, false};
ghost use Rattle.um_outside.specs.Scenes.{Idle};

use crate::{Desk, Failed, Sink};
use std::fs;
use std::io::{Read, Write};
use std::rt::Files;

/// The file that is open.
#[derive(Drop)]
pub enum OpenFile<F> {
    Closed,
    Read(F),
    Written(F),
}

/// The system's files.
#[derive(Drop)]
pub struct FileDesk<'r, R: Files> {
    rt: &'r R,
    file: OpenFile<R::File>,
    /// Whether a call failed. The count of faults is 1 then: no call is made after it.
    stopped: bool,
}

impl<'r, R: Files> FileDesk<'r, R> {
    pub fn new(rt: &'r R) -> FileDesk<'r, R>
        ensures idle { (⟦<FileDesk<'r, R> as Desk>⟧.scene result).mode ≡ Idle }
        ensures going { (⟦<FileDesk<'r, R> as Desk>⟧.scene result).stopped ≡ false }
    {
        FileDesk {
            rt,
            file: OpenFile::Closed,
            stopped: false,
        }
    }
}

impl<'r, R: Files> Desk for FileDesk<'r, R> {
    ghost use Rattle.um_outside.specs.Standards.{scene_from};

    ghost scene = { λ desk. scene_from desk.file desk.stopped };

    fn open_file(&mut self, name: &str) -> Result<(), Failed> {
        match fs::File::open(self.rt, name) {
            Ok(file) => {
                self.file = OpenFile::Read(file);
                Ok(())
            }
            Err(_) => {
                self.stopped = true;
                Err(Failed)
            }
        }
    }

    fn read(&mut self, into: &mut [u8]) -> Result<usize, Failed> {
        let OpenFile::Read(file) = &mut self.file else {
            unreachable!()
        };
        match file.read(into) {
            Ok(count) => Ok(count),
            Err(_) => {
                self.stopped = true;
                Err(Failed)
            }
        }
    }

    fn create_file(&mut self, name: &str) -> Result<(), Failed> {
        match fs::File::create(self.rt, name) {
            Ok(file) => {
                self.file = OpenFile::Written(file);
                Ok(())
            }
            Err(_) => {
                self.stopped = true;
                Err(Failed)
            }
        }
    }

    fn write(&mut self, from: &[u8]) -> Result<usize, Failed> {
        let OpenFile::Written(file) = &mut self.file else {
            unreachable!()
        };
        match file.write(from) {
            Ok(count) if count > 0 => Ok(count),
            _ => {
                self.stopped = true;
                Err(Failed)
            }
        }
    }

    fn close_file(&mut self) -> Result<(), Failed> {
        self.file = OpenFile::Closed;
        Ok(())
    }
}

/// Standard output.
#[derive(Drop)]
pub struct StdSink<'r, R: Print> {
    rt: &'r R,
    /// Whether a write failed. The count of faults is 1 then: no write is made after it.
    stopped: bool,
}

impl<'r, R: Print> StdSink<'r, R> {
    pub fn new(rt: &'r R) -> StdSink<'r, R>
        ensures { (⟦<StdSink<'r, R> as Sink>⟧.told result).stopped ≡ false }
    {
        StdSink { rt, stopped: false }
    }
}

impl<'r, R: Print> Sink for StdSink<'r, R> {
    ghost use Rattle.std.specs.Prelude.{None, cond};

    ghost told = { λ sink. record { held = None; faults = cond sink.stopped 1 0; stopped = sink.stopped } };

    fn write(&mut self, from: &[u8]) -> Result<usize, Failed> {
        match self.rt.write_some(from) {
            Ok(count) if count > 0 => Ok(count),
            _ => {
                self.stopped = true;
                Err(Failed)
            }
        }
    }
}
