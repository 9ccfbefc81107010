//! Whole files, read and written piece by piece.

ghost use Rattle.std.specs.Prelude.{◌≡◌, ◌≤◌, ◌++◌, length, false, IfOk, OnOk, OnErr, IfErr};
ghost use Rattle.um_outside.specs.Scenes.{Idle};
ghost use Rattle.um_outside.specs.WholeFiles.{
  ReadWhole,
  ReadTooMuch,
  ReadGivenUp,
  ReadFaulted,
  GivenWithin,
  WroteWhole,
  WriteFaulted,
};

use crate::{Desk, Failed};
use std::alloc::Global;
use thiserror::Error;
use um_num::{List, Memory};

/// Why a file was not read.
#[derive(Clone, Copy, PartialEq, Eq, Debug, Error)]
pub enum FileFault {
    #[error("a fault of the outside")]
    Fault,
    #[error("the file is too long")]
    TooLong,
    #[error("no memory")]
    Memory,
}

impl From<Failed> for FileFault {
    ghost use Rattle.um_outside.specs.declared.whole_file.FileFault.{FileFault};

    ghost from_gives = { λ _ fault. fault ≡ FileFault.Fault };

    fn from(_failed: Failed) -> FileFault {
        FileFault::Fault
    }
}

impl From<Memory> for FileFault {
    ghost use Rattle.um_outside.specs.declared.whole_file.FileFault.{FileFault};

    ghost from_gives = { λ _ fault. fault ≡ FileFault.Memory };

    fn from(_memory: Memory) -> FileFault {
        FileFault::Memory
    }
}

/// The bytes of a file, which may be at most `most`. Each read is offered at most 4096 bytes.
///
/// After a refusal the file may still be open, and nothing more may be called on a desk that stopped.
pub fn read_file<D: Desk>(
    alloc: Global,
    desk: &mut D,
    name: &str,
    most: usize,
) -> Result<List<u8>, FileFault>
    requires idle { (D.scene desk.old).mode ≡ Idle }
    requires going { (D.scene desk.old).stopped ≡ false }
    ensures ok { IfOk result (λ bytes. ReadWhole name.now bytes.items (D.scene desk.old) (D.scene desk.new)) }
    ensures size { IfOk result (λ bytes. length bytes.items ≤ most) }
    ensures fault { result ≡ Err FileFault.Fault → ReadFaulted name.now (D.scene desk.old) (D.scene desk.new) }
    ensures fault_within { result ≡ Err FileFault.Fault → GivenWithin most (D.scene desk.old) (D.scene desk.new) }
    ensures too_long { result ≡ Err FileFault.TooLong → ReadTooMuch name.now most (D.scene desk.old) (D.scene desk.new) }
    ensures memory { result ≡ Err FileFault.Memory → ReadGivenUp name.now (D.scene desk.old) (D.scene desk.new) }
{
    desk.open_file(name)?;
    let mut bytes = List::new(alloc);
    let mut piece = [0u8; 4096];
    'pieces: loop {
        let count = desk.read(&mut piece)?;
        if count == 0 {
            break;
        }
        if most - bytes.len() < count {
            return Err(FileFault::TooLong);
        }
        append(&mut bytes, &piece[..count])?;
    }
    desk.close_file()?;
    Ok(bytes)
}

fn append(bytes: &mut List<u8>, more: &[u8]) -> Result<(), Memory>
    ensures { OnOk result (bytes.new.items ≡ bytes.old.items ++ more.now) }
{
    bytes.reserve(more.len())?;
    for byte in more {
        bytes.push_reserved(*byte);
    }
    Ok(())
}

/// Makes the file of this name hold these bytes. Each write is offered all that is left.
pub fn write_file<D: Desk>(desk: &mut D, name: &str, bytes: &[u8]) -> Result<(), Failed>
    requires idle { (D.scene desk.old).mode ≡ Idle }
    requires going { (D.scene desk.old).stopped ≡ false }
    ensures ok { OnOk result (WroteWhole name.now bytes.now (D.scene desk.old) (D.scene desk.new)) }
    ensures err { OnErr result (WriteFaulted name.now (D.scene desk.old) (D.scene desk.new)) }
{
    desk.create_file(name)?;
    let mut at = 0;
    'pieces: while at < bytes.len() {
        at += desk.write(&bytes[at..])?;
    }
    desk.close_file()
}
