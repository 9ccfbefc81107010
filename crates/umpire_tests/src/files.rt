//! Whole files of the system, and files that a desk in memory was asked for.

ghost use Rattle.std.specs.Prelude.{◌≡◌, false, IfOk};
ghost use Rattle.um_outside.specs.MemoryDesks.{scene_of};
ghost use Rattle.um_outside.specs.Scenes.{Idle};

use std::alloc::Global;
use std::fs;
use std::test::Fail;
use um_num::Memory;
use um_outside::{
    Access, FileDesk, FileFault, MemoryDesk, StdSink, read_file, write_all, write_file,
};

const TEXT: &[u8] = b"twenty bytes of text";

#[test]
fn system(rt: HostRuntime) -> Result<(), Fail> {
    let name = "umpire_tests_system.txt";
    let mut desk = FileDesk::new(&rt);
    let written = write_file(&mut desk, name, TEXT);
    assert_eq!(&rt; written, Ok(()));
    let mut desk = FileDesk::new(&rt);
    let read = read_file(rt.alloc(), &mut desk, name, 20)?;
    assert_eq!(&rt; read.as_slice(), TEXT);
    let mut desk = FileDesk::new(&rt);
    let long = read_file(rt.alloc(), &mut desk, name, 19).err();
    assert_eq!(&rt; long, Some(FileFault::TooLong));
    fs::remove_file(&rt, name)?;
    let mut desk = FileDesk::new(&rt);
    let missing = read_file(rt.alloc(), &mut desk, name, 20).err();
    assert_eq!(&rt; missing, Some(FileFault::Fault));
    let mut out = StdSink::new(&rt);
    let printed = write_all(&mut out, b"printed\n");
    assert_eq!(&rt; printed, Ok(()));
    Ok(())
}

/// A desk in memory with a file of twenty bytes and room for a tree, which tells of two files.
fn desk_of(alloc: Global) -> Result<MemoryDesk, Memory>
    ensures idle { IfOk result (λ desk. (scene_of desk).mode ≡ Idle) }
    ensures going { IfOk result (λ desk. (scene_of desk).stopped ≡ false) }
{
    let mut desk = MemoryDesk::new(alloc, 16);
    desk.put_file("deck", TEXT)?;
    desk.room("tree", 20)?;
    desk.tell_asked(2, 8)?;
    Ok(desk)
}

/// What file `i` was asked for, where its name is told as this one.
fn asked_as(desk: &MemoryDesk, i: usize, name: &str) -> Option<Access> {
    let (access, told) = desk.asked(i)?;
    (told == name.as_bytes()).then_some(access)
}

#[test]
fn asked_files(rt: HostRuntime) -> Result<(), Fail> {
    let mut desk = desk_of(rt.alloc())?;
    read_file(rt.alloc(), &mut desk, "deck", 20)?;
    let written = write_file(&mut desk, "tree", TEXT);
    assert_eq!(&rt; written, Ok(()));
    assert_eq!(&rt; desk.file("tree").unwrap_or(b""), TEXT);
    assert_eq!(&rt; asked_as(&desk, 0, "deck"), Some(Access::Open));
    assert_eq!(&rt; asked_as(&desk, 1, "tree"), Some(Access::Create));
    assert!(&rt; desk.asked(2).is_none());
    Ok(())
}
