//! A folder of cases: its command lines, and the files that they read and make.

ghost use Rattle.std.specs.Prelude.{◌≡◌, false, IfOk, OnOk};
ghost use Rattle.um_outside.specs.MemoryDesks.{scene_of};
ghost use Rattle.um_outside.specs.MemorySinks.{told_of};
ghost use Rattle.um_outside.specs.Scenes.{Idle};

use crate::put::put_counted;
use crate::texts::{MOST_BYTES, bytes_of, text_of};
use anyhow::Result;
use std::alloc::Global;
use um_num::{List, Memory};
use um_outside::{MemoryDesk, MemorySink};
use umpire::run;

/// A file that a line made.
#[derive(Drop)]
struct Made {
    name: String,
    bytes: List<u8>,
}

/// The lines of a folder that are being run.
#[derive(Clone, Copy)]
struct Folder<'r> {
    rt: &'r HostRuntime,
    name: &'r str,
}

/// Runs the lines of a folder.
pub fn run_folder(rt: &HostRuntime, name: &str) -> Result<()> {
    let words = format!(in rt.alloc(); "{name}/words")?;
    let lines = text_of(rt, &words)?;
    let folder = Folder { rt, name };
    let mut made = Vec::new(rt.alloc());
    for line in lines.lines() {
        println!(rt; "== {name}: {line}")?;
        run_line(&folder, line, &mut made)?;
    }
    Ok(())
}

/// Runs one line, and writes what came of it.
fn run_line(folder: &Folder<'_>, line: &str, made: &mut Vec<Made>) -> Result<()> {
    let rt = folder.rt;
    let words = words_of(rt.alloc(), line)?;
    let mut desk = desk_of(folder, &words, made)?;
    let mut sink = sink_of(rt.alloc())?;
    let outcome = run(rt.alloc(), words.as_slice(), &mut desk, &mut sink);
    let status = outcome.status.number();
    println!(rt; "-- status {status}")?;
    put_counted(rt, "output", sink.bytes())?;
    for word in words.iter() {
        tell_made(folder, &desk, word, made)?;
    }
    Ok(())
}

/// The words of a line, one blank apart.
fn words_of(alloc: Global, line: &str) -> Result<Vec<String>> {
    let mut words = Vec::new(alloc);
    for word in line.split(' ') {
        words.push(String::from_str(alloc, word)?)?;
    }
    Ok(words)
}

/// What the file of this name holds before a line is run; `None` where there is no such file.
fn held(folder: &Folder<'_>, name: &str, made: &Vec<Made>) -> Result<Option<List<u8>>> {
    for file in made.iter().rev() {
        if file.name.as_str() == name {
            return Ok(Some(List::from_slice(folder.rt.alloc(), file.bytes.as_slice())?));
        }
    }
    let path = format!(in folder.rt.alloc(); "{}/{name}", folder.name)?;
    bytes_of(folder.rt, &path)
}

/// A desk with the files that are named by words, and with room for a file of each.
fn desk_of(folder: &Folder<'_>, words: &Vec<String>, made: &Vec<Made>) -> Result<MemoryDesk>
    ensures idle { IfOk result (λ desk. (scene_of desk).mode ≡ Idle) }
    ensures going { IfOk result (λ desk. (scene_of desk).stopped ≡ false) }
{
    let mut desk = MemoryDesk::new(folder.rt.alloc(), MOST_BYTES);
    lay_all(folder, &mut desk, words.as_slice(), made)?;
    Ok(desk)
}

/// Lays the files of these names on the desk, and makes room for them.
fn lay_all(
    folder: &Folder<'_>,
    desk: &mut MemoryDesk,
    names: &[String],
    made: &Vec<Made>,
) -> Result<()>
    requires { (scene_of desk.old).mode ≡ Idle }
    ensures idle { OnOk result ((scene_of desk.new).mode ≡ Idle) }
    ensures going { OnOk result ((scene_of desk.new).stopped ≡ (scene_of desk.old).stopped) }
{
    let Some((name, rest)) = names.split_first() else {
        return Ok(());
    };
    lay(folder, desk, name, made)?;
    lay_all(folder, desk, rest, made)
}

/// Lays the file of this name on the desk, where there is one, and makes room for it.
fn lay(folder: &Folder<'_>, desk: &mut MemoryDesk, name: &str, made: &Vec<Made>) -> Result<()>
    requires { (scene_of desk.old).mode ≡ Idle }
    ensures idle { OnOk result ((scene_of desk.new).mode ≡ Idle) }
    ensures going { OnOk result ((scene_of desk.new).stopped ≡ (scene_of desk.old).stopped) }
{
    if let Some(bytes) = held(folder, name, made)? {
        desk.put_file(name, bytes.as_slice())?;
    }
    desk.room(name, MOST_BYTES)?;
    Ok(())
}

/// A sink with room enough.
fn sink_of(alloc: Global) -> Result<MemorySink, Memory>
    ensures { IfOk result (λ sink. (told_of sink).stopped ≡ false) }
{
    let mut sink = MemorySink::new(alloc, MOST_BYTES);
    sink.room(MOST_BYTES)?;
    Ok(sink)
}

/// Writes the file of this name, where the line made it or changed it.
fn tell_made(
    folder: &Folder<'_>,
    desk: &MemoryDesk,
    name: &str,
    made: &mut Vec<Made>,
) -> Result<()> {
    let Some(bytes) = desk.file(name) else {
        return Ok(());
    };
    if let Some(before) = held(folder, name, made)?
        && before.as_slice() == bytes
    {
        return Ok(());
    }
    put_counted(folder.rt, name, bytes)?;
    made.push(Made {
        name: String::from_str(folder.rt.alloc(), name)?,
        bytes: List::from_slice(folder.rt.alloc(), bytes)?,
    })?;
    Ok(())
}
