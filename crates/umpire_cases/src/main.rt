//! The program that runs the cases of the folder `data` beside `src`, and writes what came of them.
//!
//! The file `cases` names folders, one a line. In each of them the file `words` holds command lines, one a line, with
//! one blank between two words; the other files are decks and trees. A line is run by [`umpire::run`] over a desk in
//! memory, which holds the files that the line names: those of the folder, or, where the folder's lines before it made a
//! file of that name, what they made. For each line the program writes the line, the status, how many bytes were
//! written and these bytes, and then each file that the line made, with its name, its number of bytes and its bytes.
//!
//! The file `stdout` beside `src` holds what another program, of the same rules, gave for the same files; `tools/cases.py`
//! makes it, and says what the file `told` of a folder is for. So it is compared byte for byte.
#![tactic(auto)]

mod folder;
mod put;
mod texts;

use anyhow::Result;
use folder::run_folder;
use texts::text_of;

fn main(rt: HostRuntime) -> Result<()> {
    let cases = text_of(&rt, "cases")?;
    for name in cases.lines() {
        run_folder(&rt, name)?;
    }
    Ok(())
}
