//! Files that were asked for by their names.

ghost use Rattle.std.specs.Prelude.{◌≡◌, None, Some, [], ◌∷◌, max, OnOk, OnErr, option_map, option_and_then, slice_get};
ghost use Rattle.um_outside.specs.Desks.{Asks};
ghost use Rattle.um_outside.specs.AskedFiles.{noting};

use crate::append::append_reserved;
use std::alloc::Global;
use std::marker::Model;
use um_num::{List, Memory};

/// What a file is asked for.
#[derive(Clone, Copy, PartialEq, Eq, Debug)]
pub enum Access {
    Open,
    Create,
}

/// A file that was asked for; its name is a part of all the names.
#[derive(Clone, Copy)]
pub struct Noted {
    access: Access,
    from: usize,
    to: usize,
}

/// The files that a desk in memory was asked for, as long as there is room to note each of them.
#[derive(Drop)]
pub struct Notes {
    files: List<Noted>,
    /// The names, one behind another.
    names: List<u8>,
    /// Whether each file that was asked for is noted.
    whole: bool,
}

impl Model for Notes {
    ghost use Rattle.std.specs.Prelude.{map, cond, Some, None};
    ghost use Rattle.std.specs.List.{All};
    ghost use Rattle.um_outside.specs.AskedFiles.{NotesValue, asked_by, IsWithin};

    ghost Value = { NotesValue };

    ghost view = { λ notes. record { asked = cond notes.whole (Some (map (asked_by notes.names.items) notes.files.items)) None; files = notes.files.spare; bytes = notes.names.spare } };

    ghost invariant = { λ notes. All (IsWithin notes.names.items) notes.files.items };
}

impl Notes {
    /// Notes that tell of no file yet, without room for one.
    pub fn new(alloc: Global) -> Notes
        ensures { result ≡ record { asked = Some []; files = 0; bytes = 0 } }
    {
        Notes {
            files: List::new(alloc),
            names: List::new(alloc),
            whole: true,
        }
    }

    /// Makes room for this many more files, whose names have at most this many bytes together.
    pub fn reserve(&mut self, files: usize, bytes: usize) -> Result<(), Memory>
        ensures ok { OnOk result (self.new ≡ record { asked = self.old.asked; files = max self.old.files files; bytes = max self.old.bytes bytes }) }
        ensures err { OnErr result (self.new.asked ≡ self.old.asked) }
    {
        self.files.reserve(files)?;
        self.names.reserve(bytes)
    }

    /// Notes a file that is asked for. Takes no memory: where there is no room, nothing is told any more.
    pub fn note(&mut self, access: Access, name: &str)
        ensures noted { self.new ≡ noting (record { access = access; name = name.now }) self.old }
        ensures asks { Asks (record { access = access; name = name.now } ∷ []) self.old.asked self.new.asked }
    {
        if !self.whole || self.files.spare() < 1 || self.names.spare() < name.len() {
            self.whole = false;
            return;
        }
        let from = self.names.len();
        append_reserved(&mut self.names, name.as_bytes());
        let to = self.names.len();
        self.files.push_reserved(Noted { access, from, to });
    }

    /// File `i` of those asked for, from 0. `None` also where they are told no longer.
    pub fn get(&self, i: usize) -> Option<(Access, &[u8])>
        ensures { option_map (λ file. record { access = file.0; name = file.1.now }) result ≡ option_and_then (λ asked. slice_get asked i) self.now.asked }
    {
        if !self.whole {
            return None;
        }
        let noted = self.files.as_slice().get(i)?;
        Some((noted.access, &self.names.as_slice()[noted.from..noted.to]))
    }
}
