//! A desk in memory, for tests.

ghost use Rattle.std.specs.Prelude.{◌≡◌, ◌<◌, ◌≤◌, ◌-◌, ◌+◌, ◌||◌, Some, None, false, take, ◌++◌, length, min, max, nat_eq, is_err, is_none, slice_get, option_copied, option_map, option_and_then, OnOk, OnErr, IfOk, IfSome};
ghost use Rattle.um_outside.specs.Scenes.{Idle, IsReading, IsWriting, IsOpen};
ghost use Rattle.um_outside.specs.Desks.{OpensFile, ReadsFile, CreatesFile, WritesFile, ClosesFile};
ghost use Rattle.um_outside.specs.Stores.{greatest_capacity, capacity_of, place_of, files_in, room_in};
ghost use Rattle.um_outside.specs.OpenFiles.{IsBusy, IsOpenFile};
ghost use Rattle.um_outside.specs.declared.stored.Stored.{Stored};
ghost use Rattle.std.proofs.Props.{props};

use crate::append::append_reserved;
use crate::asked::{Access, Notes};
use crate::calls::Calls;
use crate::stored::Stored;
use crate::{Desk, Failed};
use std::alloc::Global;
use um_num::{FileName, List, Memory};

/// What is done with the open file, if there is one.
#[derive(Clone, Copy, PartialEq, Eq)]
pub enum Doing {
    Idle,
    Reading,
    Writing,
}

/// Files in memory. The desk gives and takes as many bytes as it can, at most `piece` per call.
///
/// `put_file` and `room` take all the memory that later calls of the desk need. It tells which files
/// were asked for as long as `tell_asked` made room for them.
#[derive(Drop)]
pub struct MemoryDesk {
    alloc: Global,
    files: List<Stored>,
    piece: usize,
    calls: Calls,
    notes: Notes,
    /// The bytes given since the last open, with room for the greatest file.
    given: List<u8>,
    /// The bytes taken since the last create, with room for the greatest file.
    put: List<u8>,
    doing: Doing,
    /// The place of the open file; of no meaning where the desk is idle.
    current: usize,
    /// How many bytes the file that is written may still take.
    left: usize,
    stopped: bool,
    ghost piece_up: { 1 ≤ piece },
    ghost given_fits: { greatest_capacity files.items ≤ length given.items + given.spare },
    ghost put_fits: { greatest_capacity files.items ≤ length put.items + put.spare },
    ghost current_in: { IsBusy doing → current < length files.items },
    ghost open_file: { IsBusy doing → (file : Stored) → slice_get files.items current ≡ Some file → IsOpenFile files.items current left doing given.items put.items file } by { Prim.hlevel props },
}

fn find(files: &[Stored], name: &str) -> Option<usize>
    ensures { result ≡ place_of files.now name.now }
{
    files.iter().position(|file| file.name.as_text() == name)
}

/// The place of the file of this name, where there is such a file.
fn find_file(files: &[Stored], name: &str) -> Option<usize>
    ensures there { is_none result ≡ is_none (files_in files.now name.now) }
    ensures place { IfSome result (λ place. place_of files.now name.now ≡ Some place) }
{
    let place = find(files, name)?;
    if !files[place].exists {
        return None;
    }
    Some(place)
}

/// Gives as many bytes of the rest as it can, and notes them as given.
fn give(rest: &[u8], piece: usize, into: &mut [u8], given: &mut List<u8>) -> usize
    requires { length rest.now ≤ given.old.spare }
    ensures count { result ≡ min (min (length rest.now) (length into.old)) piece }
    ensures into { take result into.new ≡ take result rest.now }
    ensures given { given.new ≡ record { items = given.old.items ++ take result rest.now; spare = given.old.spare - result } }
{
    let count = rest.len().min(into.len()).min(piece);
    into[..count].copy_from_slice(&rest[..count]);
    append_reserved(given, &rest[..count]);
    count
}

/// The place and the room of the files of this name, where they have one.
fn find_room(files: &[Stored], name: &str) -> Option<(usize, usize)>
    ensures room { option_map (λ found. found.1) result ≡ room_in files.now name.now }
    ensures place { IfSome result (λ found. place_of files.now name.now ≡ Some found.0) }
{
    let place = find(files, name)?;
    let room = files[place].room?;
    Some((place, room))
}

/// Makes the file's memory large enough, and never larger than that or than it was.
fn set_room(file: &mut Stored, bytes: usize) -> Result<(), Memory>
    ensures name { file.new.name ≡ file.old.name }
    ensures exists { file.new.exists ≡ file.old.exists }
    ensures items { file.new.bytes.items ≡ file.old.bytes.items }
    ensures room { OnOk result (file.new.room ≡ Some bytes) }
    ensures err { OnErr result (file.new.room ≡ file.old.room) }
    ensures more { file.old.bytes.spare ≤ file.new.bytes.spare }
    ensures no_more { capacity_of file.new ≤ max (capacity_of file.old) bytes }
{
    let length = file.bytes.len();
    file.bytes.reserve(bytes.saturating_sub(length))?;
    file.room = Some(bytes);
    Ok(())
}

impl MemoryDesk {
    ghost use Rattle.um_outside.specs.MemoryDesks.{
      scene_of,
      file_in,
      room_for,
      IsFresh,
      SameDesk,
      FileSet,
      RoomSet,
      FailureSet,
    };

    pub fn new(alloc: Global, piece: usize) -> MemoryDesk
        requires { 1 ≤ piece }
        ensures idle { (scene_of result).mode ≡ Idle }
        ensures going { (scene_of result).stopped ≡ false }
        ensures fresh { IsFresh piece result }
    {
        MemoryDesk {
            alloc,
            files: List::new(alloc),
            piece,
            calls: Calls::new(alloc),
            notes: Notes::new(alloc),
            given: List::new(alloc),
            put: List::new(alloc),
            doing: Doing::Idle,
            current: 0,
            left: 0,
            stopped: false,
        }
    }

    /// Makes the file of this name hold these bytes, whether or not there was one.
    pub fn put_file(&mut self, name: &str, bytes: &[u8]) -> Result<(), Memory>
        requires { (scene_of self.old).mode ≡ Idle }
        ensures ok { OnOk result (FileSet name.now bytes.now self.old self.new) }
        ensures err { OnErr result (SameDesk self.old self.new) }
    {
        let mut content = List::from_slice(self.alloc, bytes)?;
        let place = self.place_for(name)?;
        let room = self.files.as_slice()[place].room.unwrap_or(0);
        content.reserve(room.saturating_sub(bytes.len()))?;
        self.reserve(room.max(bytes.len()))?;
        let file = self.files.at_mut(place);
        file.exists = true;
        file.bytes = content;
        Ok(())
    }

    /// The place of this name, made where there was none. No contract sees it until there is a file
    /// or a room.
    fn place_for(&mut self, name: &str) -> Result<usize, Memory>
        ensures same { SameDesk self.old self.new }
        ensures place { IfOk result (λ place. place_of self.new.files.items name.now ≡ Some place) }
    {
        if let Some(place) = find(self.files.as_slice(), name) {
            return Ok(place);
        }
        let added = Stored {
            name: FileName::from_text(self.alloc, name)?,
            exists: false,
            bytes: List::new(self.alloc),
            room: None,
        };
        self.files.reserve(1)?;
        let place = self.files.len();
        self.files.push_reserved(added);
        Ok(place)
    }

    /// Makes room for a file of this capacity to be given or put.
    fn reserve(&mut self, capacity: usize) -> Result<(), Memory>
        ensures same { SameDesk self.old self.new }
        ensures files { self.new.files ≡ self.old.files }
        ensures given_room { OnOk result (capacity ≤ length self.new.given.items + self.new.given.spare) }
        ensures put_room { OnOk result (capacity ≤ length self.new.put.items + self.new.put.spare) }
    {
        self.given.reserve(capacity)?;
        self.put.reserve(capacity)
    }

    /// The bytes of the file of this name; `None` where there is no such file.
    pub fn file(&self, name: &str) -> Option<&[u8]>
        ensures { option_copied result ≡ file_in self.now name.now }
    {
        let place = find(self.files.as_slice(), name)?;
        let file = &self.files.as_slice()[place];
        if !file.exists {
            return None;
        }
        Some(file.bytes.as_slice())
    }

    /// The call of this number since making, from 1, fails. The calls that count are those of [`Desk`].
    pub fn fail_at(&mut self, call: u64) -> Result<(), Memory>
        ensures ok { OnOk result (FailureSet call self.old self.new) }
        ensures err { OnErr result (SameDesk self.old self.new) }
    {
        self.calls.fail_at(call)
    }

    /// Sets how many bytes each file may hold that is later created under this name. Makes no file,
    /// and leaves the room of one that is being written.
    pub fn room(&mut self, name: &str, bytes: usize) -> Result<(), Memory>
        ensures ok { OnOk result (RoomSet name.now bytes self.old self.new) }
        ensures err { OnErr result (SameDesk self.old self.new) }
    {
        let place = self.place_for(name)?;
        self.reserve(bytes)?;
        set_room(self.files.at_mut(place), bytes)
    }

    /// Makes room to tell of this many more files that are asked for, whose names have at most this
    /// many bytes together. Once a file is asked for without room, none is told any more.
    pub fn tell_asked(&mut self, files: usize, bytes: usize) -> Result<(), Memory>
        ensures same { SameDesk self.old self.new }
        ensures room { OnOk result (self.new.notes ≡ record { asked = self.old.notes.asked; files = max self.old.notes.files files; bytes = max self.old.notes.bytes bytes }) }
    {
        self.notes.reserve(files, bytes)
    }

    /// File `i` of those asked for, from 0, and what for. `None` also where they are not told.
    pub fn asked(&self, i: usize) -> Option<(Access, &[u8])>
        ensures { option_map (λ file. record { access = file.0; name = file.1.now }) result ≡ option_and_then (λ asked. slice_get asked i) (scene_of self.now).asked }
    {
        self.notes.get(i)
    }
}

impl Desk for MemoryDesk {
    ghost use Rattle.um_outside.specs.MemoryDesks.{
      scene_of,
      file_in,
      room_for,
      fails_next,
      bytes_left,
      room_left,
      CallMade,
    };
    ghost use Rattle.um_outside.specs.Scenes.{to_open, to_create};
    ghost use Rattle.um_outside.specs.AskedFiles.{noting};

    ghost scene = { scene_of };

    fn open_file(&mut self, name: &str) -> Result<(), Failed>
        requires idle { (scene_of self.old).mode ≡ Idle }
        requires going { self.old.stopped ≡ false }
        ensures scene { OpensFile name.now (scene_of self.old) result (scene_of self.new) }
        ensures failed { is_err result ≡ (fails_next self.old || is_none (file_in self.old name.now)) }
        ensures made { CallMade self.old self.new }
        ensures left { room_left self.new ≡ room_left self.old }
        ensures noted { self.new.notes ≡ noting (to_open name.now) self.old.notes }
    {
        self.notes.note(Access::Open, name);
        if self.calls.next() {
            self.stopped = true;
            return Err(Failed);
        }
        let Some(place) = find_file(self.files.as_slice(), name) else {
            self.stopped = true;
            return Err(Failed);
        };
        self.given.clear();
        self.doing = Doing::Reading;
        self.current = place;
        Ok(())
    }

    fn read(&mut self, into: &mut [u8]) -> Result<usize, Failed>
        requires reading { IsReading (scene_of self.old).mode }
        requires going { self.old.stopped ≡ false }
        requires room { 0 < length into.old }
        ensures scene { ReadsFile into.new (scene_of self.old) result (scene_of self.new) }
        ensures failed { is_err result ≡ fails_next self.old }
        ensures count { IfOk result (λ n. n ≡ min (min (bytes_left self.old) (length into.old)) self.old.piece) }
        ensures made { CallMade self.old self.new }
        ensures left { room_left self.new ≡ room_left self.old }
        ensures notes { self.new.notes ≡ self.old.notes }
    {
        if self.calls.next() {
            self.stopped = true;
            return Err(Failed);
        }
        let rest = &self.files.as_slice()[self.current].bytes.as_slice()[self.given.len()..];
        Ok(give(rest, self.piece, into, &mut self.given))
    }

    fn create_file(&mut self, name: &str) -> Result<(), Failed>
        requires idle { (scene_of self.old).mode ≡ Idle }
        requires going { self.old.stopped ≡ false }
        ensures scene { CreatesFile name.now (scene_of self.old) result (scene_of self.new) }
        ensures failed { is_err result ≡ (fails_next self.old || is_none (room_for self.old name.now)) }
        ensures made { CallMade self.old self.new }
        ensures whole_room { OnOk result (room_for self.old name.now ≡ Some (room_left self.new)) }

        // A creation that fails leaves all files as they were.
        ensures kept { OnErr result ((scene_of self.new).holds ≡ (scene_of self.old).holds) }
        ensures noted { self.new.notes ≡ noting (to_create name.now) self.old.notes }
    {
        self.notes.note(Access::Create, name);
        if self.calls.next() {
            self.stopped = true;
            return Err(Failed);
        }
        let Some((place, room)) = find_room(self.files.as_slice(), name) else {
            self.stopped = true;
            return Err(Failed);
        };
        let file = self.files.at_mut(place);
        file.exists = true;
        file.bytes.clear();
        self.put.clear();
        self.doing = Doing::Writing;
        self.current = place;
        self.left = room;
        Ok(())
    }

    fn write(&mut self, from: &[u8]) -> Result<usize, Failed>
        requires writing { IsWriting (scene_of self.old).mode }
        requires going { self.old.stopped ≡ false }
        requires some { 0 < length from.now }
        ensures scene { WritesFile from.now (scene_of self.old) result (scene_of self.new) }
        ensures failed { is_err result ≡ (fails_next self.old || nat_eq (room_left self.old) 0) }
        ensures count { IfOk result (λ n. n ≡ min (min (length from.now) self.old.piece) (room_left self.old)) }
        ensures made { CallMade self.old self.new }
        ensures left { IfOk result (λ n. room_left self.new ≡ room_left self.old - n) }
        ensures notes { self.new.notes ≡ self.old.notes }
    {
        if self.calls.next() || self.left == 0 {
            self.stopped = true;
            return Err(Failed);
        }
        let count = from.len().min(self.piece).min(self.left);
        append_reserved(&mut self.put, &from[..count]);
        append_reserved(&mut self.files.at_mut(self.current).bytes, &from[..count]);
        self.left -= count;
        Ok(count)
    }

    fn close_file(&mut self) -> Result<(), Failed>
        requires open { IsOpen (scene_of self.old).mode }
        requires going { self.old.stopped ≡ false }
        ensures scene { ClosesFile (scene_of self.old) result (scene_of self.new) }
        ensures failed { is_err result ≡ fails_next self.old }
        ensures made { CallMade self.old self.new }
        ensures left { room_left self.new ≡ room_left self.old }
        ensures notes { self.new.notes ≡ self.old.notes }
    {
        self.doing = Doing::Idle;
        if self.calls.next() {
            self.stopped = true;
            return Err(Failed);
        }
        Ok(())
    }
}
