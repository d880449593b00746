ghost use Rattle.std.specs.Prelude.{◌≡◌, ◌+◌, ◌*◌, ◌-◌, ◌/◌, ◌^◌, ◌<◌, ◌≤◌, ◌++◌, ◌∷◌, []};
ghost use Rattle.std.specs.Prelude.{length, take, slice_get, option_map, IfOk, OnOk, OnErr};
ghost use Rattle.std.specs.List.{position};
ghost use Rattle.std.specs.Str.{bytes_eq};
ghost use Rattle.deny_base.specs.Files.{begins_character, location_of, location_in};
ghost use Rattle.deny_base.specs.private.Marks.{AreMarks, location_after, past};

use crate::label::FileId;
use deny_base_lists::{List, NoMemory, Text};
use std::alloc::Global;
use std::marker::Model;

/// How far the kept locations of a text stand apart, in bytes.
const STEP: usize = 256;

/// Where an offset stands in a text. Both count from 0, columns in characters.
#[derive(Clone, Copy, PartialEq, Eq)]
pub struct Location {
    pub line: u32,
    pub column: u32,
}

fn begins_character(byte: u8) -> bool
    ensures { result ≡ begins_character byte }
{
    byte < 128 || 192 <= byte
}

impl Location {
    /// The location behind one more byte.
    fn past(self, byte: u8) -> Location
        requires line { self.line < 2 ^ 32 - 1 }
        requires column { self.column < 2 ^ 32 - 1 }
        ensures { result ≡ past self byte }
    {
        if byte == b'\n' {
            return Location {
                line: self.line + 1,
                column: 0,
            };
        }
        if begins_character(byte) {
            return Location {
                line: self.line,
                column: self.column + 1,
            };
        }
        self
    }
}

/// The location of an offset, counted from the location of an earlier one.
fn advance(at: Location, text: &[u8], from: usize, to: usize) -> Location
    requires short { length text.now < 2 ^ 32 }
    requires order { from ≤ to }
    requires within { to ≤ length text.now }
    requires at { at ≡ location_after (take from text.now) }
    ensures { result ≡ location_after (take to text.now) }
{
    let mut at = at;
    for byte in &text[from..to] {
        at = at.past(*byte);
    }
    at
}

/// The locations that are kept with a text.
fn marks_of(alloc: Global, text: &[u8]) -> Result<Vec<Location>, NoMemory>
    requires { length text.now < 2 ^ 32 }
    ensures { IfOk result (λ marks. AreMarks text.now (length text.now / 256) marks.items) }
{
    let mut marks = Vec::new(alloc);
    let mut at = Location { line: 0, column: 0 };
    marks.push(at)?;
    for mark in 0..text.len() / STEP {
        at = advance(at, text, mark * STEP, (mark + 1) * STEP);
        marks.push(at)?;
    }
    Ok(marks)
}

/// A text with the location of every 256th byte, from which the others are counted.
#[derive(Drop)]
struct Source {
    text: Text,
    marks: Vec<Location>,
}

impl Model for Source {
    ghost use Rattle.std.specs.Prelude.{List, ℕ};
    ghost use Rattle.std.specs.Coded.{coded_ℕ, coded_list};

    ghost Value = { List ℕ };

    ghost coded = { coded_list coded_ℕ };

    ghost use Rattle.deny_base.specs.private.Marks.{IsMarked};

    ghost view = { λ s. s.text };

    ghost invariant = { λ s. IsMarked s.text s.marks.items };
}

impl Source {
    fn new(alloc: Global, text: &str) -> Result<Source, NoMemory>
        requires { length text.now < 2 ^ 32 }
        ensures { IfOk result (λ source. source ≡ text.now) }
    {
        let marks = marks_of(alloc, text.as_bytes())?;
        Ok(Source {
            text: Text::from_str(alloc, text)?,
            marks,
        })
    }

    fn as_str(&self) -> &str
        ensures { result.now ≡ self.now }
    {
        self.text.as_str()
    }

    fn location(&self, offset: u32) -> Option<Location>
        ensures { result ≡ location_of self.now offset }
    {
        let text = self.text.as_str();
        let offset = offset as usize;
        if !text.is_char_boundary(offset) {
            return None;
        }
        let mark = offset / STEP;
        Some(advance(self.marks[mark], text.as_bytes(), mark * STEP, offset))
    }
}

/// A file that labels point into.
#[derive(Drop)]
struct File {
    path: Text,
    source: Source,
}

/// The files that labels point into: contracts see the list of them, each with its path and its
/// text. A `FileId` is an index in that list.
#[derive(Drop)]
pub struct Files {
    alloc: Global,
    files: List<File>,
}

impl Model for Files {
    ghost use Rattle.std.specs.Prelude.{List, ◌<◌, ◌^◌, length};
    ghost use Rattle.deny_base.specs.declared.files.File.{File};

    ghost Value = { List File };

    ghost view = { λ f. f.files };

    ghost invariant = { λ f. length f.files < 2 ^ 32 };
}

/// The first file of the path.
fn index_of(files: &[File], path: &str) -> Option<usize>
    ensures { result ≡ position (λ file. bytes_eq file.path path.now) files.now }
{
    files.iter().position(|file| file.path.as_str() == path)
}

impl Files {
    /// No files.
    pub fn new(alloc: Global) -> Files
        ensures { result ≡ [] }
    {
        Files {
            alloc,
            files: List::new(alloc),
        }
    }

    /// Adds a file at the end, and returns its id. Where memory runs out nothing has changed.
    pub fn add(&mut self, path: &str, source: &str) -> Result<FileId, NoMemory>
        requires room { length self.old < 2 ^ 32 - 1 }
        requires short { length source.now < 2 ^ 32 }
        ensures id { IfOk result (λ id. id ≡ length self.old) }
        ensures ok { OnOk result
            (self.new ≡ self.old ++ record { path = path.now; source = source.now } ∷ []) }
        ensures err { OnErr result (self.new ≡ self.old) }
    {
        let id = self.files.len() as FileId;
        let file = File {
            path: Text::from_str(self.alloc, path)?,
            source: Source::new(self.alloc, source)?,
        };
        self.files.push(file)?;
        Ok(id)
    }

    /// The text of the file.
    pub fn source(&self, id: FileId) -> Option<&str>
        ensures { option_map (λ source. source.now) result
            ≡ option_map (λ file. file.source) (slice_get self.now id) }
    {
        let file = self.files.as_slice().get(id as usize)?;
        Some(file.source.as_str())
    }

    /// The id of the first file of the path.
    pub fn id_for_path(&self, path: &str) -> Option<FileId>
        ensures { result ≡ position (λ file. bytes_eq file.path path.now) self.now }
    {
        let index = index_of(self.files.as_slice(), path)?;
        Some(index as FileId)
    }

    /// The location of a byte offset in the file: none exactly where there is no such file, or the
    /// offset lies inside a character or past the text's end. The time does not grow with the text.
    pub fn location(&self, id: FileId, offset: u32) -> Option<Location>
        ensures { result ≡ location_in self.now id offset }
    {
        let file = self.files.as_slice().get(id as usize)?;
        file.source.location(offset)
    }
}
