ghost use Rattle.std.specs.Prelude.{ℕ, List, ◌≡◌, ◌<◌, ◌≤◌, ◌+◌, ◌*◌, ◌↔◌, ◌∷◌, ◌++◌, []};
ghost use Rattle.std.specs.Prelude.{length, OnOk, OnErr, All, Contains};
ghost use Rattle.std.specs.List.Sorted.{IsStrictlyIncreasing};
ghost use Rattle.std.specs.Str.{chars};
ghost use Rattle.deny_globs.specs.Compiled.{IsProgram};
ghost use Rattle.deny_globs.specs.private.Compiled.{Grows, AddsStates};
ghost use Rattle.deny_globs.specs.Index.{Ascend, IsIndexed, AreCompiled};
ghost use Rattle.deny_globs.specs.private.Index.{NotesNamed};
ghost use Rattle.deny_globs.specs.private.Index.{NotesSimple, BoundsNamed, BoundsSimple, Indexes};
ghost use Rattle.deny_globs.specs.Sets.{IsRead, FitsAt, KeepsBound, AreFirstFitting};
ghost use Rattle.deny_globs.specs.private.Sets.{AreFitting};
ghost use Rattle.deny_globs.specs.Starts.{AreStarts};
ghost use Rattle.deny_globs.specs.private.Starts.{KeepsStarts};
ghost use Rattle.deny_globs.specs.private.Walk.{Notes};

use crate::compile::{compile, push_state};
use crate::extensions::{GlobExtension, add_extension, find_extension, is_simple, last_extension};
use crate::glob::{Glob, characters_of};
use crate::starts::{Starts, add_start, starts_for};
use crate::state::GlobState;
use crate::walk::walk;
use deny_base_lists::{List, NoMemory, Steps, put_in_order};
use std::alloc::Global;
use std::marker::{Brand, Model};
use std::sync::ledger::{Blank, Ledger};

/// Globs, each numbered in the order in which they were added.
#[derive(Drop)]
pub struct GlobSet {
    globs: List<Glob>,
    extensions: Vec<GlobExtension>,
    states: Vec<GlobState>,
    starts: Starts,
}

impl Model for GlobSet {
    ghost use Rattle.std.specs.Prelude.{List};
    ghost use Rattle.std.specs.Coded.{codes};
    ghost use Rattle.deny_globs.specs.Index.{IsIndexed, AreCompiled};
    ghost use Rattle.deny_globs.specs.Patterns.{Pattern};
    ghost use Rattle.deny_globs.specs.contracts.token.Token as token;

    ghost Value = { List Pattern };

    ghost coded = { Prim.hlevel (codes, token.the_row.coded) };

    ghost view = { λ s. s.globs };

    ghost invariant = { λ s. IsIndexed s.globs s.extensions.items × AreCompiled s.globs s.states.items s.starts };
}

impl GlobSet {
    /// The set without globs.
    pub fn empty(alloc: Global) -> GlobSet
        ensures { result ≡ [] }
    {
        GlobSet {
            globs: List::new(alloc),
            extensions: Vec::new(alloc),
            states: Vec::new(alloc),
            starts: Starts {
                beginnings: Vec::new(alloc),
                endings: Vec::new(alloc),
            },
        }
    }

    /// Adds a glob, whose number is the number of globs before it.
    pub fn add(&mut self, glob: Glob) -> Result<(), NoMemory>
        ensures ok { OnOk result (self.new ≡ self.old ++ glob ∷ []) }
        ensures err { OnErr result (self.new ≡ self.old) }
    {
        let number = self.globs.len();
        self.globs.vec.reserve(1)?;
        index_glob(
            &glob,
            number,
            &mut self.extensions,
            &mut self.states,
            &mut self.starts,
        )?;
        self.globs.vec.push(glob)?;
        Ok(())
    }

    /// Each glob of a set is read from its characters, whatever made the set. Nothing is done at run time.
    pub fn are_read(&self)
        ensures { All IsRead self.now }
    {
        let _ = &self.globs;
    }

    /// Clears the list, and puts into it the numbers of the globs that fit the whole path,
    /// ascending. Where memory runs out, the list holds the first of them.
    pub fn matches(&self, path: &str, indices: &mut Vec<usize>) -> Result<(), NoMemory>
        ensures ascending { OnOk result (IsStrictlyIncreasing indices.new.items) }
        ensures exact { OnOk result ((i : ℕ) → Contains indices.new.items i ↔ FitsAt self.now i (chars path.now)) }
        ensures short { OnErr result (AreFirstFitting self.now (chars path.now) indices.new.items) }
    {
        indices.clear();
        let characters = characters_of(*indices.allocator(), path)?;
        find_uncounted::<Brand>(self, &characters, indices, Blank::new(1))
    }

    /// Does what `matches` does, and counts its steps: a step is one comparison of extensions, one
    /// number of a simple glob reported, or one state marked at one index of the path.
    pub fn matches_counted<L: Ledger>(
        &self,
        path: &str,
        indices: &mut Vec<usize>,
        steps: &mut Steps<L>,
    ) -> Result<(), NoMemory>
        ensures ascending { OnOk result (IsStrictlyIncreasing indices.new.items) }
        ensures exact { OnOk result ((i : ℕ) → Contains indices.new.items i ↔ FitsAt self.now i (chars path.now)) }
        ensures short { OnErr result (AreFirstFitting self.now (chars path.now) indices.new.items) }
        ensures steps { KeepsBound self.now (chars path.now) steps.old steps.new }
    {
        indices.clear();
        let characters = characters_of(*indices.allocator(), path)?;
        find_fitting(self, &characters, indices, steps)
    }
}

/// Puts the numbers of the globs that fit into the list, which is empty, and stays empty where
/// memory for all of them runs out.
fn find_fitting<L: Ledger>(
    set: &GlobSet,
    path: &[char],
    indices: &mut Vec<usize>,
    steps: &mut Steps<L>,
) -> Result<(), NoMemory>
    requires { indices.old.items ≡ [] }
    ensures ok { OnOk result (AreFitting set.now path.now indices.new.items) }
    ensures err { OnErr result (indices.new.items ≡ []) }
    ensures steps { KeepsBound set.now path.now steps.old steps.new }
{
    let mut fitting = List::new(*indices.allocator());
    note_fitting(set, path, &mut fitting, steps)?;
    put_in_order(&mut fitting)?;
    indices.extend_from_slice(fitting.as_slice())?;
    Ok(())
}

/// Does what `find_fitting` does, without counting steps.
fn find_uncounted<L: Ledger>(
    set: &GlobSet,
    path: &[char],
    indices: &mut Vec<usize>,
    blank: Blank,
) -> Result<(), NoMemory>
    requires name { blank.name ≡ L.name }
    requires parts { blank.parts ≡ L.parts }
    requires whole { 0 < L.parts }
    requires empty { indices.old.items ≡ [] }
    ensures ok { OnOk result (AreFitting set.now path.now indices.new.items) }
    ensures err { OnErr result (indices.new.items ≡ []) }
{
    let mut steps: Steps<L> = Steps::new(blank);
    find_fitting(set, path, indices, &mut steps)
}

/// Notes the globs that fit, in any order.
fn note_fitting<L: Ledger>(
    set: &GlobSet,
    path: &[char],
    fitting: &mut List<usize>,
    steps: &mut Steps<L>,
) -> Result<(), NoMemory>
    ensures ok { OnOk result (Notes (λ i. FitsAt set.now i path.now) fitting.old fitting.new) }
    ensures steps { KeepsBound set.now path.now steps.old steps.new }
{
    let alloc = *set.states.allocator();
    note_simple(&set.extensions, path, fitting, steps)?;
    let starts = starts_for(alloc, &set.starts, path)?;
    walk(alloc, &set.states, &starts, path, fitting, steps)
}

/// Puts a glob into the index, under this number.
fn index_glob(
    glob: &Glob,
    number: usize,
    extensions: &mut Vec<GlobExtension>,
    states: &mut Vec<GlobState>,
    starts: &mut Starts,
) -> Result<(), NoMemory>
    requires ascend { Ascend extensions.old.items }
    requires program { IsProgram states.old.items }
    requires starts { AreStarts starts.old }
    ensures ok { OnOk result (Indexes glob.now number extensions.old.items states.old.items starts.old
        extensions.new.items states.new.items starts.new) }
    ensures extensions { OnErr result (extensions.new.items ≡ extensions.old.items) }
    ensures states { OnErr result (states.new.items ≡ states.old.items) }
    ensures starts { OnErr result (KeepsStarts starts.old starts.new) }
{
    let characters = glob.characters();
    if is_simple(characters) {
        return add_extension(extensions, &characters[2..], number);
    }
    add_states(glob, number, states, starts)
}

/// Compiles a glob that is not simple into the states; where memory for all of it runs out, no
/// state is added.
fn add_states(
    glob: &Glob,
    number: usize,
    states: &mut Vec<GlobState>,
    starts: &mut Starts,
) -> Result<(), NoMemory>
    requires program { IsProgram states.old.items }
    requires starts { AreStarts starts.old }
    ensures ok { OnOk result (AddsStates glob.now number states.old.items starts.old states.new.items starts.new) }
    ensures states { OnErr result (states.new.items ≡ states.old.items) }
    ensures starts { OnErr result (KeepsStarts starts.old starts.new) }
{
    let old = states.len();
    match push_glob(glob, number, states, starts) {
        Ok(()) => Ok(()),
        Err(error) => {
            states.truncate(old);
            Err(error)
        }
    }
}

/// Compiles a glob into the states.
fn push_glob(
    glob: &Glob,
    number: usize,
    states: &mut Vec<GlobState>,
    starts: &mut Starts,
) -> Result<(), NoMemory>
    requires program { IsProgram states.old.items }
    requires starts { AreStarts starts.old }
    ensures ok { OnOk result (AddsStates glob.now number states.old.items starts.old states.new.items starts.new) }
    ensures grows { OnErr result (Grows states.old.items states.new.items) }
    ensures starts { OnErr result (KeepsStarts starts.old starts.new) }
{
    let alloc = *states.allocator();
    let end = push_state(states, GlobState::End(number))?;
    let tokens = glob.tokens();
    let start = compile(alloc, states, tokens, end)?;
    add_start(alloc, starts, tokens.as_slice(), start)
}

/// Notes the simple globs that fit by the extension of the path.
fn note_simple<L: Ledger>(
    extensions: &[GlobExtension],
    path: &[char],
    fitting: &mut List<usize>,
    steps: &mut Steps<L>,
) -> Result<(), NoMemory>
    requires { Ascend extensions.now }
    ensures notes { OnOk result (NotesSimple extensions.now path.now fitting.old fitting.new) }
    ensures steps { BoundsSimple extensions.now path.now steps.old steps.new }
{
    match last_extension(path) {
        Some(index) => note_named(extensions, &path[index..], fitting, steps),
        None => Ok(()),
    }
}

/// Notes the simple globs that ask for this extension.
fn note_named<L: Ledger>(
    extensions: &[GlobExtension],
    name: &[char],
    fitting: &mut List<usize>,
    steps: &mut Steps<L>,
) -> Result<(), NoMemory>
    requires { Ascend extensions.now }
    ensures notes { OnOk result (NotesNamed extensions.now name.now fitting.old fitting.new) }
    ensures steps { BoundsNamed extensions.now name.now steps.old steps.new }
{
    match find_extension(extensions, name, steps) {
        Ok(index) => note_all(extensions[index].globs.as_slice(), fitting, steps),
        Err(_index) => Ok(()),
    }
}

/// Notes these globs, with one step for each.
fn note_all<L: Ledger>(
    globs: &[usize],
    fitting: &mut List<usize>,
    steps: &mut Steps<L>,
) -> Result<(), NoMemory>
    ensures notes { OnOk result (Notes (Contains globs.now) fitting.old fitting.new) }
    ensures steps { steps.new ≤ steps.old + length globs.now }
{
    for glob in globs {
        fitting.push(*glob)?;
        steps.tick();
    }
    Ok(())
}
