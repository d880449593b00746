ghost use Rattle.std.specs.Prelude.{ℕ, ◌≡◌, ◌<◌, ◌≤◌, ◌+◌, ◌*◌, [], length, OnOk};
ghost use Rattle.std.specs.Prelude.{true, Some, Contains, nat_eq, slice_get};
ghost use Rattle.std.specs.List.{list_any};
ghost use Rattle.deny_globs.specs.Class.{in_range, class_takes};
ghost use Rattle.deny_globs.specs.Compiled.{IsProgram};
ghost use Rattle.deny_globs.specs.private.States.{end_of, SomeLeads};
ghost use Rattle.deny_globs.specs.declared.state.GlobState.TheVariants.{End};
ghost use Rattle.deny_globs.specs.private.Walk.{first_passes, StepsOver, Passes, HasEnd, Notes};

use crate::marked::MarkedStates;
use crate::state::GlobState;
use crate::token::{CharacterClass, CharacterRange};
use deny_base_lists::{List, NoMemory, Steps};
use std::alloc::Global;
use std::sync::ledger::Ledger;

/// Whether one of the ranges has the character.
fn is_in_ranges(ranges: &[CharacterRange], character: char) -> bool
    ensures { result ≡ list_any (in_range character) ranges.now }
{
    ranges.iter().any(|range| range.first <= character && character <= range.last)
}

/// Whether the class takes the character.
fn is_of_class(class: &CharacterClass, character: char) -> bool
    ensures { result ≡ class_takes class.now character }
{
    let is_listed = is_in_ranges(class.ranges.as_slice(), character);
    if class.negated { !is_listed } else { is_listed }
}

/// Whether a character comes next.
fn has_next(rest: &[char]) -> bool
    ensures { result ≡ first_passes (λ _. true) rest.now }
{
    match rest {
        [_, ..] => true,
        [] => false,
    }
}

/// Whether this character comes next.
fn begins_with(rest: &[char], own: char) -> bool
    ensures { result ≡ first_passes (nat_eq own) rest.now }
{
    match rest {
        [first, ..] => own == *first,
        [] => false,
    }
}

/// Whether a character of the class comes next.
fn begins_of_class(rest: &[char], class: &CharacterClass) -> bool
    ensures { result ≡ first_passes (class_takes class.now) rest.now }
{
    match rest {
        [first, ..] => is_of_class(class, *first),
        [] => false,
    }
}

/// Marks the states that follow the state: at this index without a character, and at the next with
/// one.
fn step_over<L: Ledger>(
    states: &[GlobState],
    rest: &[char],
    number: usize,
    now: &mut MarkedStates,
    next: &mut MarkedStates,
    steps: &mut Steps<L>,
) -> Result<(), NoMemory>
    requires program { IsProgram states.now }
    requires number { number < length states.now }
    requires now { now.old.1 ≡ length states.now }
    requires next { next.old.1 ≡ length states.now }
    requires now_bound { length now.old.0 ≤ now.old.1 }
    requires next_bound { length next.old.0 ≤ next.old.1 }
    ensures ok { OnOk result (StepsOver states.now rest.now number now.old.0 now.new.0 next.old.0 next.new.0) }
    ensures none { rest.now ≡ [] → next.new.0 ≡ next.old.0 }
    ensures now { now.new.1 ≡ now.old.1 }
    ensures next { next.new.1 ≡ next.old.1 }
    ensures now_bound { length now.new.0 ≤ now.new.1 }
    ensures next_bound { length next.new.0 ≤ next.new.1 }
    ensures steps { steps.new + length now.old.0 + length next.old.0
        ≡ steps.old + length now.new.0 + length next.new.0 }
{
    match &states[number] {
        GlobState::End(_glob) => Ok(()),
        GlobState::Never => Ok(()),
        GlobState::Character(own, behind) => next.mark_if(begins_with(rest, *own), *behind, steps),
        GlobState::AnyCharacter(behind) => next.mark_if(has_next(rest), *behind, steps),
        GlobState::OneOf(class, behind) => next.mark_if(
            begins_of_class(rest, class),
            *behind,
            steps,
        ),
        GlobState::AnyText(behind) => {
            now.mark(*behind, steps)?;
            next.mark_if(has_next(rest), number, steps)
        }
        GlobState::Either(first, second) => {
            now.mark(*first, steps)?;
            now.mark(*second, steps)
        }
    }
}

/// Visits the states that are marked at an index, and those that are marked meanwhile.
fn pass<L: Ledger>(
    states: &[GlobState],
    rest: &[char],
    now: &mut MarkedStates,
    next: &mut MarkedStates,
    steps: &mut Steps<L>,
) -> Result<(), NoMemory>
    requires program { IsProgram states.now }
    requires now { now.old.1 ≡ length states.now }
    requires next { next.old.1 ≡ length states.now }
    requires now_bound { length now.old.0 ≤ now.old.1 }
    requires none { next.old.0 ≡ [] }
    ensures ok { OnOk result (Passes states.now rest.now now.old.0 now.new.0 next.new.0) }
    ensures none { rest.now ≡ [] → next.new.0 ≡ [] }
    ensures now { now.new.1 ≡ now.old.1 }
    ensures next { next.new.1 ≡ next.old.1 }
    ensures now_bound { length now.new.0 ≤ now.new.1 }
    ensures next_bound { length next.new.0 ≤ next.new.1 }
    ensures steps { steps.new + length now.old.0 ≡ steps.old + length now.new.0 + length next.new.0 }
{
    let mut index = 0;
    while index < now.count() {
        let number = now.at(index);
        step_over(states, rest, number, now, next, steps)?;
        index += 1;
    }
    Ok(())
}

/// Marks the states at which globs start.
fn mark_starts<L: Ledger>(
    starts: &[usize],
    now: &mut MarkedStates,
    steps: &mut Steps<L>,
) -> Result<(), NoMemory>
    requires within { (number : ℕ) → Contains starts.now number → number < now.old.1 }
    requires none { now.old.0 ≡ [] }
    ensures only { OnOk result ((number : ℕ) → Contains now.new.0 number → Contains starts.now number) }
    ensures all { OnOk result ((number : ℕ) → Contains starts.now number → Contains now.new.0 number) }
    ensures room { now.new.1 ≡ now.old.1 }
    ensures bound { length now.new.0 ≤ now.new.1 }
    ensures steps { steps.new ≡ steps.old + length now.new.0 }
{
    for start in starts {
        now.mark(*start, steps)?;
    }
    Ok(())
}

/// The glob that ends at the state.
fn end_of(state: &GlobState) -> Option<usize>
    ensures { result ≡ end_of state.now }
{
    match state {
        GlobState::End(glob) => Some(*glob),
        _ => None,
    }
}

/// Notes the glob that ends at the state.
fn note_end(state: &GlobState, fitting: &mut List<usize>) -> Result<(), NoMemory>
    ensures { OnOk result (Notes (λ glob. end_of state.now ≡ Some glob) fitting.old fitting.new) }
{
    match end_of(state) {
        Some(glob) => fitting.push(glob),
        None => Ok(()),
    }
}

/// Notes the glob that ends at the state with this number.
fn note_end_at(
    states: &[GlobState],
    number: usize,
    fitting: &mut List<usize>,
) -> Result<(), NoMemory>
    requires { number < length states.now }
    ensures { OnOk result (Notes (λ glob. slice_get states.now number ≡ Some (End glob)) fitting.old fitting.new) }
{
    note_end(&states[number], fitting)
}

/// Notes the globs whose end is marked.
fn note_ends(
    states: &[GlobState],
    marked: &[usize],
    fitting: &mut List<usize>,
) -> Result<(), NoMemory>
    requires { (number : ℕ) → Contains marked.now number → number < length states.now }
    ensures { OnOk result (Notes (HasEnd states.now marked.now) fitting.old fitting.new) }
{
    for number in marked {
        note_end_at(states, *number, fitting)?;
    }
    Ok(())
}

/// Walks once over the path with all globs that start at these states, and notes those that fit.
pub fn walk<L: Ledger>(
    alloc: Global,
    states: &[GlobState],
    starts: &[usize],
    path: &[char],
    fitting: &mut List<usize>,
    steps: &mut Steps<L>,
) -> Result<(), NoMemory>
    requires program { IsProgram states.now }
    requires within { (number : ℕ) → Contains starts.now number → number < length states.now }
    ensures notes { OnOk result (Notes (λ glob. SomeLeads states.now starts.now glob path.now)
        fitting.old fitting.new) }
    ensures steps { steps.new ≤ steps.old + (length path.now + 1) * length states.now }
{
    if starts.is_empty() {
        return Ok(());
    }
    let mut now = MarkedStates::new(alloc, states.len())?;
    let mut next = MarkedStates::new(alloc, states.len())?;
    mark_starts(starts, &mut now, steps)?;
    for index in 0..path.len() {
        if now.is_empty() {
            return Ok(());
        }
        pass(states, &path[index..], &mut now, &mut next, steps)?;
        now.clear();
        std::mem::swap(&mut now, &mut next);
    }
    pass(states, &path[path.len()..], &mut now, &mut next, steps)?;
    note_ends(states, now.as_slice(), fitting)
}
