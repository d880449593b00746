ghost use Rattle.std.specs.Prelude.{ℕ, ◌≡◌, ◌<◌, ◌≤◌, ◌+◌, [], length, OnOk, IfOk};
ghost use Rattle.std.specs.Prelude.{get_or, slice_index, true, false, Contains};
ghost use Rattle.deny_globs.specs.private.Marked.{Marks, MarksIf};

use deny_base_lists::{NoMemory, Steps};
use std::alloc::Global;
use std::marker::Model;
use std::sync::ledger::Ledger;

/// The states that are marked at one index of a path, in the order in which they were marked.
#[derive(Drop)]
pub struct MarkedStates {
    order: Vec<usize>,
    marks: Vec<bool>,
}

/// Contracts see the states in their order, and the capacity.
impl Model for MarkedStates {
    ghost use Rattle.std.specs.Prelude.{ℕ, List, length};
    ghost use Rattle.deny_globs.specs.private.Marked.{IsMarked};

    ghost Value = { List ℕ × ℕ };

    ghost view = { λ m. (m.order.items, length m.marks.items) };

    ghost invariant = { λ m. IsMarked m.order.items m.marks.items };
}

impl MarkedStates {
    /// No marks, with room for this many states.
    pub fn new(alloc: Global, states: usize) -> Result<MarkedStates, NoMemory>
        ensures empty { IfOk result (λ m. m.0 ≡ []) }
        ensures room { IfOk result (λ m. m.1 ≡ states) }
    {
        let marks = vec![in alloc; false; states]?;
        Ok(MarkedStates {
            order: Vec::new(alloc),
            marks,
        })
    }

    /// Marks a state where it is not marked yet.
    pub fn mark<L: Ledger>(&mut self, state: usize, steps: &mut Steps<L>) -> Result<(), NoMemory>
        requires inside { state < self.old.1 }
        requires bound { length self.old.0 ≤ self.old.1 }
        ensures ok { OnOk result (Marks state self.old.0 self.new.0) }
        ensures room { self.new.1 ≡ self.old.1 }
        ensures bound { length self.new.0 ≤ self.new.1 }
        ensures steps { steps.new + length self.old.0 ≡ steps.old + length self.new.0 }
    {
        if self.marks[state] {
            return Ok(());
        }
        self.order.push(state)?;
        self.marks[state] = true;
        steps.tick();
        Ok(())
    }

    /// Clears all marks.
    pub fn clear(&mut self)
        ensures empty { self.new.0 ≡ [] }
        ensures room { self.new.1 ≡ self.old.1 }
    {
        clear_marks(&self.order, &mut self.marks);
        self.order.clear();
    }

    /// Marks a state where the test holds.
    pub fn mark_if<L: Ledger>(
        &mut self,
        test: bool,
        state: usize,
        steps: &mut Steps<L>,
    ) -> Result<(), NoMemory>
        requires inside { state < self.old.1 }
        requires bound { length self.old.0 ≤ self.old.1 }
        ensures ok { OnOk result (MarksIf test state self.old.0 self.new.0) }
        ensures kept { test ≡ false → self.new.0 ≡ self.old.0 }
        ensures room { self.new.1 ≡ self.old.1 }
        ensures bound { length self.new.0 ≤ self.new.1 }
        ensures steps { steps.new + length self.old.0 ≡ steps.old + length self.new.0 }
    {
        if test {
            return self.mark(state, steps);
        }
        Ok(())
    }

    /// The number of marked states.
    pub fn count(&self) -> usize
        ensures count { result ≡ length self.now.0 }
        ensures bound { length self.now.0 ≤ self.now.1 }
    {
        self.order.len()
    }

    /// Whether no state is marked.
    pub fn is_empty(&self) -> bool
        ensures { result ≡ true → self.now.0 ≡ [] }
    {
        self.order.is_empty()
    }

    /// The state at this index of the order in which they were marked.
    pub fn at(&self, index: usize) -> usize
        requires { index < length self.now.0 }
        ensures value { result ≡ slice_index self.now.0 index }
        ensures inside { result < self.now.1 }
    {
        self.order[index]
    }

    /// The states in the order in which they were marked.
    pub fn as_slice(&self) -> &[usize]
        ensures value { result.now ≡ self.now.0 }
        ensures inside { (number : ℕ) → Contains self.now.0 number → number < self.now.1 }
    {
        self.order.as_slice()
    }
}

/// Clears the marks that the order lists, which are all.
fn clear_marks(order: &[usize], marks: &mut Vec<bool>)
    requires listed { (number : ℕ) → get_or marks.old.items number false ≡ true → Contains order.now number }
    requires within { (number : ℕ) → Contains order.now number → number < length marks.old.items }
    ensures none { (number : ℕ) → get_or marks.new.items number false ≡ false }
    ensures room { length marks.new.items ≡ length marks.old.items }
{
    for state in order {
        marks[*state] = false;
    }
}
