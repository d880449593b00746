//! The first clash of a document: a segment of a header or of a key that may not be at its slot.
ghost use Rattle.std.specs.Prelude.{◌≡◌, ℕ, ◌+◌, ◌==◌, ◌&&◌, List, [], map, option_map};
ghost use Rattle.std.specs.Prelude.{Option, Some, None, Result, OnOk, IfOk, if◌then◌else◌};
ghost use Rattle.std.specs.Str.{bytes_eq};
ghost use Rattle.deny_toml_tree.specs.Clash.{Segment, hold, walk, walk_header, walk_key};
ghost use Rattle.deny_toml_tree.specs.Clash.{clash_in, first_of, member_line, clash_after, clash};
ghost use Rattle.deny_toml_tree.specs.private.Slots.{Reports, Takes, TakesKey, Finds, occupant_at, occupant_after};
ghost use Rattle.deny_toml_tree.specs.private.Slots.{admits};
ghost use Rattle.deny_toml_grammar.specs.Expression.{assigned_path, assigned_value};

use deny_base::Span;
use deny_base_lists::{List, NoMemory};
use deny_toml_grammar::{Assignment, Header, Key, TomlExpression, Written, WrittenContent};
use std::alloc::Global;
use std::collections::BTreeMap;

/// The role of a segment at its slot, which is a name in a table.
#[derive(Clone, Copy)]
enum Role {
    /// A header that continues after it.
    HeaderPasses,
    /// `[table]` ends with it.
    HeaderNames,
    /// `[[array]]` ends with it.
    ArrayNames,
    /// A key that continues after it.
    KeyPasses,
    /// A key ends with it.
    KeySets,
}

impl Role {
    /// Whether a segment with this role may be at a slot.
    fn may_duplicate(self, there: Option<Occupant>) -> bool
        ensures { result ≡ admits self (option_map (λ s. s.role) there) }
    {
        let Some(occupant) = there else {
            return true;
        };
        match occupant.role {
            Role::HeaderPasses => !matches!(self, Role::ArrayNames | Role::KeySets),
            Role::HeaderNames => matches!(self, Role::HeaderPasses),
            Role::ArrayNames => matches!(self, Role::HeaderPasses | Role::ArrayNames),
            Role::KeyPasses => matches!(self, Role::HeaderPasses | Role::KeyPasses),
            Role::KeySets => false,
        }
    }
}

/// The occupant of a slot: what the segments there have made.
#[derive(Clone, Copy)]
struct Occupant {
    /// The role that decides: the last that is not `HeaderPasses`, if there is one.
    role: Role,
    /// The number of the segment that made the table, or the last table of the array.
    table: u64,
}

impl Occupant {
    /// The occupant of a slot after one more segment with this number.
    fn after(there: Option<Occupant>, role: Role, number: u64) -> Occupant
        ensures { result ≡ occupant_after there role number }
    {
        match there {
            None => Occupant {
                role,
                table: number,
            },
            Some(occupant) => match role {
                Role::HeaderPasses => occupant,
                Role::ArrayNames => Occupant {
                    role,
                    table: number,
                },
                Role::HeaderNames | Role::KeyPasses | Role::KeySets => Occupant {
                    role,
                    table: occupant.table,
                },
            },
        }
    }
}

/// A name in a table, which is known by the number of the segment that made it, from 1 on. The
/// root table has the number 0.
#[derive(Clone, Copy, PartialEq, Eq, PartialOrd, Ord)]
struct Slot<'n> {
    table: u64,
    name: &'n str,
}

const ROOT: u64 = 0;

/// The occupant of each slot, and the number of segments.
#[derive(Drop)]
struct Slots<'n> {
    occupants: BTreeMap<Slot<'n>, Occupant>,
    segments: u64,
}

/// Why the check of a document ended early.
#[derive(Drop)]
enum Refusal {
    Clash(Span),
    Memory,
}

impl From<NoMemory> for Refusal {
    ghost use Rattle.std.specs.Prelude.{◌≡◌};
    ghost use Rattle.deny_toml_tree.specs.declared.clash.Refusal.TheVariants.{Memory};

    ghost from_gives = { λ _ e. e ≡ Memory };

    fn from(_error: NoMemory) -> Refusal {
        Refusal::Memory
    }
}

impl<'n> Slots<'n> {
    fn new(alloc: Global) -> Slots<'n>
        ensures { Reports result [] }
    {
        Slots {
            occupants: BTreeMap::new(alloc),
            segments: 0,
        }
    }

    fn at(&self, slot: Slot<'n>) -> Option<Occupant>
        ensures { result ≡ occupant_at self.now slot.entry.table slot.entry.name.now }
    {
        self.occupants.get(&slot).copied()
    }

    fn put(&mut self, slot: Slot<'n>, occupant: Occupant) -> Result<(), NoMemory>
        ensures count { OnOk result (self.new.segments ≡ self.old.segments) }
        ensures each { OnOk result ((table : ℕ) (name : List ℕ) → occupant_at self.new table name
            ≡ (if (slot.entry.table == table) && bytes_eq slot.entry.name.now name then Some occupant
            else occupant_at self.old table name)) }
    {
        self.occupants.insert(slot, occupant)?;
        Ok(())
    }

    /// Puts a segment at its slot in a table, and returns the number of the table there.
    fn take(&mut self, table: u64, key: &'n Key<'_>, role: Role) -> Result<u64, Refusal>
        ensures { (before : List Segment) → Reports self.old before
            → Takes result self.new (hold before table role key.now) }
    {
        let slot = Slot {
            table,
            name: key.name.as_str(),
        };
        let there = self.at(slot);
        if !role.may_duplicate(there) {
            return Err(Refusal::Clash(key.span));
        }
        // More segments than a `u64` counts do not fit into memory.
        let number = self.segments.checked_add(1).ok_or(NoMemory)?;
        let occupant = Occupant::after(there, role, number);
        self.put(slot, occupant)?;
        self.segments = number;
        Ok(occupant.table)
    }

    /// Puts the segments of a path at their slots, beginning in a table. The last one has a role of
    /// its own. Returns the number of the table that the path leads to.
    fn take_path(
        &mut self,
        from: u64,
        path: &'n [Key<'_>],
        passing: Role,
        last: Role,
    ) -> Result<u64, Refusal>
        ensures { (before : List Segment) → Reports self.old before
            → Takes result self.new (walk before from passing last path.now) }
    {
        let mut table = from;
        for (part, key) in path.iter().enumerate() {
            let role = if part + 1 == path.len() {
                last
            } else {
                passing
            };
            table = self.take(table, key, role)?;
        }
        Ok(table)
    }

    /// Puts the segments of a header at their slots, and returns the number of its table.
    fn take_header(&mut self, header: &'n Header<'_>) -> Result<u64, Refusal>
        ensures { (before : List Segment) → Reports self.old before
            → Takes result self.new (walk_header before header.now) }
    {
        let last = if header.is_array {
            Role::ArrayNames
        } else {
            Role::HeaderNames
        };
        self.take_path(ROOT, header.path.as_slice(), Role::HeaderPasses, last)
    }
}

/// Puts the segments of a key at their slots in a table, and checks its value.
#[cycle(clashes)]
fn take_key<'n>(
    alloc: Global,
    slots: &mut Slots<'n>,
    table: u64,
    key: &'n Assignment<'_>,
) -> Result<(), Refusal>
    ensures { (before : List Segment) → Reports slots.old before
        → TakesKey result slots.new (walk_key before table (assigned_path key.now))
        (clash_in (assigned_value key.now)) }
{
    slots.take_path(table, key.path.as_slice(), Role::KeyPasses, Role::KeySets)?;
    check_value(alloc, &key.value)
}

/// Checks the inline tables of a value for clashes.
#[cycle(clashes)]
fn check_value(alloc: Global, value: &Written<'_>) -> Result<(), Refusal>
    ensures { Finds result (clash_in value.now) }
{
    match &value.content {
        WrittenContent::Scalar(_) => Ok(()),
        WrittenContent::Array(elements) => check_elements(alloc, elements.as_slice()),
        WrittenContent::InlineTable(members) => check_members(alloc, members.as_slice()),
    }
}

#[cycle(clashes)]
fn check_elements(alloc: Global, elements: &[Written<'_>]) -> Result<(), Refusal>
    ensures { Finds result (first_of (map clash_in elements.now)) }
{
    for element in elements {
        check_value(alloc, element)?;
    }
    Ok(())
}

/// Checks an inline table for clashes. Its keys meet no keys outside it.
#[cycle(clashes)]
fn check_members(alloc: Global, members: &[Assignment<'_>]) -> Result<(), Refusal>
    ensures { Finds result (clash_after [] 0 (map member_line members.now)) }
{
    let mut slots = Slots::new(alloc);
    for member in members {
        take_key(alloc, &mut slots, ROOT, member)?;
    }
    Ok(())
}

fn check_expressions(alloc: Global, expressions: &[TomlExpression<'_>]) -> Result<(), Refusal>
    ensures { Finds result (clash expressions.now) }
{
    let mut slots = Slots::new(alloc);
    let mut table = ROOT;
    for expression in expressions {
        match expression {
            TomlExpression::Header(header) => table = slots.take_header(header)?,
            TomlExpression::Assignment(key) => take_key(alloc, &mut slots, table, key)?,
        }
    }
    Ok(())
}

/// The span of the first segment that clashes, if there is one.
pub fn first_clash(
    alloc: Global,
    expressions: &List<TomlExpression<'_>>,
) -> Result<Option<Span>, NoMemory>
    ensures exact { IfOk result (λ found. found ≡ clash expressions.now) }
{
    match check_expressions(alloc, expressions.as_slice()) {
        Ok(()) => Ok(None),
        Err(Refusal::Clash(span)) => Ok(Some(span)),
        Err(Refusal::Memory) => Err(NoMemory),
    }
}
