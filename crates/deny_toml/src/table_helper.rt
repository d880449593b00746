ghost use Rattle.std.specs.Prelude.{◌≡◌, ◌++◌, ◌∷◌, [], IfOk, IfErr, OnOk, Some, None, map};
ghost use Rattle.deny_toml_tree.specs.Value.{span_in, table_with};
ghost use Rattle.deny_toml_tree.specs.Calls.{table_in, entry_at, value_at, without};
ghost use Rattle.deny_toml_tree.specs.Faults.{Reports, under, fault_at};
ghost use Rattle.deny_toml.specs.Deserialize.{faults_of_kind};
ghost use Rattle.deny_toml.specs.TableHelper.{required_faults, optional_faults, ReadsRequired};
ghost use Rattle.deny_toml.specs.TableHelper.{ReadsOptional, table_faults, unknown};

use crate::deserialize::Deserialize;
use deny_base::{Span, Spanned};
use deny_base_lists::{List, NoMemory, Text};
use deny_toml_grammar::Key;
use deny_toml_tree::{
    ConfigFault, Content, DeserError, FaultKind, Value, index_named, keep_faults,
    put_faults_in_order, put_under,
};
use std::alloc::Global;
use std::mem;

/// Reads a table key by key, and collects what is wrong with it: `required` and `optional` take a
/// key out and read its value, and `finalize` reports the faults, among them each key that is left.
#[derive(Drop)]
pub struct TableHelper<'t> {
    alloc: Global,
    /// The span of the table.
    pub span: Span,
    /// The keys that are left, with their values.
    pub entries: List<(Key<'t>, Value<'t>)>,
    /// The faults that were kept so far, of the keys in the order in which they were read.
    pub faults: List<ConfigFault>,
}

impl<'t> TableHelper<'t> {
    /// Takes the table out of `value`. A value of another kind is unchanged, and is the only fault.
    pub fn new(alloc: Global, value: &mut Value<'t>) -> Result<TableHelper<'t>, DeserError>
        ensures table { IfOk result (λ helper. table_in value.old ≡ Some (table_with helper.entries)) }
        ensures span { IfOk result (λ helper. helper.span ≡ span_in value.old) }
        ensures no_fault_yet { IfOk result (λ helper. helper.faults ≡ []) }
        ensures faults { IfErr result (Reports (faults_of_kind value.old (table_in value.old))) }
        ensures stays { table_in value.old ≡ None → value.new ≡ value.old }
    {
        let span = value.span;
        match &mut value.content {
            Content::Table(table) => Ok(TableHelper {
                alloc,
                span,
                entries: mem::replace(&mut table.entries, List::new(alloc)),
                faults: List::new(alloc),
            }),
            _ => Err(DeserError::wrong_kind(alloc, span)),
        }
    }

    /// Takes a key out, with its value. The time is linear in the number of keys left.
    pub fn take(&mut self, name: &str) -> Option<(Key<'t>, Value<'t>)>
        ensures taken { result ≡ entry_at name.now self.old.entries }
        ensures left { self.new ≡ record self.old { entries = without name.now self.old.entries } }
    {
        take_entry(&mut self.entries, name.as_bytes())
    }

    /// Takes out a required key, and reads its value. The faults are not kept: a missing key is
    /// `Missing` at the table, and the faults of the value are under the key.
    pub fn required<T: Deserialize>(&mut self, name: &str) -> Result<T, DeserError>
        ensures ok { IfOk result (ReadsRequired T.faults_of T.reads (value_at name.now self.old.entries)) }
        ensures faults { IfErr result (Reports
            (required_faults T.faults_of self.old.span name.now (value_at name.now self.old.entries))) }
        ensures left { self.new ≡ record self.old { entries = without name.now self.old.entries } }
    {
        match self.take(name) {
            Some(entry) => read_entry(self.alloc, name, entry),
            None => Err(missing(self.alloc, name, self.span)),
        }
    }

    /// Does what `required` does, and returns the span of the value too.
    pub fn required_s<T: Deserialize>(&mut self, name: &str) -> Result<Spanned<T>, DeserError>
        ensures ok { IfOk result (ReadsRequired T.faults_of
            (λ v x. (x.span ≡ span_in v) × T.reads v x.value) (value_at name.now self.old.entries)) }
        ensures faults { IfErr result (Reports
            (required_faults T.faults_of self.old.span name.now (value_at name.now self.old.entries))) }
        ensures left { self.new ≡ record self.old { entries = without name.now self.old.entries } }
    {
        self.required::<Spanned<T>>(name)
    }

    /// Takes out an optional key, and reads its value. Returns None where the key is missing, and
    /// where its value has faults: these are kept, under the key.
    pub fn optional<T: Deserialize>(&mut self, name: &str) -> Result<Option<T>, NoMemory>
        ensures ok { IfOk result (ReadsOptional T.faults_of T.reads (value_at name.now self.old.entries)) }
        ensures kept { OnOk result (self.new ≡ record self.old {
          entries = without name.now self.old.entries;
          faults = self.old.faults ++ optional_faults T.faults_of name.now (value_at name.now self.old.entries);
        }) }
    {
        let Some(entry) = self.take(name) else {
            return Ok(None);
        };
        match read_entry(self.alloc, name, entry) {
            Ok(read) => Ok(Some(read)),
            Err(DeserError::Faults(faults)) => {
                self.keep(faults)?;
                Ok(None)
            }
            Err(DeserError::Memory) => Err(NoMemory),
        }
    }

    /// Does what `optional` does, and returns the span of the value too.
    pub fn optional_s<T: Deserialize>(&mut self, name: &str) -> Result<Option<Spanned<T>>, NoMemory>
        ensures ok { IfOk result (ReadsOptional T.faults_of
            (λ v x. (x.span ≡ span_in v) × T.reads v x.value) (value_at name.now self.old.entries)) }
        ensures kept { OnOk result (self.new ≡ record self.old {
          entries = without name.now self.old.entries;
          faults = self.old.faults ++ optional_faults T.faults_of name.now (value_at name.now self.old.entries);
        }) }
    {
        self.optional::<Spanned<T>>(name)
    }

    /// Keeps faults that `required` returned, so that `finalize` reports them with the others.
    pub fn keep(&mut self, faults: List<ConfigFault>) -> Result<(), NoMemory>
        ensures { OnOk result (self.new ≡ record self.old { faults = self.old.faults ++ faults }) }
    {
        keep_faults(&mut self.faults, faults)
    }

    /// Ends the reading of the table. Ok exactly where no fault was kept and no key is left: each
    /// of these is `Unknown`, at the key.
    #[tactic(auto, using(deny_toml_tree::proofs::FaultLaws::in_order_ascends))]
    pub fn finalize(self) -> Result<(), DeserError>
        ensures ok { OnOk result (table_faults self.entry.faults self.entry.entries ≡ []) }
        ensures faults { IfErr result (Reports (table_faults self.entry.faults self.entry.entries)) }
    {
        let mut faults = with_unknown(self.alloc, self.faults, self.entries)?;
        put_faults_in_order(&mut faults)?;
        if faults.len() == 0 {
            Ok(())
        } else {
            Err(DeserError::Faults(faults))
        }
    }
}

fn take_entry<'t>(
    entries: &mut List<(Key<'t>, Value<'t>)>,
    name: &[u8],
) -> Option<(Key<'t>, Value<'t>)>
    ensures taken { result ≡ entry_at name.now entries.old }
    ensures left { entries.new ≡ without name.now entries.old }
{
    let index = index_named(entries.as_slice(), name)?;
    Some(entries.vec.remove(index))
}

/// Reads the value of an entry, and drops what is not moved out of it.
fn read_entry<T: Deserialize>(
    alloc: Global,
    name: &str,
    entry: (Key<'_>, Value<'_>),
) -> Result<T, DeserError>
    ensures ok { IfOk result (λ x. (T.faults_of entry.entry.1 ≡ []) × T.reads entry.entry.1 x) }
    ensures faults { IfErr result (Reports (under name.now (T.faults_of entry.entry.1))) }
{
    let (_, mut value) = entry;
    read_under(alloc, name, &mut value)
}

/// Reads a value, whose faults are put under `name`.
pub(crate) fn read_under<T: Deserialize>(
    alloc: Global,
    name: &str,
    value: &mut Value<'_>,
) -> Result<T, DeserError>
    ensures ok { IfOk result (λ x. (T.faults_of value.old ≡ []) × T.reads value.old x) }
    ensures faults { IfErr result (Reports (under name.now (T.faults_of value.old))) }
{
    match T::deserialize(alloc, value) {
        Ok(read) => Ok(read),
        Err(DeserError::Faults(faults)) => Err(DeserError::Faults(put_under(alloc, name, faults)?)),
        Err(DeserError::Memory) => Err(DeserError::Memory),
    }
}

#[tactic(auto, using(deny_toml_tree::proofs::FaultLaws::single_ascends))]
fn missing(alloc: Global, name: &str, table: Span) -> DeserError
    ensures { Reports (fault_at FaultKind.Missing name.now table ∷ []) result }
{
    match Text::from_str(alloc, name) {
        Ok(key) => DeserError::of(alloc, ConfigFault::new(FaultKind::Missing, key, table)),
        Err(_) => DeserError::Memory,
    }
}

/// The faults that were kept, and after them one for each key that is left.
fn with_unknown(
    alloc: Global,
    kept: List<ConfigFault>,
    left: List<(Key<'_>, Value<'_>)>,
) -> Result<List<ConfigFault>, NoMemory>
    ensures { IfOk result (λ faults. faults ≡ kept ++ map unknown left.entry) }
{
    let mut faults = kept;
    add_unknown(alloc, &mut faults, left.as_slice())?;
    Ok(faults)
}

fn add_unknown(
    alloc: Global,
    faults: &mut List<ConfigFault>,
    left: &[(Key<'_>, Value<'_>)],
) -> Result<(), NoMemory>
    ensures { OnOk result (faults.new ≡ faults.old ++ map unknown left.now) }
{
    for entry in left {
        faults.push(unknown(alloc, entry)?)?;
    }
    Ok(())
}

/// The fault of a key that was not read.
fn unknown(alloc: Global, entry: &(Key<'_>, Value<'_>)) -> Result<ConfigFault, NoMemory>
    ensures { IfOk result (λ fault. fault ≡ unknown entry.now) }
{
    let name = Text::from_str(alloc, entry.0.name.as_str())?;
    Ok(ConfigFault::new(FaultKind::Unknown, name, entry.0.span))
}
