//! The days of a policy until which entries count, where it is not told which day it is.
ghost use Rattle.std.specs.Prelude.{◌≡◌, ◌++◌, IfOk, OnOk, option_copied};
ghost use Rattle.deny_toml.specs.Calls.{below_name};
ghost use Rattle.deny_cfg_entries.specs.PolicyKey.{name_of};
ghost use Rattle.deny_cfg_entries.specs.declared.policy_key.PolicyKey.TheVariants as key;
ghost use Rattle.deny_cfg.specs.Waiting.{expires_path, no_today, waiting_at, waiting_from, waiting_in, waiting_of};

use deny_base_lists::{List, NoMemory, Text};
use deny_cfg_entries::{Day, PolicyKey, day_at};
use deny_toml::{ConfigFault, FaultKind, Value};
use std::alloc::Global;

/// The value at the key `expires` of an entry.
fn expires_of<'v, 't>(entry: &'v Value<'t>) -> Option<&'v Value<'t>>
    ensures { option_copied result ≡ below_name (name_of key.Expires) entry.now }
{
    let (_, value) = entry.as_table()?.get_key_value(PolicyKey::Expires.name())?;
    Some(value)
}

/// The path of the key `expires` of the entry at an index of an array.
fn expires_path(alloc: Global, array: &str, index: usize) -> Result<Text, NoMemory>
    ensures { IfOk result (λ path. path ≡ expires_path array.now index) }
{
    Ok(Text::from_string(format!(in alloc; "{array}.{index}.expires")?))
}

/// Adds the fault of the entry at an index of an array, if it names a day.
fn add_waiting_at(
    alloc: Global,
    array: &str,
    index: usize,
    entry: &Value<'_>,
    faults: &mut List<ConfigFault>,
) -> Result<(), NoMemory>
    ensures { OnOk result (faults.new ≡ faults.old
        ++ waiting_at (expires_path array.now index) (below_name (name_of key.Expires) entry.now)) }
{
    let Some(value) = expires_of(entry) else {
        return Ok(());
    };
    if day_at(alloc, value)?.is_none() {
        return Ok(());
    }
    let path = expires_path(alloc, array, index)?;
    faults.push(ConfigFault::new(FaultKind::NoToday, path, value.span))
}

/// Adds the faults of the entries of an array.
fn add_waiting_from(
    alloc: Global,
    array: &str,
    entries: &[Value<'_>],
    faults: &mut List<ConfigFault>,
) -> Result<(), NoMemory>
    ensures { OnOk result (faults.new ≡ faults.old ++ waiting_from array.now 0 entries.now) }
{
    let mut index: usize = 0;
    for entry in entries {
        add_waiting_at(alloc, array, index, entry, faults)?;
        index += 1;
    }
    Ok(())
}

/// Adds the faults of the array at a path of the tree, if there is one.
fn add_waiting_of(
    alloc: Global,
    array: &str,
    value: Option<&Value<'_>>,
    faults: &mut List<ConfigFault>,
) -> Result<(), NoMemory>
    ensures { OnOk result (faults.new ≡ faults.old ++ waiting_of array.now (option_copied value.entry)) }
{
    let Some(value) = value else {
        return Ok(());
    };
    match value.as_array() {
        Some(entries) => add_waiting_from(alloc, array, entries, faults),
        None => Ok(()),
    }
}

#[tactic(auto, unfolding(crate::specs::Waiting::waiting_in))]
fn waiting_in(alloc: Global, tree: &Value<'_>) -> Result<List<ConfigFault>, NoMemory>
    ensures { IfOk result (λ faults. faults ≡ waiting_in tree.now) }
{
    let mut faults = List::new(alloc);
    let all = &mut faults;
    add_waiting_of(alloc, "bans.skip", tree.pointer("/bans/skip"), all)?;
    add_waiting_of(
        alloc,
        "bans.skip-tree",
        tree.pointer("/bans/skip-tree"),
        all,
    )?;
    let ignore = tree.pointer("/bans/std-replacements/ignore");
    add_waiting_of(alloc, "bans.std-replacements.ignore", ignore, all)?;
    add_waiting_of(
        alloc,
        "bans.build.bypass",
        tree.pointer("/bans/build/bypass"),
        all,
    )?;
    add_waiting_of(
        alloc,
        "licenses.exceptions",
        tree.pointer("/licenses/exceptions"),
        all,
    )?;
    Ok(faults)
}

/// The faults of a tree for want of a day.
pub fn no_today(
    alloc: Global,
    today: Option<Day>,
    tree: &Value<'_>,
) -> Result<List<ConfigFault>, NoMemory>
    ensures { IfOk result (λ faults. faults ≡ no_today today tree.now) }
{
    match today {
        Some(_) => Ok(List::new(alloc)),
        None => waiting_in(alloc, tree),
    }
}
