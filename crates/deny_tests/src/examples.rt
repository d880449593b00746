//! The callers that the leaf crates show in their documentation, with their answers.
ghost use Rattle.std.specs.Prelude.{◌≡◌, ◌<◌, ◌^◌, IfOk, IfSome, Ok, List, is_some, length};
ghost use Rattle.deny_spdx.specs.Bad.{Spells};
ghost use Rattle.deny_spdx.specs.Grammar.{IsExpression};
ghost use Rattle.deny_spdx.specs.Truth.{truth};
ghost use Rattle.deny_spdx.specs.declared.expression.Expression.{Expression};
ghost use Rattle.deny_std_table.specs.Entries.{Entry};
ghost use Rattle.deny_std_table.specs.Table.{entry_named, table};

use deny_globs::{Glob, GlobError, GlobSet};
use deny_spdx::{Expression, SpdxError};
use deny_std_table::{ReplacementData, ReplacementError};
use deny_toml::{TomlError, parse};
use std::alloc::Global;

/// Whether an expression is true where its requirements have these values; none where they are not as many.
fn is_true(alloc: Global, text: &str, values: &[bool]) -> Result<Option<bool>, SpdxError>
    ensures { IfOk result (λ answer. IfSome answer (λ value.
        (e : Expression) × Spells IsExpression text.now e × (value ≡ truth values.now e.tree))) }
{
    let expression = Expression::parse(alloc, text)?;
    if expression.requirements().len() != values.len() {
        return Ok(None);
    }
    Ok(Some(expression.evaluate(values)))
}

/// Whether a table has an entry for a crate.
fn has_entry(alloc: Global, bytes: &[u8], name: &str) -> Result<bool, ReplacementError>
    ensures { IfOk result (λ found. (entries : List Entry) × (table bytes.now ≡ Ok entries)
        × (found ≡ is_some (entry_named (record { bytes = bytes.now; entries = entries }) name.now))) }
{
    let table = ReplacementData::from_bytes(alloc, bytes)?;
    Ok(table.entry(name).is_some())
}

/// Whether a text has a key.
fn names(alloc: Global, text: &str, key: &str) -> Result<bool, TomlError>
    requires { length text.now < 2 ^ 28 }
{
    let value = parse(alloc, text)?;
    Ok(value.has_key(key))
}

/// Whether a pattern fits a path.
fn fits(alloc: Global, pattern: &str, path: &str) -> Result<bool, GlobError> {
    let mut set = GlobSet::empty(alloc);
    set.add(Glob::parse(alloc, pattern)?)?;
    let mut numbers = Vec::new(alloc);
    set.matches(path, &mut numbers)?;
    Ok(!numbers.is_empty())
}

#[test]
fn an_expression_is_evaluated(rt: HostRuntime) {
    let value = is_true(rt.alloc(), "MIT OR Zlib AND ISC", &[false, true, true]);
    assert!(rt; matches!(value, Ok(Some(true))));
}

#[test]
fn bytes_that_break_are_no_table(rt: HostRuntime) {
    let found = has_entry(rt.alloc(), b"\xcd\xcd\xcd\x01", "x");
    assert!(rt; matches!(found, Err(ReplacementError::Bad(4))));
}

#[test]
fn a_text_has_a_key(rt: HostRuntime) {
    let names = names(rt.alloc(), "[bans]", "bans");
    assert!(rt; matches!(names, Ok(true)));
}

#[test]
fn a_pattern_fits(rt: HostRuntime) {
    let fits = fits(rt.alloc(), "a/**/*.sh", "a/b/c.sh");
    assert!(rt; matches!(fits, Ok(true)));
}
