//! What the value of a dependency declares.
ghost use Rattle.std.specs.Prelude.{◌≡◌, IfOk, IsTrue, option_copied, option_map};
ghost use Rattle.semver.specs.Parse.{memory_error};
ghost use Rattle.deny_toml.specs.Calls.{below_name};
ghost use Rattle.deny_spans_manifest.specs.Found.{held_spanned, rename_of, requirement_in};
ghost use Rattle.deny_spans_manifest.specs.Found.{requirement_read, versioned, version_of, workspace_of};

use deny_base::Spanned;
use deny_base_lists::{NoMemory, Text};
use deny_toml::Value;
use semver::{Error, VersionReq};
use std::alloc::{AllocError, Global};

/// The flag at `workspace`: whether the workspace declares the dependency. None where there is no flag.
#[tactic(auto, unfolding(crate::specs::Found::workspace_of))]
pub fn workspace_of(value: &Value<'_>) -> Option<Spanned<bool>>
    ensures { result ≡ workspace_of value.now }
{
    let flag = below(value, "workspace")?;
    Some(Spanned {
        value: flag.as_bool()?,
        span: flag.span,
    })
}

/// The text at `package`: the name of the crate, where it differs from the key. None where there is no
/// text.
#[tactic(auto, unfolding(crate::specs::Found::rename_of))]
pub fn rename_of(alloc: Global, value: &Value<'_>) -> Result<Option<Spanned<Text>>, NoMemory>
    ensures { IfOk result (λ rename. rename ≡ rename_of value.now) }
{
    let Some(named) = below(value, "package") else {
        return Ok(None);
    };
    let Some(name) = named.as_str() else {
        return Ok(None);
    };
    Ok(Some(Spanned {
        value: Text::from_str(alloc, name)?,
        span: named.span,
    }))
}

/// The requirement on the version: that of the text at `version`, or of the value itself where it is a
/// text. None where there is no such text, or semver refuses it.
#[tactic(auto, unfolding(crate::specs::Found::version_of))]
pub fn version_of(alloc: Global, value: &Value<'_>) -> Result<Option<Spanned<VersionReq>>, NoMemory>
    ensures { IfOk result (λ version. option_map held_spanned version ≡ version_of value.now) }
{
    let written = versioned(value);
    let Some(requirement) = requirement_in(alloc, written)? else {
        return Ok(None);
    };
    Ok(Some(Spanned {
        value: requirement,
        span: written.span,
    }))
}

/// The value that holds the requirement: that at `version`, or the whole.
#[tactic(auto, unfolding(crate::specs::Found::versioned))]
fn versioned<'v, 't>(value: &'v Value<'t>) -> &'v Value<'t>
    ensures { result.now ≡ versioned value.now }
{
    if let Some(version) = below(value, "version") {
        return version;
    }
    value
}

/// The requirement that semver reads in a text.
#[tactic(auto, unfolding(crate::specs::Found::requirement_in))]
fn requirement_in(alloc: Global, value: &Value<'_>) -> Result<Option<VersionReq>, NoMemory>
    ensures { IfOk result (λ read. option_map requirement_read read ≡ requirement_in value.now) }
{
    let Some(text) = value.as_str() else {
        return Ok(None);
    };
    match VersionReq::parse(alloc, text) {
        Ok(requirement) => Ok(Some(requirement)),
        Err(error) => if is_memory(&error) {
            Err(NoMemory)
        } else {
            Ok(None)
        },
    }
}

fn is_memory(error: &Error) -> bool
    ensures { error.now ≡ memory_error → IsTrue result }
{
    *error == Error::from(AllocError)
}

/// The value at a key, where the value is a table that has it.
pub fn below<'v, 't>(value: &'v Value<'t>, name: &str) -> Option<&'v Value<'t>>
    ensures { option_copied result ≡ below_name name.now value.now }
{
    let (_, found) = value.as_table()?.get_key_value(name)?;
    Some(found)
}
