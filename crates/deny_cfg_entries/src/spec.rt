//! Package specs, as a policy writes them.
ghost use Rattle.std.specs.Prelude.{◌≡◌, ◌≤◌, ◌+◌, true, [], Some, None, IfOk, IsSomeAnd};
ghost use Rattle.std.specs.Prelude.{IfErr, IfSome, OnOk, option_map, is_some, length};
ghost use Rattle.deny_toml.specs.Faults.{Reports};
ghost use Rattle.std.specs.List.{list_any};
ghost use Rattle.deny_toml.specs.Calls.{has_name, text_in};
ghost use Rattle.deny_toml.specs.Value.{span_of};
ghost use Rattle.deny_cfg_entries.specs.Requirement.{IsReadIn};
ghost use Rattle.deny_cfg_entries.specs.Spec as spec;
ghost use Rattle.deny_cfg_entries.specs.Spec.{parts_in, divided, name_in, spec_in, name_span, ReadsSpecText};
ghost use Rattle.deny_cfg_entries.specs.Spec.{ReadsSpecKeys, ReadsSpec, ReadsName, crate_fields};
ghost use Rattle.deny_cfg_entries.specs.Spec.{name_field, name_fields, spec_fields, faults_of_spec};
ghost use Rattle.deny_cfg_entries.specs.Table.{ReadAt, ReadsThere, ReadsTable, after, after_all};
ghost use Rattle.deny_cfg_entries.specs.Table.{faults_of_table, faults_of_fields, state_of, at_key};
ghost use Rattle.deny_cfg_entries.specs.Words.{faults_as, ReadsAs, ReadsSpanned};
ghost use Rattle.deny_cfg_entries.specs.declared.policy_key.PolicyKey.TheVariants as key;

use crate::package_spec::PackageSpec;
use crate::policy_key::PolicyKey;
use crate::requirement::requirement_in;
use crate::table;
use crate::written_requirement::WrittenRequirement;
use deny_base::{Span, Spanned};
use deny_base_lists::{NoMemory, Text};
use deny_toml::{DeserError, Deserialize, Key, TableHelper, Value};
use semver::VersionReq;
use std::alloc::Global;

/// The name and the requirement, where the text has a character that divides them.
#[tactic(auto, unfolding(crate::specs::Spec::divided))]
fn divided(text: &str) -> Option<(&str, &str)>
    ensures parts { option_map (λ parts. (parts.0.now, parts.1.now)) result ≡ divided text.now }
    ensures prefix { IfSome result (λ parts. length parts.0.now ≤ length text.now) }
{
    match text.split_once('@') {
        Some(parts) => Some(parts),
        None => text.split_once(':'),
    }
}

/// The span of a name that is a prefix of the text at a span.
fn prefix_span(span: Span, name: &str) -> Span
    requires short { span.start + length name.now ≤ span.end }
    ensures { result ≡ span_of span.start (length name.now) }
{
    Span {
        start: span.start,
        end: span.start + name.len() as u32,
    }
}

/// The span of a name that is a prefix of the text of a string.
fn name_span(value: &Value<'_>, text: &str, name: &str) -> Span
    requires string { text_in value.now ≡ Some text.now }
    requires prefix { length name.now ≤ length text.now }
    ensures { result ≡ name_span value.now name.now }
{
    if value.is_verbatim() {
        prefix_span(value.span, name)
    } else {
        value.span
    }
}

/// The spec that the text of a string writes; None where the text is no spec.
#[tactic(auto, unfolding(crate::specs::Spec::spec_in))]
fn spec_in(alloc: Global, value: &Value<'_>, text: &str) -> Result<Option<PackageSpec>, NoMemory>
    requires string { text_in value.now ≡ Some text.now }
    ensures spec { IfOk result (λ read. option_map parts_in read ≡ spec_in text.now) }
    ensures span { IfOk result (λ read. IfSome read (λ made. made.name.span ≡ name_span value.now made.name.value)) }
{
    match divided(text) {
        Some((name, requirement)) => {
            let Some(read) = requirement_in(alloc, requirement)? else {
                return Ok(None);
            };
            let written = Text::from_str(alloc, requirement)?;
            named(alloc, value, text, name, Some(read), Some(written))
        }
        None => named(alloc, value, text, text, None, None),
    }
}

/// The spec of a name and a requirement; None where the name is empty.
fn named(
    alloc: Global,
    value: &Value<'_>,
    text: &str,
    name: &str,
    version_req: Option<VersionReq>,
    req_text: Option<Text>,
) -> Result<Option<PackageSpec>, NoMemory>
    requires string { text_in value.now ≡ Some text.now }
    requires prefix { length name.now ≤ length text.now }
    requires read { IsReadIn req_text version_req }
    ensures named { IfOk result (λ made. option_map parts_in made ≡ spec.named name.now req_text) }
    ensures span { IfOk result (λ all. IfSome all (λ made. made.name.span ≡ name_span value.now made.name.value)) }
{
    if name.is_empty() {
        return Ok(None);
    }
    Ok(Some(PackageSpec {
        name: Spanned {
            value: Text::from_str(alloc, name)?,
            span: name_span(value, text, name),
        },
        version_req,
        req_text,
    }))
}

/// A spec written as a text.
#[derive(Drop)]
struct SpecText(PackageSpec);

impl Deserialize for SpecText {
    ghost reads = { λ v read. ReadsSpecText v read.0 };

    ghost faults_of = { faults_as spec_in };

    fn deserialize(alloc: Global, value: &mut Value<'_>) -> Result<SpecText, DeserError> {
        let span = value.span;
        let Some(text) = value.as_str() else {
            return Err(DeserError::wrong_kind(alloc, span));
        };
        match spec_in(alloc, value, text)? {
            Some(spec) => Ok(SpecText(spec)),
            None => Err(DeserError::unreadable(alloc, span)),
        }
    }
}

/// The name of a spec, which is not empty.
#[derive(Drop)]
struct SpecName(Text);

impl Deserialize for SpecName {
    ghost reads = { λ v read. ReadsAs name_in v read.0 };

    ghost faults_of = { faults_as name_in };

    fn deserialize(alloc: Global, value: &mut Value<'_>) -> Result<SpecName, DeserError> {
        let span = value.span;
        let Some(text) = value.as_str() else {
            return Err(DeserError::wrong_kind(alloc, span));
        };
        match name_in(alloc, text)? {
            Some(name) => Ok(SpecName(name)),
            None => Err(DeserError::unreadable(alloc, span)),
        }
    }
}

#[tactic(auto, unfolding(crate::specs::Spec::name_in))]
fn name_in(alloc: Global, text: &str) -> Result<Option<Text>, NoMemory>
    ensures { IfOk result (λ name. name ≡ name_in text.now) }
{
    if text.is_empty() {
        Ok(None)
    } else {
        Ok(Some(Text::from_str(alloc, text)?))
    }
}

/// Reads the key `crate` of a spec.
fn read_crate(helper: &mut TableHelper<'_>) -> Result<Option<PackageSpec>, NoMemory>
    requires there { is_some (at_key key.Crate helper.old.entries) ≡ true }
    ensures next { OnOk result (state_of helper.new ≡ after_all crate_fields (state_of helper.old)) }
    ensures read { IfOk result (λ x. faults_of_fields crate_fields helper.old.span helper.old.entries ≡ []
        → IsSomeAnd x (ReadsSpecKeys helper.old.entries)) }
{
    match table::optional::<SpecText>(helper, PolicyKey::Crate)? {
        Some(read) => Ok(Some(read.0)),
        None => Ok(None),
    }
}

/// Reads the key `name` of a spec.
fn read_name_key(helper: &mut TableHelper<'_>) -> Result<Option<Spanned<Text>>, NoMemory>
    ensures next { OnOk result (state_of helper.new ≡ after name_field (state_of helper.old)) }
    ensures read { IfOk result (λ x. ReadAt name_field (state_of helper.old)
        (λ v. IsSomeAnd x (ReadsThere (ReadsSpanned (ReadsAs name_in)) v))) }
{
    match table::required::<Spanned<SpecName>>(helper, PolicyKey::Name)? {
        Some(name) => Ok(Some(Spanned {
            value: name.value.0,
            span: name.span,
        })),
        None => Ok(None),
    }
}

/// Reads the keys `name` and `version` of a spec.
fn read_name(helper: &mut TableHelper<'_>) -> Result<Option<PackageSpec>, NoMemory>
    ensures next { OnOk result (state_of helper.new ≡ after_all name_fields (state_of helper.old)) }
    ensures read { IfOk result (λ x. faults_of_fields name_fields helper.old.span helper.old.entries ≡ []
        → IsSomeAnd x (ReadsName helper.old.entries)) }
{
    let name = read_name_key(helper)?;
    let version = table::optional::<WrittenRequirement>(helper, PolicyKey::Version)?;
    match name {
        Some(name) => Ok(Some(with_version(name, version))),
        None => Ok(None),
    }
}

fn with_version(name: Spanned<Text>, version: Option<WrittenRequirement>) -> PackageSpec
    ensures name { result.name ≡ name }
    ensures version { result.req_text ≡ option_map (λ written. written.text) version }
{
    match version {
        Some(written) => PackageSpec {
            name,
            version_req: Some(written.requirement),
            req_text: Some(written.text),
        },
        None => PackageSpec {
            name,
            version_req: None,
            req_text: None,
        },
    }
}

/// Whether one of the keys has this name.
fn has_key(entries: &[(Key<'_>, Value<'_>)], name: &str) -> bool
    ensures { result ≡ list_any (has_name name.now) entries.now }
{
    entries.iter().any(|entry| entry.0.name.as_str() == name)
}

fn has_crate(helper: &TableHelper<'_>) -> bool
    ensures { result ≡ is_some (at_key key.Crate helper.now.entries) }
{
    has_key(helper.entries.as_slice(), PolicyKey::Crate.name())
}

/// Takes the keys of a spec out of the table and reads them. The helper keeps their faults; the answer is
/// None only where one of them has a fault.
pub(crate) fn read_spec(helper: &mut TableHelper<'_>) -> Result<Option<PackageSpec>, NoMemory>
    ensures next { OnOk result (state_of helper.new
        ≡ after_all (spec_fields helper.old.entries) (state_of helper.old)) }
    ensures read { IfOk result (λ x.
        faults_of_fields (spec_fields helper.old.entries) helper.old.span helper.old.entries ≡ []
        → IsSomeAnd x (ReadsSpecKeys helper.old.entries)) }
{
    if has_crate(helper) {
        read_crate(helper)
    } else {
        read_name(helper)
    }
}

/// Reads a table that has the keys of a spec and no others.
fn read_spec_table(alloc: Global, value: &mut Value<'_>) -> Result<PackageSpec, DeserError>
    ensures ok { IfOk result (λ x. (faults_of_table spec_fields value.old ≡ [])
        × ReadsTable ReadsSpecKeys value.old x) }
    ensures faults { IfErr result (Reports (faults_of_table spec_fields value.old)) }
{
    let mut helper = TableHelper::new(alloc, value)?;
    let spec = read_spec(&mut helper)?;
    helper.finalize()?;
    match spec {
        Some(spec) => Ok(spec),
        None => unreachable!(),
    }
}

/// Reads a spec that is written as a string; None where the value is no string.
pub(crate) fn read_spec_text(
    alloc: Global,
    value: &Value<'_>,
) -> Result<Option<PackageSpec>, DeserError>
    ensures text { IfOk result (λ read. is_some read ≡ is_some (text_in value.now)) }
    ensures ok { IfOk result (λ read. IfSome read (λ spec.
        (faults_as spec_in value.now ≡ []) × ReadsSpecText value.now spec)) }
    ensures faults { IfErr result (λ e. is_some (text_in value.now) ≡ true × Reports (faults_as spec_in value.now) e) }
{
    let Some(text) = value.as_str() else {
        return Ok(None);
    };
    match spec_in(alloc, value, text)? {
        Some(spec) => Ok(Some(spec)),
        None => Err(DeserError::unreadable(alloc, value.span)),
    }
}

/// A spec is a text, or a table that has the keys of a spec and no others.
impl Deserialize for PackageSpec {
    ghost reads = { ReadsSpec };

    ghost faults_of = { faults_of_spec };

    fn deserialize(alloc: Global, value: &mut Value<'_>) -> Result<PackageSpec, DeserError> {
        match read_spec_text(alloc, value)? {
            Some(spec) => Ok(spec),
            None => read_spec_table(alloc, value),
        }
    }
}
