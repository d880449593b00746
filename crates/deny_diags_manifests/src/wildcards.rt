//! The messages about dependencies whose requirement any version meets, and about those that the workspace is
//! to declare and does not.
ghost use Rattle.std.specs.Prelude.{◌≡◌, ◌++◌, [], ℕ, IfOk, OnOk, option_map};
ghost use Rattle.std.specs.Option.{option_map_or};
ghost use Rattle.deny_spec_report.specs.Wildcards.{declared_at, dependency_word, labels_of_wildcard, paths_note};
ghost use Rattle.deny_spec_report.specs.Wildcards.{shared_labels, shared_span, unresolved_labels, unresolved_labels_in};
ghost use Rattle.deny_spec_report.specs.Wildcards.{unresolved_labels_of_dep};
ghost use Rattle.deny_spec_report.specs.Wildcards.{unresolved_diag, version_span, wildcard_labels, wildcard_message};
ghost use Rattle.deny_spec_report.specs.Wildcards.{wildcard_labels_in, wildcard_diag, workspace_label_at};
ghost use Rattle.deny_krates.specs.Crates.{crate_view};
ghost use Rattle.deny_spans_manifest.specs.Manifest.{dep_view};
ghost use Rattle.deny_spec.specs.DiagParts.{primary};
ghost use Rattle.deny_spec.specs.View.{shared_at};
ghost use Rattle.deny_spec.specs.Wrappers.{same_span};
ghost use Rattle.deny_spans.specs.SpansView.{manifest_view, spans_view};
ghost use Rattle.deny_diags_parts.specs.Context.{circumstances_from};
ghost use Rattle.deny_spans_workspace.specs.Workspace.{span_view};

use deny_base::{FileId, Key, Label, Severity, Span};
use deny_base_lists::{List, NoMemory, Text};
use deny_diags_parts::{DiagContext, Labels, crate_message, primary, secondary};
use deny_krates::{Krate, krate_at};
use deny_rules_manifests::{is_active_in, is_shared};
use deny_rules_match::krate_name;
use deny_spans::{KrateSpans, Manifest, ManifestDep, WorkspaceSpan};
use deny_spec_report::Message;
use std::alloc::Global;

/// The message about the dependencies of a crate whose requirement any version meets.
#[tactic(auto, unfolding(deny_spec_report::specs::Wildcards::wildcard_diag))]
pub fn wildcard_diag(alloc: Global, ctx: &DiagContext<'_>, key: &Key) -> Result<Message, NoMemory>
    ensures { IfOk result (λ diag. let c = circumstances_from ctx.now in
        diag ≡ wildcard_diag c.policy c.graph c.view key.now) }
{
    let labels = wildcard_labels(alloc, ctx, key)?;
    let message = wildcard_message(alloc, ctx, key.place, labels.len())?;
    let severity = ctx.cfg.wildcards.severity();
    crate_message(alloc, ctx.krates, key, severity, message, labels)
}

// The labels of these dependencies of a key's crate, each with the workspace's entry that declares it.
fn wildcard_labels(alloc: Global, ctx: &DiagContext<'_>, key: &Key) -> Labels
    ensures { IfOk result (λ labels. let c = circumstances_from ctx.now in
        labels ≡ wildcard_labels c.policy c.graph c.view key.now) }
{
    let Some(krate) = krate_at(ctx.krates, key.place) else {
        return Ok(List::new(alloc));
    };
    let Some(manifest) = ctx.spans.manifest_at(key.place) else {
        return Ok(List::new(alloc));
    };
    labels_of_wildcards(alloc, ctx, key.place, krate, manifest)
}

// The labels of these dependencies, by the manifest of the crate at a place.
#[tactic(auto, unfolding(deny_spec_report::specs::Wildcards::wildcard_labels_in, deny_spec_report::specs::Wildcards::wildcards_in))]
fn labels_of_wildcards(
    alloc: Global,
    ctx: &DiagContext<'_>,
    place: u32,
    krate: &Krate,
    manifest: &Manifest<'_>,
) -> Labels
    ensures { IfOk result (λ labels. let c = circumstances_from ctx.now in
        labels ≡ wildcard_labels_in c.policy c.graph c.view (crate_view place krate.now) (manifest_view manifest.now)) }
{
    let mut labels = List::new(alloc);
    for dep in manifest.deps(false) {
        if is_active_in(ctx.cfg, ctx.krates, place, krate, dep) {
            add_wildcard_labels(alloc, ctx.spans, manifest.id, dep, &mut labels)?;
        }
    }
    Ok(labels)
}

// Appends the labels of a dependency whose requirement any version meets.
#[tactic(auto, unfolding(deny_spec_report::specs::Wildcards::labels_of_wildcard, deny_spec_report::specs::Wildcards::wildcard_label))]
fn add_wildcard_labels(
    alloc: Global,
    spans: &KrateSpans<'_>,
    file: FileId,
    dep: &ManifestDep<'_>,
    labels: &mut List<Label>,
) -> Result<(), NoMemory>
    ensures { OnOk result (labels.new
        ≡ labels.old ++ labels_of_wildcard (spans_view spans.now) file (dep_view dep.now)) }
{
    labels.push(primary(alloc, file, version_span(dep), "wildcard dependency")?)?;
    add_shared_label(alloc, spans, dep, labels)?;
    Ok(())
}

// The span of a declaration's requirement, or of its whole value.
fn version_span(dep: &ManifestDep<'_>) -> Span
    ensures { result ≡ version_span (dep_view dep.now) }
{
    match &dep.version_req {
        Some(version) => version.span,
        None => dep.value_span,
    }
}

// Appends a label at the entry of the workspace that declares the dependency, if one does.
#[tactic(auto, unfolding(deny_spec_report::specs::Wildcards::shared_labels))]
fn add_shared_label(
    alloc: Global,
    spans: &KrateSpans<'_>,
    dep: &ManifestDep<'_>,
    labels: &mut List<Label>,
) -> Result<(), NoMemory>
    ensures { OnOk result (labels.new
        ≡ labels.old ++ shared_labels (spans_view spans.now) (dep_view dep.now)) }
{
    if is_shared(dep) {
        add_entry_label(alloc, spans, dep.place, labels)?;
    }
    Ok(())
}

// Appends a label at the workspace's entry for the crate at a place.
fn add_entry_label(
    alloc: Global,
    spans: &KrateSpans<'_>,
    place: u32,
    labels: &mut List<Label>,
) -> Result<(), NoMemory>
    ensures { OnOk result (let view = spans_view spans.now in labels.new
        ≡ labels.old ++ option_map_or (workspace_label_at view place) (shared_at view place) []) }
{
    let Some(entry) = spans.shared_at(place) else {
        return Ok(());
    };
    let Some(file) = spans.workspace_id else {
        return Ok(());
    };
    labels.push(secondary(alloc, file, shared_span(entry), "workspace dependency")?)?;
    Ok(())
}

// The span of an entry's requirement, or of its whole value.
fn shared_span(entry: &WorkspaceSpan<'_>) -> Span
    ensures { (place : ℕ) → result ≡ shared_span (span_view place entry.now) }
{
    match &entry.version {
        Some(written) => written.span,
        None => entry.value,
    }
}

#[tactic(auto, unfolding(deny_spec_report::specs::Wildcards::wildcard_message, deny_spec_report::specs::Wildcards::paths_sentence))]
fn wildcard_message(
    alloc: Global,
    ctx: &DiagContext<'_>,
    place: u32,
    count: usize,
) -> Result<Text, NoMemory>
    ensures { IfOk result (λ text. let c = circumstances_from ctx.now in
        text ≡ wildcard_message c.policy c.graph place count) }
{
    let word = dependency_word(count);
    let name = krate_name(alloc, ctx.krates, place)?;
    let note = paths_note(ctx);
    Ok(Text::from_string(format!(in alloc;
        "found {count} wildcard {word} for crate '{name}'{note}"
    )?))
}

fn dependency_word(count: usize) -> &'static str
    ensures { result.now ≡ dependency_word count }
{
    if count == 1 {
        "dependency"
    } else {
        "dependencies"
    }
}

// Why path dependencies are reported where the policy allows them.
#[tactic(auto, unfolding(deny_spec_report::specs::Wildcards::paths_sentence))]
fn paths_note(ctx: &DiagContext<'_>) -> &'static str
    ensures { result.now ≡ paths_note (circumstances_from ctx.now).policy }
{
    if ctx.cfg.allow_wildcard_paths {
        ". allow-wildcard-paths is enabled, but does not apply to public crates as crates.io disallows path dependencies."
    } else {
        ""
    }
}

/// The message about a dependency that the workspace is to declare and does not.
#[tactic(auto, unfolding(deny_spec_report::specs::Wildcards::unresolved_diag))]
pub fn unresolved_diag(alloc: Global, ctx: &DiagContext<'_>, key: &Key) -> Result<Message, NoMemory>
    ensures { IfOk result (λ diag. let c = circumstances_from ctx.now in
        diag ≡ unresolved_diag c.graph c.view key.now) }
{
    let labels = unresolved_labels(alloc, ctx, key)?;
    let message = Text::from_str(alloc, "failed to resolve a workspace dependency")?;
    crate_message(alloc, ctx.krates, key, Severity::Bug, message, labels)
}

// The labels at the declaration of a key.
fn unresolved_labels(alloc: Global, ctx: &DiagContext<'_>, key: &Key) -> Labels
    ensures { IfOk result (λ labels. let c = circumstances_from ctx.now in
        labels ≡ unresolved_labels c.graph c.view key.now) }
{
    let Some(_krate) = krate_at(ctx.krates, key.place) else {
        return Ok(List::new(alloc));
    };
    let Some(manifest) = ctx.spans.manifest_at(key.place) else {
        return Ok(List::new(alloc));
    };
    unresolved_manifest_labels(alloc, manifest, key.entry)
}

// The labels at the declaration of a manifest whose key has this span.
#[tactic(auto, unfolding(deny_spec_report::specs::Wildcards::unresolved_labels_in))]
fn unresolved_manifest_labels(alloc: Global, manifest: &Manifest<'_>, span: Span) -> Labels
    ensures { IfOk result (λ labels. labels ≡ unresolved_labels_in span (manifest_view manifest.now)) }
{
    match declared_at(manifest, span) {
        Some(dep) => unresolved_labels_of_dep(alloc, manifest.id, dep),
        None => Ok(List::new(alloc)),
    }
}

// The first declaration of a manifest whose key has this span.
fn declared_at<'m, 'k>(manifest: &'m Manifest<'k>, span: Span) -> Option<&'m ManifestDep<'k>>
    ensures { option_map (λ d. dep_view d.now) result ≡ declared_at span (manifest_view manifest.now) }
{
    for dep in manifest.deps(false) {
        if is_at(dep, span) {
            return Some(dep);
        }
    }
    None
}

fn is_at(dep: &ManifestDep<'_>, span: Span) -> bool
    ensures { result ≡ same_span (dep_view dep.now).key span }
{
    dep.key_span == span
}

// The labels at the flag that says that the workspace declares the dependency, and at the value.
#[tactic(auto, unfolding(deny_spec_report::specs::Wildcards::unresolved_labels_of_dep))]
fn unresolved_labels_of_dep(alloc: Global, file: FileId, dep: &ManifestDep<'_>) -> Labels
    ensures { IfOk result (λ labels. labels ≡ unresolved_labels_of_dep file (dep_view dep.now)) }
{
    let mut labels = List::new(alloc);
    if let Some(flag) = &dep.workspace {
        labels.push(primary(alloc, file, flag.span, "usage of workspace dependency")?)?;
    }
    labels.push(secondary(alloc, file, dep.value_span, "")?)?;
    Ok(labels)
}
