//! The messages about dependencies that a workspace shares.
ghost use Rattle.std.specs.Prelude.{◌≡◌, ◌++◌, [], ℕ, IfOk, IfSome, IsTrue, OnOk, Some, None, is_some, map, option_map};
ghost use Rattle.std.specs.Option.{option_map_or};
ghost use Rattle.deny_base.specs.declared.span.Span.{Span};
ghost use Rattle.deny_cfg.specs.PolicyView.{sharing_view};
ghost use Rattle.deny_spec_report.specs.Sharing.{entry_labels, entry_labels_in, entry_message, note_at, patched_note};
ghost use Rattle.deny_spec_report.specs.Sharing.{renamed_entry_note, renamed_note, sharing_message, unshared_labels};
ghost use Rattle.deny_spec_report.specs.Sharing.{unused_at, unused_entry_diag, unused_entry_diag_by, unused_labels};
ghost use Rattle.deny_spec_report.specs.Sharing.{unused_labels_in, unused_message, use_labels, uses_of};
ghost use Rattle.deny_spec_report.specs.Sharing.{workspace_duplicate_labels, workspace_duplicate_message};
ghost use Rattle.deny_spec_report.specs.Sharing.{workspace_duplicate_diag, workspace_duplicate_diag_by};
ghost use Rattle.deny_rules_manifests.specs.Uses.{use_view};
ghost use Rattle.deny_spec.specs.DiagParts.{crate_at};
ghost use Rattle.deny_spec.specs.View.{shared_at};
ghost use Rattle.deny_diags_manifests.specs.Found.{AreUnusedOf, AreUsesOf};
ghost use Rattle.deny_spans.specs.SpansView.{spans_view};
ghost use Rattle.deny_diags_parts.specs.Context.{circumstances_from};
ghost use Rattle.deny_spans_workspace.specs.Workspace.{dep_view, span_view};

use deny_base::{FileId, Key, Label, Span, Spanned};
use deny_base_lists::{List, NoMemory, Text};
use deny_cfg::bans::cfg::WorkspaceDepsConfig;
use deny_diags_parts::{
    BySpan, DiagContext, Labels, crate_message, lone_label, not_built, plainly, primary, secondary,
};
use deny_krates::{krate_at, krate_text};
use deny_rules_manifests::{Use, Uses, is_unshared};
use deny_spans::{KrateSpans, UnusedWorkspaceDep, WorkspaceSpan};
use deny_spec_report::Message;
use std::alloc::Global;

/// The message about a crate that members declare several times, and not always by the shared entry.
#[tactic(auto, unfolding(deny_spec_report::specs::Sharing::workspace_duplicate_diag))]
pub fn workspace_duplicate_diag(
    alloc: Global,
    ctx: &DiagContext<'_>,
    uses: &Uses<'_, '_>,
    key: &Key,
) -> Result<Message, NoMemory>
    requires { AreUsesOf ctx.now uses.now }
    ensures { IfOk result (λ diag. let c = circumstances_from ctx.now in
        diag ≡ workspace_duplicate_diag c.policy c.graph c.view key.now) }
{
    match &ctx.cfg.workspace_dependencies {
        Some(shared) => workspace_duplicate_diag_by(alloc, ctx, uses, key, shared),
        None => Ok(not_built(alloc)),
    }
}

#[tactic(auto, unfolding(deny_spec_report::specs::Sharing::workspace_duplicate_diag_by))]
fn workspace_duplicate_diag_by(
    alloc: Global,
    ctx: &DiagContext<'_>,
    uses: &Uses<'_, '_>,
    key: &Key,
    shared: &WorkspaceDepsConfig,
) -> Result<Message, NoMemory>
    requires uses { AreUsesOf ctx.now uses.now }
    requires shared { ctx.now.cfg.now.workspace_dependencies ≡ Some shared.now }
    ensures { IfOk result (λ diag. let c = circumstances_from ctx.now in
        diag ≡ workspace_duplicate_diag_by c.graph c.view key.now (sharing_view shared.now)) }
{
    let message = workspace_duplicate_message(alloc, ctx, uses, key.place, shared)?;
    let labels = workspace_duplicate_labels(alloc, ctx, uses, key.place, shared)?;
    let severity = shared.duplicates.severity();
    crate_message(alloc, ctx.krates, key, severity, message, labels)
}

#[tactic(auto, unfolding(deny_spec_report::specs::Sharing::workspace_duplicate_message))]
fn workspace_duplicate_message(
    alloc: Global,
    ctx: &DiagContext<'_>,
    uses: &Uses<'_, '_>,
    place: u32,
    shared: &WorkspaceDepsConfig,
) -> Result<Text, NoMemory>
    requires uses { AreUsesOf ctx.now uses.now }
    requires shared { ctx.now.cfg.now.workspace_dependencies ≡ Some shared.now }
    ensures { IfOk result (λ text. let c = circumstances_from ctx.now in text ≡ option_map_or
        (workspace_duplicate_message (sharing_view shared.now) c.graph c.view) (crate_at c.graph place) []) }
{
    let Some(_krate) = krate_at(ctx.krates, place) else {
        return Ok(Text::new(alloc));
    };
    let krate = krate_text(alloc, ctx.krates, place)?;
    let count = uses_at(ctx, uses, place).len();
    let sharing = sharing_message(ctx.spans, place);
    Ok(Text::from_string(format!(in alloc;
        "crate {krate} is used {count} times in the workspace, {sharing}"
    )?))
}

// The declarations that count for the workspace of the crate at a place.
fn uses_at<'u, 's, 'k>(
    _ctx: &DiagContext<'_>,
    uses: &'u Uses<'s, 'k>,
    place: u32,
) -> &'u [Use<'s, 'k>]
    requires { AreUsesOf _ctx.now uses.now }
    ensures { IfSome _ctx.now.cfg.now.workspace_dependencies (λ shared. let c = circumstances_from _ctx.now in
        map use_view result.now ≡ uses_of (sharing_view shared) c.graph c.view place) }
{
    uses.at(place)
}

#[tactic(auto, unfolding(deny_spec_report::specs::Sharing::not_all_shared, deny_spec_report::specs::Sharing::none_shared))]
fn sharing_message(spans: &KrateSpans<'_>, place: u32) -> &'static str
    ensures { result.now ≡ sharing_message (spans_view spans.now) place }
{
    match spans.shared_at(place) {
        Some(_) => "but not all declarations use the shared workspace dependency",
        None => "and there is no shared workspace dependency for it",
    }
}

// The labels at the workspace's entry for the crate at a place, and at each declaration that does not say
// whether the workspace declares it.
#[tactic(auto, unfolding(deny_spec_report::specs::Sharing::workspace_duplicate_labels))]
fn workspace_duplicate_labels(
    alloc: Global,
    ctx: &DiagContext<'_>,
    uses: &Uses<'_, '_>,
    place: u32,
    shared: &WorkspaceDepsConfig,
) -> Labels
    requires uses { AreUsesOf ctx.now uses.now }
    requires shared { ctx.now.cfg.now.workspace_dependencies ≡ Some shared.now }
    ensures { IfOk result (λ labels. let c = circumstances_from ctx.now in
        labels ≡ workspace_duplicate_labels (sharing_view shared.now) c.graph c.view place) }
{
    let mut labels = entry_labels_at(alloc, ctx.spans, place)?;
    add_unshared_labels(alloc, uses_at(ctx, uses, place), &mut labels)?;
    Ok(labels)
}

#[tactic(auto, unfolding(deny_spec_report::specs::Sharing::unshared_labels))]
fn add_unshared_labels(
    alloc: Global,
    uses: &[Use<'_, '_>],
    labels: &mut List<Label>,
) -> Result<(), NoMemory>
    ensures { OnOk result (labels.new ≡ labels.old ++ unshared_labels (map use_view uses.now)) }
{
    for used in uses {
        if is_unshared(used) {
            add_use_labels(alloc, used, labels)?;
        }
    }
    Ok(())
}

// The labels at the workspace's entry for the crate at a place.
fn entry_labels_at(alloc: Global, spans: &KrateSpans<'_>, place: u32) -> Labels
    ensures { IfOk result (λ labels. let view = spans_view spans.now in
        labels ≡ option_map_or (entry_labels_in view) (shared_at view place) []) }
{
    let Some(entry) = spans.shared_at(place) else {
        return Ok(List::new(alloc));
    };
    let Some(file) = spans.workspace_id else {
        return Ok(List::new(alloc));
    };
    entry_labels(alloc, file, entry)
}

#[tactic(auto, unfolding(deny_spec_report::specs::Sharing::entry_labels))]
fn entry_labels(alloc: Global, file: FileId, entry: &WorkspaceSpan<'_>) -> Labels
    ensures { IfOk result (λ labels. (place : ℕ) → labels ≡ entry_labels file (span_view place entry.now)) }
{
    let mut labels = List::new(alloc);
    let message = entry_message(entry);
    labels.push(secondary(alloc, file, entry.key, message)?)?;
    add_patched_note(alloc, &mut labels, file, entry.patched)?;
    add_renamed_entry_note(alloc, &mut labels, file, &entry.rename)?;
    Ok(labels)
}

fn entry_message(entry: &WorkspaceSpan<'_>) -> &'static str
    ensures { (place : ℕ) → result.now ≡ entry_message (span_view place entry.now) }
{
    match entry.patched {
        Some(_) => "patched workspace dependency",
        None => "workspace dependency",
    }
}

// Appends a label at an entry's own key, where a patch replaces it.
#[tactic(auto, unfolding(deny_spec_report::specs::Sharing::patched_note))]
fn add_patched_note(
    alloc: Global,
    labels: &mut List<Label>,
    file: FileId,
    patched: Option<Span>,
) -> Result<(), NoMemory>
    ensures { OnOk result (labels.new ≡ labels.old ++ note_at file patched_note patched) }
{
    let message = "note this is the original dependency that is patched";
    add_note(alloc, labels, file, message, patched)
}

// Appends a label at the new name of the workspace's entry, where it is renamed.
#[tactic(auto, unfolding(deny_spec_report::specs::Sharing::renamed_entry_note))]
fn add_renamed_entry_note(
    alloc: Global,
    labels: &mut List<Label>,
    file: FileId,
    rename: &Option<Spanned<Text>>,
) -> Result<(), NoMemory>
    ensures { OnOk result (labels.new
        ≡ labels.old ++ note_at file renamed_entry_note (option_map (λ r. r.span) rename.now)) }
{
    let message = "note the workspace dependency is renamed";
    add_note(alloc, labels, file, message, rename_span(rename))
}

// Appends a label at the new name of a declaration or an unused entry, where it is renamed.
#[tactic(auto, unfolding(deny_spec_report::specs::Sharing::renamed_note))]
fn add_renamed_note(
    alloc: Global,
    labels: &mut List<Label>,
    file: FileId,
    rename: &Option<Spanned<Text>>,
) -> Result<(), NoMemory>
    ensures { OnOk result (labels.new
        ≡ labels.old ++ note_at file renamed_note (option_map (λ r. r.span) rename.now)) }
{
    add_note(
        alloc,
        labels,
        file,
        "note the dependency is renamed",
        rename_span(rename),
    )
}

fn rename_span(rename: &Option<Spanned<Text>>) -> Option<Span>
    ensures { result ≡ option_map (λ r. r.span) rename.now }
{
    match rename {
        Some(rename) => Some(rename.span),
        None => None,
    }
}

// Appends a label at a span, where there is one.
fn add_note(
    alloc: Global,
    labels: &mut List<Label>,
    file: FileId,
    message: &str,
    span: Option<Span>,
) -> Result<(), NoMemory>
    ensures { OnOk result (labels.new ≡ labels.old ++ note_at file message.now span) }
{
    if let Some(span) = span {
        labels.push(secondary(alloc, file, span, message)?)?;
    }
    Ok(())
}

// Appends the labels of a declaration that does not say whether the workspace declares it.
#[tactic(auto, unfolding(deny_spec_report::specs::Sharing::use_labels))]
fn add_use_labels(
    alloc: Global,
    used: &Use<'_, '_>,
    labels: &mut List<Label>,
) -> Result<(), NoMemory>
    ensures { OnOk result (labels.new ≡ labels.old ++ use_labels (use_view used.now)) }
{
    labels.push(primary(alloc, used.file, used.dep.key_span, "")?)?;
    add_renamed_note(alloc, labels, used.file, &used.dep.rename)
}

/// The message about an entry of the workspace that no crate comes from.
#[tactic(auto, unfolding(deny_spec_report::specs::Sharing::unused_entry_diag))]
pub fn unused_entry_diag(
    alloc: Global,
    ctx: &DiagContext<'_>,
    unused: &BySpan<'_, UnusedWorkspaceDep>,
    key: &Key,
) -> Result<Message, NoMemory>
    requires unused { AreUnusedOf ctx.now unused.now }
    requires there { IsTrue (is_some (unused_at (circumstances_from ctx.now).view key.now.entry)) }
    ensures { IfOk result (λ diag. let c = circumstances_from ctx.now in
        diag ≡ unused_entry_diag c.policy c.view key.now) }
{
    match &ctx.cfg.workspace_dependencies {
        Some(shared) => unused_entry_diag_by(alloc, ctx, unused, key, shared),
        None => Ok(not_built(alloc)),
    }
}

#[tactic(auto, unfolding(deny_spec_report::specs::Sharing::unused_entry_diag_by, deny_spec_report::specs::Sharing::unused_entry_message))]
fn unused_entry_diag_by(
    alloc: Global,
    ctx: &DiagContext<'_>,
    unused: &BySpan<'_, UnusedWorkspaceDep>,
    key: &Key,
    shared: &WorkspaceDepsConfig,
) -> Result<Message, NoMemory>
    requires unused { AreUnusedOf ctx.now unused.now }
    requires there { IsTrue (is_some (unused_at (circumstances_from ctx.now).view key.now.entry)) }
    ensures { IfOk result (λ diag. diag
        ≡ unused_entry_diag_by (circumstances_from ctx.now).view key.now (sharing_view shared.now)) }
{
    let message = Text::from_str(alloc, "workspace dependency is declared, but unused")?;
    let labels = unused_labels_at(alloc, ctx, unused, key.entry)?;
    Ok(plainly(alloc, shared.unused.severity(), message, labels, None))
}

// The labels at the unused entry of a span.
fn unused_labels_at(
    alloc: Global,
    ctx: &DiagContext<'_>,
    unused: &BySpan<'_, UnusedWorkspaceDep>,
    span: Span,
) -> Labels
    requires unused { AreUnusedOf ctx.now unused.now }
    requires there { IsTrue (is_some (unused_at (circumstances_from ctx.now).view span)) }
    ensures { IfOk result (λ labels. let c = circumstances_from ctx.now in
        labels ≡ option_map_or (unused_labels_in c.view) (unused_at c.view span) []) }
{
    let entry = unused_at(ctx, unused, span);
    let Some(file) = ctx.spans.workspace_id else {
        return Ok(List::new(alloc));
    };
    unused_labels(alloc, file, entry)
}

// The unused entry of a span.
fn unused_at<'u>(
    _ctx: &DiagContext<'_>,
    unused: &BySpan<'u, UnusedWorkspaceDep>,
    span: Span,
) -> &'u UnusedWorkspaceDep
    requires unused { AreUnusedOf _ctx.now unused.now }
    requires there { IsTrue (is_some (unused_at (circumstances_from _ctx.now).view span)) }
    ensures { Some (dep_view None result.now) ≡ unused_at (circumstances_from _ctx.now).view span }
{
    match unused.at(span) {
        Some(entry) => entry,
        None => unreachable!(),
    }
}

#[tactic(auto, unfolding(deny_spec_report::specs::Sharing::unused_labels))]
fn unused_labels(alloc: Global, file: FileId, entry: &UnusedWorkspaceDep) -> Labels
    ensures { IfOk result (λ labels. labels ≡ unused_labels file (dep_view None entry.now)) }
{
    let mut labels = lone_label(alloc, file, entry.key, unused_message(entry))?;
    add_patched_note(alloc, &mut labels, file, entry.patched)?;
    add_renamed_note(alloc, &mut labels, file, &entry.rename)?;
    Ok(labels)
}

fn unused_message(entry: &UnusedWorkspaceDep) -> &'static str
    ensures { result.now ≡ unused_message (dep_view None entry.now) }
{
    match entry.patched {
        Some(_) => "unused and patched workspace dependency",
        None => "unused workspace dependency",
    }
}
