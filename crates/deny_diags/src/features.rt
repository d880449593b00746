//! The messages about features.
ghost use Rattle.std.specs.Prelude.{◌≡◌, ◌++◌, ◌∷◌, [], IfOk, IsTrue, OnOk, Some, codes, filter, find, is_some};
ghost use Rattle.std.specs.Prelude.{map, not};
ghost use Rattle.std.specs.Cmp.Lexicographic.{slice_cmp};
ghost use Rattle.std.specs.List.{list_any};
ghost use Rattle.std.specs.List.Sorted.{IsStrictlySortedBy};
ghost use Rattle.std.specs.Option.{option_map_or};
ghost use Rattle.std.specs.Ordering.{nat_cmp};
ghost use Rattle.deny_cfg.specs.PolicyView.{feature_view};
ghost use Rattle.deny_spec_report.specs.Features.{default_enabled_diag, default_severity, entry_and_crate, feature_at};
ghost use Rattle.deny_spec_report.specs.Features.{feature_banned_diag, feature_entry_at, feature_nodes_at};
ghost use Rattle.deny_spec_report.specs.Features.{feature_not_allowed_diag, mismatch_labels, mismatch_nodes};
ghost use Rattle.deny_spec_report.specs.Features.{mismatched_diag, named_at, of_feature, unknown_feature_diag};
ghost use Rattle.deny_spec_report.specs.Features.{unlisted, unlisted_note, with_features};
ghost use Rattle.deny_spec_report.specs.PackageDiags.{required_features};
ghost use Rattle.deny_spec_report.specs.MessageParts.{plainly};
ghost use Rattle.deny_spec.specs.Text.{same_text};
ghost use Rattle.deny_spec.specs.DiagParts.{crate_at, kid_at, node_of, primary};
ghost use Rattle.deny_spec.specs.Wrappers.{same_span};
ghost use Rattle.deny_diags.specs.private.Features.{feature_node, listed_features, mismatch_message, named_features};
ghost use Rattle.deny_diags.specs.private.Features.{with_notes};
ghost use Rattle.deny_diags.specs.private.DiagWriter.{circumstances_from};

use crate::crate_message::sentence_message;
use crate::writer::DiagWriter;
use deny_base::{FileId, GraphNode, Key, Kid, Label, Severity, Span};
use deny_base_lists::{List, NoMemory, Text};
use deny_cfg::bans::cfg::ValidKrateFeatures;
use deny_diags_parts::{Labels, crate_message, lone_label, primary};
use deny_krates::{Krates, krate_at, krate_text};
use deny_rules_features::{default_level_at, enabled_at, has, unlisted};
use deny_rules_match::{are_placed, spans_by_name};
use deny_spec_report::Message;
use std::alloc::Global;

/// The message about a crate whose features are not exactly those of an entry.
#[tactic(auto, unfolding(deny_spec_report::specs::Features::mismatched_diag))]
pub fn mismatched_diag(
    alloc: Global,
    writer: &DiagWriter<'_>,
    key: &Key,
) -> Result<Message, NoMemory>
    requires { IsTrue (is_some (feature_entry_at (circumstances_from writer.now).policy key.now.entry)) }
    ensures { IfOk result (λ diag. let c = circumstances_from writer.now in
        diag ≡ mismatched_diag c.policy c.graph c.files.policy key.now) }
{
    let entry = writer.feature_entry(key.entry);
    let features = unlisted_of(alloc, writer, entry, key)?;
    with_unlisted(alloc, writer, entry, key, features.as_slice())
}

// The message about such a crate, without the features that its entry does not list.
fn mismatch_message(
    alloc: Global,
    writer: &DiagWriter<'_>,
    entry: &ValidKrateFeatures,
    key: &Key,
) -> Result<Message, NoMemory>
    requires { Some (feature_view entry.now) ≡ feature_entry_at (circumstances_from writer.now).policy key.now.entry }
    ensures { IfOk result (λ diag. let c = circumstances_from writer.now in
        diag ≡ mismatch_message c.policy c.graph c.files.policy key.now) }
{
    let labels = mismatch_labels(alloc, writer, entry, key)?;
    sentence_message(
        alloc,
        writer.ctx.krates,
        Severity::Error,
        "feature set for crate '",
        key,
        "' did not match exactly",
        labels,
    )
}

// The message about such a crate, with the features that its entry does not list.
#[tactic(auto, unfolding(deny_spec_report::specs::Features::mismatched_diag))]
fn with_unlisted(
    alloc: Global,
    writer: &DiagWriter<'_>,
    entry: &ValidKrateFeatures,
    key: &Key,
    features: &[Text],
) -> Result<Message, NoMemory>
    requires entry { Some (feature_view entry.now)
        ≡ feature_entry_at (circumstances_from writer.now).policy key.now.entry }
    requires features { let c = circumstances_from writer.now in
        features.now ≡ entry_and_crate c.policy c.graph key.now (unlisted c.policy c.graph) [] }
    ensures { IfOk result (λ diag. let c = circumstances_from writer.now in
        diag ≡ mismatched_diag c.policy c.graph c.files.policy key.now) }
{
    let notes = unlisted_notes(alloc, features)?;
    let nodes = mismatch_nodes(alloc, writer, entry, key, features)?;
    let diag = mismatch_message(alloc, writer, entry, key)?;
    Ok(with_features(with_notes(diag, notes), nodes))
}

// The message with these notes.
fn with_notes(diag: Message, notes: List<Text>) -> Message
    ensures { result ≡ with_notes diag notes }
{
    let mut diag = diag;
    diag.notes = notes;
    diag
}

// The enabled features of the crate of a key that its entry does not list.
fn unlisted_of(
    alloc: Global,
    writer: &DiagWriter<'_>,
    entry: &ValidKrateFeatures,
    key: &Key,
) -> Result<List<Text>, NoMemory>
    requires { Some (feature_view entry.now) ≡ feature_entry_at (circumstances_from writer.now).policy key.now.entry }
    ensures { IfOk result (λ features. let c = circumstances_from writer.now in
        features ≡ entry_and_crate c.policy c.graph key.now (unlisted c.policy c.graph) []) }
{
    are_placed(writer.ctx.krates);
    let allowed = spans_by_name(alloc, entry.features.allow.value.as_slice())?;
    unlisted(
        alloc,
        writer.ctx.cfg,
        writer.ctx.krates,
        entry,
        &allowed,
        key.place,
    )
}

// The labels at the `exact` of a key's entry, and at its features that are not enabled.
fn mismatch_labels(
    alloc: Global,
    writer: &DiagWriter<'_>,
    entry: &ValidKrateFeatures,
    key: &Key,
) -> Labels
    requires { Some (feature_view entry.now) ≡ feature_entry_at (circumstances_from writer.now).policy key.now.entry }
    ensures { IfOk result (λ labels. let c = circumstances_from writer.now in
        labels ≡ entry_and_crate c.policy c.graph key.now (mismatch_labels c.files.policy) []) }
{
    let Some(_krate) = krate_at(writer.ctx.krates, key.place) else {
        return Ok(List::new(alloc));
    };
    missing_labels(
        alloc,
        writer.ctx.cfg.file_id,
        entry,
        enabled_at(writer.ctx.krates, key.place),
    )
}

// The labels at the `exact` of an entry, and at its features that are not among the enabled ones.
fn missing_labels(
    alloc: Global,
    file: FileId,
    entry: &ValidKrateFeatures,
    enabled: &[Text],
) -> Labels
    requires { IsStrictlySortedBy (slice_cmp nat_cmp) enabled.now }
    ensures { IfOk result (λ labels. let e = feature_view entry.now in
        labels ≡ primary file e.exact.span (codes "exact enabled here")
        ∷ map (λ w. primary file w.span (codes "allowed feature not present"))
        (filter (λ w. not (list_any (same_text w.value) enabled.now)) e.allow.value)) }
{
    let mut labels = lone_label(alloc, file, entry.features.exact.span, "exact enabled here")?;
    for name in entry.features.allow.value.as_slice() {
        if !has(enabled, &name.value) {
            add_missing_label(alloc, file, name.span, &mut labels)?;
        }
    }
    Ok(labels)
}

fn add_missing_label(
    alloc: Global,
    file: FileId,
    span: Span,
    labels: &mut List<Label>,
) -> Result<(), NoMemory>
    ensures { OnOk result (labels.new
        ≡ labels.old ++ primary file span (codes "allowed feature not present") ∷ []) }
{
    labels.push(primary(alloc, file, span, "allowed feature not present")?)?;
    Ok(())
}

fn unlisted_notes(alloc: Global, features: &[Text]) -> Result<List<Text>, NoMemory>
    ensures { IfOk result (λ notes. notes ≡ map unlisted_note features.now) }
{
    let mut notes = List::new(alloc);
    for feature in features {
        notes.push(unlisted_note(alloc, feature)?)?;
    }
    Ok(notes)
}

fn unlisted_note(alloc: Global, feature: &Text) -> Result<Text, NoMemory>
    ensures { IfOk result (λ note. note ≡ unlisted_note feature.now) }
{
    Ok(Text::from_string(format!(in alloc;
        "'{feature}' feature was enabled but not explicitly allowed"
    )?))
}

// The nodes of those features of a key's crate that its entry does not list; where there are none, the node
// of the crate.
fn mismatch_nodes(
    alloc: Global,
    writer: &DiagWriter<'_>,
    _entry: &ValidKrateFeatures,
    key: &Key,
    features: &[Text],
) -> Result<List<GraphNode>, NoMemory>
    requires entry { Some (feature_view _entry.now)
        ≡ feature_entry_at (circumstances_from writer.now).policy key.now.entry }
    requires features { let c = circumstances_from writer.now in
        features.now ≡ entry_and_crate c.policy c.graph key.now (unlisted c.policy c.graph) [] }
    ensures { IfOk result (λ nodes. let c = circumstances_from writer.now in
        nodes ≡ entry_and_crate c.policy c.graph key.now (mismatch_nodes c.policy c.graph) []) }
{
    are_placed(writer.ctx.krates);
    if features.len() != 0 {
        return feature_nodes_at(alloc, writer.ctx.krates, key.place, features);
    }
    crate_nodes_at(alloc, writer.ctx.krates, key.place)
}

// The crate at a place, as a graph node.
fn crate_nodes_at(alloc: Global, krates: &Krates, place: u32) -> Result<List<GraphNode>, NoMemory>
    ensures { IfOk result (λ nodes. nodes ≡ option_map_or (λ c. node_of c ∷ []) (crate_at krates.now place) []) }
{
    let mut nodes = List::new(alloc);
    if let Some(krate) = krate_at(krates, place) {
        nodes.push(GraphNode {
            kid: krate.id.clone()?,
            feature: None,
        })?;
    }
    Ok(nodes)
}

// Features of the crate at a place, as graph nodes.
#[tactic(auto, unfolding(deny_spec_report::specs::Features::feature_nodes_at))]
fn feature_nodes_at(
    alloc: Global,
    krates: &Krates,
    place: u32,
    features: &[Text],
) -> Result<List<GraphNode>, NoMemory>
    ensures { IfOk result (λ nodes. nodes ≡ feature_nodes_at krates.now place features.now) }
{
    match krate_at(krates, place) {
        Some(krate) => feature_nodes(alloc, &krate.id, features),
        None => Ok(List::new(alloc)),
    }
}

fn feature_nodes(alloc: Global, kid: &Kid, features: &[Text]) -> Result<List<GraphNode>, NoMemory>
    ensures { IfOk result (λ nodes. nodes ≡ map (feature_node kid.now) features.now) }
{
    let mut nodes = List::new(alloc);
    for feature in features {
        nodes.push(feature_node(kid, feature)?)?;
    }
    Ok(nodes)
}

fn feature_node(kid: &Kid, feature: &Text) -> Result<GraphNode, NoMemory>
    ensures { IfOk result (λ node. node ≡ feature_node kid.now feature.now) }
{
    Ok(GraphNode {
        kid: kid.clone()?,
        feature: Some(feature.clone()?),
    })
}

// A feature of the crate at a place, as a graph node.
fn feature_node_at(
    alloc: Global,
    krates: &Krates,
    place: u32,
    feature: &str,
) -> Result<List<GraphNode>, NoMemory>
    ensures { IfOk result (λ nodes. nodes ≡ feature_nodes_at krates.now place (feature.now ∷ [])) }
{
    let mut features = List::new(alloc);
    features.push(Text::from_str(alloc, feature)?)?;
    feature_nodes_at(alloc, krates, place, features.as_slice())
}

/// The message about a feature that an entry does not allow.
#[tactic(auto, unfolding(deny_spec_report::specs::Features::feature_not_allowed_diag))]
pub fn feature_not_allowed_diag(
    alloc: Global,
    writer: &DiagWriter<'_>,
    key: &Key,
) -> Result<Message, NoMemory>
    requires { IsTrue (is_some (feature_entry_at (circumstances_from writer.now).policy key.now.entry)) }
    ensures { IfOk result (λ diag. let c = circumstances_from writer.now in
        diag ≡ feature_not_allowed_diag c.policy c.graph c.files.policy key.now) }
{
    let labels = allow_labels(alloc, writer, key.entry)?;
    let diag = feature_message(
        alloc,
        writer.ctx.krates,
        Severity::Error,
        "feature '",
        key.text.as_str(),
        key,
        "' was not explicitly allowed",
        labels,
    )?;
    Ok(with_features(diag, List::new(alloc)))
}

// The label at the allowed features of the entry with this span.
fn allow_labels(alloc: Global, writer: &DiagWriter<'_>, span: Span) -> Labels
    requires { IsTrue (is_some (feature_entry_at (circumstances_from writer.now).policy span)) }
    ensures { IfOk result (λ labels. let c = circumstances_from writer.now in
        labels ≡ option_map_or (λ e. primary c.files.policy e.allow.span (codes "allowed features") ∷ [])
        (feature_entry_at c.policy span) []) }
{
    let entry = writer.feature_entry(span);
    lone_label(
        alloc,
        writer.ctx.cfg.file_id,
        entry.features.allow.span,
        "allowed features",
    )
}

/// The message about a denied feature that is enabled.
#[tactic(auto, unfolding(deny_spec_report::specs::Features::feature_banned_diag))]
pub fn feature_banned_diag(
    alloc: Global,
    writer: &DiagWriter<'_>,
    key: &Key,
) -> Result<Message, NoMemory>
    requires { IsTrue (is_some (find (λ w. same_span w.span key.now.entry)
        (listed_features writer.now.ctx.cfg.now))) }
    ensures { IfOk result (λ diag. let c = circumstances_from writer.now in
        diag ≡ feature_banned_diag c.policy c.graph c.files.policy key.now) }
{
    let feature = feature_at(writer, key.entry);
    let labels = lone_label(
        alloc,
        writer.ctx.cfg.file_id,
        key.entry,
        "feature denied here",
    )?;
    let diag = feature_message(
        alloc,
        writer.ctx.krates,
        Severity::Error,
        "feature '",
        feature,
        key,
        "' is explicitly denied",
        labels,
    )?;
    with_feature(alloc, writer.ctx.krates, key.place, feature, diag)
}

/// The message about a listed feature that the crate does not have.
#[tactic(auto, unfolding(deny_spec_report::specs::Features::unknown_feature_diag))]
pub fn unknown_feature_diag(
    alloc: Global,
    writer: &DiagWriter<'_>,
    key: &Key,
) -> Result<Message, NoMemory>
    requires { IsTrue (is_some (find (λ w. same_span w.span key.now.entry)
        (named_features writer.now.ctx.cfg.now))) }
    ensures { IfOk result (λ diag. let c = circumstances_from writer.now in diag
        ≡ unknown_feature_diag c.policy (required_features c.building) c.graph c.files.policy key.now) }
{
    let labels = lone_label(alloc, writer.ctx.cfg.file_id, key.entry, "unknown feature")?;
    feature_message(
        alloc,
        writer.ctx.krates,
        Severity::Warning,
        "found unknown feature '",
        named_at(writer, key.entry),
        key,
        "'",
        labels,
    )
}

/// The message about a crate whose feature `default` is enabled.
#[tactic(auto, unfolding(deny_spec_report::specs::Features::default_enabled_diag))]
pub fn default_enabled_diag(
    alloc: Global,
    writer: &DiagWriter<'_>,
    key: &Key,
) -> Result<Message, NoMemory>
    ensures { IfOk result (λ diag. let c = circumstances_from writer.now in
        diag ≡ default_enabled_diag c.policy c.graph c.files.policy key.now) }
{
    let labels = lone_label(alloc, writer.ctx.cfg.file_id, key.entry, "lint level")?;
    let diag = sentence_message(
        alloc,
        writer.ctx.krates,
        default_severity(writer, key),
        "'default' feature enabled for crate '",
        key,
        "'",
        labels,
    )?;
    with_feature(alloc, writer.ctx.krates, key.place, "default", diag)
}

// The severity of the level of the feature `default` of the crate of a key.
#[tactic(auto, unfolding(deny_spec_report::specs::Features::default_severity))]
fn default_severity(writer: &DiagWriter<'_>, key: &Key) -> Severity
    ensures { let c = circumstances_from writer.now in result ≡ default_severity c.policy c.graph key.now }
{
    let Some(_krate) = krate_at(writer.ctx.krates, key.place) else {
        return Severity::Warning;
    };
    match default_level_at(writer.ctx.cfg, writer.ctx.krates, key.place) {
        Some(at) => at.value.severity(),
        None => Severity::Warning,
    }
}

// The feature with this span, of those that entries allow or deny.
#[tactic(auto, unfolding(deny_spec_report::specs::Features::feature_at))]
fn feature_at<'t>(writer: &'t DiagWriter<'_>, span: Span) -> &'t str
    requires { IsTrue (is_some (find (λ w. same_span w.span span) (listed_features writer.now.ctx.cfg.now))) }
    ensures { result.now ≡ feature_at (circumstances_from writer.now).policy span }
{
    writer.named_feature(span).value.as_str()
}

// The feature with this span, of those that entries allow or deny and those that bypasses require.
#[tactic(auto, unfolding(deny_spec_report::specs::Features::named_at))]
fn named_at<'t>(writer: &'t DiagWriter<'_>, span: Span) -> &'t str
    requires { IsTrue (is_some (find (λ w. same_span w.span span) (named_features writer.now.ctx.cfg.now))) }
    ensures { let c = circumstances_from writer.now in
        result.now ≡ named_at (required_features c.building) c.policy span }
{
    writer.named_feature(span).value.as_str()
}

// A message about a feature of a key's crate, whose text is a sentence about both.
fn feature_message(
    alloc: Global,
    krates: &Krates,
    severity: Severity,
    before: &str,
    feature: &str,
    key: &Key,
    after: &str,
    labels: List<Label>,
) -> Result<Message, NoMemory>
    ensures { IfOk result (λ diag. diag ≡ plainly severity
        (of_feature before.now feature.now (codes "' for crate '") krates.now key.now after.now) labels
        (kid_at krates.now key.now.place)) }
{
    let between = "' for crate '";
    let message = of_feature(alloc, krates, before, feature, between, key, after)?;
    crate_message(alloc, krates, key, severity, message, labels)
}

// A sentence about a feature of the crate of a key.
fn of_feature(
    alloc: Global,
    krates: &Krates,
    before: &str,
    feature: &str,
    between: &str,
    key: &Key,
    after: &str,
) -> Result<Text, NoMemory>
    ensures { IfOk result (λ text. text ≡ of_feature before.now feature.now between.now krates.now
        key.now after.now) }
{
    let krate = krate_text(alloc, krates, key.place)?;
    Ok(Text::from_string(format!(in alloc; "{before}{feature}{between}{krate}{after}")?))
}

// The message with a feature of the crate at a place as its node, shown with all features that lead to it.
fn with_feature(
    alloc: Global,
    krates: &Krates,
    place: u32,
    feature: &str,
    diag: Message,
) -> Result<Message, NoMemory>
    ensures { IfOk result
        (λ shown. shown ≡ with_features diag (feature_nodes_at krates.now place (feature.now ∷ []))) }
{
    let nodes = feature_node_at(alloc, krates, place, feature)?;
    Ok(with_features(diag, nodes))
}

// The message with these nodes, each shown with all features that lead to it.
fn with_features(diag: Message, nodes: List<GraphNode>) -> Message
    ensures { result ≡ with_features diag nodes }
{
    let mut diag = diag;
    diag.nodes = nodes;
    diag.with_features = true;
    diag
}
