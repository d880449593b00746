//! The generated metadata.
ghost use Rattle.std.specs.Prelude.{◌≡◌, ◌++◌, IfOk, OnOk, flat_map};
ghost use Rattle.deny_cli_generator.specs.MetadataText.{declaration_text, dep_text, metadata_text};
ghost use Rattle.deny_cli_generator.specs.MetadataText.{naming_text, node_text, nodes_text};
ghost use Rattle.deny_cli_generator.specs.MetadataText.{member_text, package_text, packages_text};
ghost use Rattle.deny_cli_generator.specs.MetadataText.{path_text, placing_text, workspace_text};

use crate::made::{below, divided, push_id_at, push_name_at, registry, version_at};
use deny_base_lists::{NoMemory, Text};
use std::alloc::Global;

#[tactic(auto, unfolding(crate::specs::MetadataText::declaration_text))]
fn push_declaration(alloc: Global, text: &mut Text, number: u32) -> Result<(), NoMemory>
    ensures { OnOk result (text.new ≡ text.old ++ declaration_text number) }
{
    text.push_str(divided(number, ","))?;
    text.push_str("{\"name\":\"")?;
    push_name_at(alloc, text, number)?;
    text.push_str("\",\"req\":\"")?;
    text.push_str(version_at(number))?;
    text.push_str("\"}")
}

#[tactic(auto, unfolding(crate::specs::MetadataText::naming_text))]
fn push_naming(alloc: Global, text: &mut Text, number: u32) -> Result<(), NoMemory>
    ensures { OnOk result (text.new ≡ text.old ++ naming_text number) }
{
    text.push_str(",{\"name\":\"")?;
    push_name_at(alloc, text, number)?;
    text.push_str("\",\"version\":\"")?;
    text.push_str(version_at(number))?;
    text.push_str("\",\"id\":\"")?;
    push_id_at(alloc, text, number)
}

#[tactic(auto, unfolding(crate::specs::MetadataText::member_text))]
fn member_text() -> &'static str
    ensures { result.now ≡ member_text }
{
    "{\"name\":\"app\",\"version\":\"0.1.0\",\"id\":\"app\",\"manifest_path\":\"/w/Cargo.toml\""
}

#[tactic(auto, unfolding(crate::specs::MetadataText::workspace_text))]
fn workspace_text() -> &'static str
    ensures { result.now ≡ workspace_text }
{
    "],\"workspace_members\":[\"app\"],\"workspace_root\":\"/w\",\"resolve\":{\"nodes\":["
}

fn push_path(alloc: Global, text: &mut Text, number: u32) -> Result<(), NoMemory>
    ensures { OnOk result (text.new ≡ text.old ++ path_text number) }
{
    text.push_str("/r/")?;
    push_name_at(alloc, text, number)?;
    text.push_str("-")?;
    text.push_str(version_at(number))?;
    text.push_str("/Cargo.toml")
}

fn push_placing(alloc: Global, text: &mut Text, number: u32) -> Result<(), NoMemory>
    ensures { OnOk result (text.new ≡ text.old ++ placing_text number) }
{
    text.push_str("\",\"source\":\"")?;
    text.push_str(registry())?;
    text.push_str("\",\"manifest_path\":\"")?;
    push_path(alloc, text, number)?;
    text.push_str("\"}")
}

#[tactic(auto, unfolding(crate::specs::MetadataText::package_text))]
fn push_package(alloc: Global, text: &mut Text, number: u32) -> Result<(), NoMemory>
    ensures { OnOk result (text.new ≡ text.old ++ package_text number) }
{
    push_naming(alloc, text, number)?;
    push_placing(alloc, text, number)
}

#[tactic(auto, unfolding(crate::specs::MetadataText::dep_text))]
fn push_dep(alloc: Global, text: &mut Text, number: u32) -> Result<(), NoMemory>
    ensures { OnOk result (text.new ≡ text.old ++ dep_text number) }
{
    text.push_str(divided(number, ","))?;
    text.push_str("{\"pkg\":\"")?;
    push_id_at(alloc, text, number)?;
    text.push_str("\"}")
}

#[tactic(auto, unfolding(crate::specs::MetadataText::node_text))]
fn push_node(alloc: Global, text: &mut Text, number: u32) -> Result<(), NoMemory>
    ensures { OnOk result (text.new ≡ text.old ++ node_text number) }
{
    text.push_str(",{\"id\":\"")?;
    push_id_at(alloc, text, number)?;
    text.push_str("\"}")
}

fn push_declarations(alloc: Global, text: &mut Text, numbers: &[u32]) -> Result<(), NoMemory>
    ensures { OnOk result (text.new ≡ text.old ++ flat_map declaration_text numbers.now) }
{
    for number in numbers {
        push_declaration(alloc, text, *number)?;
    }
    Ok(())
}

fn push_packages(alloc: Global, text: &mut Text, numbers: &[u32]) -> Result<(), NoMemory>
    ensures { OnOk result (text.new ≡ text.old ++ flat_map package_text numbers.now) }
{
    for number in numbers {
        push_package(alloc, text, *number)?;
    }
    Ok(())
}

fn push_deps(alloc: Global, text: &mut Text, numbers: &[u32]) -> Result<(), NoMemory>
    ensures { OnOk result (text.new ≡ text.old ++ flat_map dep_text numbers.now) }
{
    for number in numbers {
        push_dep(alloc, text, *number)?;
    }
    Ok(())
}

fn push_nodes(alloc: Global, text: &mut Text, numbers: &[u32]) -> Result<(), NoMemory>
    ensures { OnOk result (text.new ≡ text.old ++ flat_map node_text numbers.now) }
{
    for number in numbers {
        push_node(alloc, text, *number)?;
    }
    Ok(())
}

fn push_all_packages(alloc: Global, text: &mut Text, numbers: &[u32]) -> Result<(), NoMemory>
    ensures { OnOk result (text.new ≡ text.old ++ packages_text numbers.now) }
{
    text.push_str(member_text())?;
    text.push_str(",\"dependencies\":[")?;
    push_declarations(alloc, text, numbers)?;
    text.push_str("]}")?;
    push_packages(alloc, text, numbers)
}

#[tactic(auto, unfolding(crate::specs::MetadataText::nodes_text))]
fn push_all_nodes(alloc: Global, text: &mut Text, numbers: &[u32]) -> Result<(), NoMemory>
    ensures { OnOk result (text.new ≡ text.old ++ nodes_text numbers.now) }
{
    text.push_str("{\"id\":\"app\",\"deps\":[")?;
    push_deps(alloc, text, numbers)?;
    text.push_str("]}")?;
    push_nodes(alloc, text, numbers)
}

/// The metadata of a number of crates, on each of which the one member depends.
#[tactic(auto, unfolding(crate::specs::MetadataText::metadata_text))]
pub fn metadata_of(alloc: Global, crates: u32) -> Result<Text, NoMemory>
    ensures { IfOk result (λ text. text ≡ metadata_text crates) }
{
    let numbers = below(alloc, crates)?;
    let mut text = Text::new(alloc);
    text.push_str("{\"packages\":[")?;
    push_all_packages(alloc, &mut text, numbers.as_slice())?;
    text.push_str(workspace_text())?;
    push_all_nodes(alloc, &mut text, numbers.as_slice())?;
    text.push_str("]}}")?;
    Ok(text)
}
