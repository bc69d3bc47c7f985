//! Writing the text of a tree.

ghost use Rattle.std.specs.Prelude.{◌≡◌, ◌<◌, ◌++◌, IfOk, OnOk};
ghost use Rattle.std.specs.Fmt.{decimal};
ghost use Rattle.std.specs.List.{flat_map};
ghost use Rattle.text_words.specs.Words.{ended};
ghost use Rattle.tm_base.specs.Children.{of_group};
ghost use Rattle.tree_plan.specs.Paths.{group_count_of, parent_of};
ghost use Rattle.program_texts.specs.TreeText.Trees.{group_line, group_lines, tree_group_name};
ghost use Rattle.program_texts.specs.TreeText.Trees.{measures_line, standing, tree_text};

use std::alloc::Global;
use text_words::{push_bytes, push_number};
use tm_base::{GroupId, NoMemory};
use tree_plan::{Tree, law_edges};

/// A number behind these bytes.
#[tactic(auto, using(std::proofs::lemmas::List::append_assoc))]
fn push_count(text: &mut Vec<u8>, before: &[u8], n: u64) -> Result<(), NoMemory>
    ensures { OnOk result (text.new.items ≡ text.old.items ++ (before.now ++ decimal n)) }
{
    push_bytes(text, before)?;
    push_number(text, n)?;
    Ok(())
}

/// The line of the measures.
#[tactic(auto, using(std::proofs::lemmas::List::append_assoc))]
fn push_measures(text: &mut Vec<u8>, tree: &Tree) -> Result<(), NoMemory>
    ensures { OnOk result (text.new.items ≡ text.old.items ++ ended (measures_line tree.now)) }
{
    push_count(text, b"levels ", u64::from(tree.levels()))?;
    push_count(text, b" groups ", u64::from(tree.group_count()))?;
    push_bytes(text, b"\n")?;
    Ok(())
}

/// A group, by its level and its place there.
#[tactic(auto, using(std::proofs::lemmas::List::append_assoc))]
fn push_group(text: &mut Vec<u8>, tree: &Tree, g: GroupId) -> Result<(), NoMemory>
    requires { g.0 < group_count_of tree.now }
    ensures { OnOk result (text.new.items ≡ text.old.items ++ tree_group_name tree.now g.0) }
{
    push_number(text, u64::from(tree.level(g)))?;
    push_count(text, b":", u64::from(tree.place(g)))?;
    Ok(())
}

/// Where a group stands below this parent.
#[tactic(auto, using(std::proofs::lemmas::List::append_assoc))]
fn push_parent(text: &mut Vec<u8>, tree: &Tree, g: GroupId, p: GroupId) -> Result<(), NoMemory>
    requires group { g.0 < group_count_of tree.now }
    requires parent { p.0 < group_count_of tree.now }
    ensures { OnOk result
        (text.new.items ≡ text.old.items ++ standing tree.now g.0 (Some p.0)) }
{
    push_bytes(text, b" parent ")?;
    push_group(text, tree, p)?;
    push_count(text, b" bit ", u64::from(tree.bit(g)))
}

/// Where a group stands.
fn push_standing(text: &mut Vec<u8>, tree: &Tree, g: GroupId) -> Result<(), NoMemory>
    requires { g.0 < group_count_of tree.now }
    ensures { OnOk result (text.new.items ≡
        text.old.items ++ standing tree.now g.0 (parent_of tree.now (of_group g.0))) }
{
    // For the tree's invariant: a parent is a group of the tree.
    let _count = tree.cpu_count();
    law_edges();
    match tree.parent(g) {
        Some(p) => push_parent(text, tree, g, p),
        None => {
            push_bytes(text, b" top")?;
            Ok(())
        }
    }
}

/// The line of a group.
#[tactic(auto, using(std::proofs::lemmas::List::append_assoc))]
fn push_group_line(text: &mut Vec<u8>, tree: &Tree, g: GroupId) -> Result<(), NoMemory>
    requires { g.0 < group_count_of tree.now }
    ensures { OnOk result (text.new.items ≡ text.old.items ++ ended (group_line tree.now g.0)) }
{
    push_bytes(text, b"group ")?;
    push_group(text, tree, g)?;
    push_standing(text, tree, g)?;
    push_count(text, b" children ", u64::from(tree.children(g)))?;
    push_bytes(text, b"\n")?;
    Ok(())
}

/// The lines of all groups.
fn push_groups(text: &mut Vec<u8>, tree: &Tree) -> Result<(), NoMemory>
    ensures { OnOk result
        (text.new.items ≡ text.old.items ++ flat_map ended (group_lines tree.now)) }
{
    for number in 0..tree.group_count() {
        push_group_line(text, tree, GroupId(number))?;
    }
    Ok(())
}

/// The text of a tree: its measures, and a line for each group. The only error is want of memory.
#[tactic(auto, unfolding(crate::specs::TreeText::Trees::tree_text))]
pub fn print_tree(alloc: Global, tree: &Tree) -> Result<Vec<u8>, NoMemory>
    ensures { IfOk result (λ text. text.items ≡ tree_text tree.now) }
{
    let mut text = Vec::new(alloc);
    push_measures(&mut text, tree)?;
    push_groups(&mut text, tree)?;
    Ok(text)
}
