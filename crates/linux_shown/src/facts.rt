//! What was known, a line for each fact.

ghost use Rattle.std.specs.Prelude.{◌≡◌, ◌++◌, OnOk};
ghost use Rattle.linux_shown.specs.Facts.{above_text, awake_text, below_text, cpu_edge_facts};
ghost use Rattle.linux_shown.specs.Facts.{cpu_head, duty_fact, edge_facts, event_fact};
ghost use Rattle.linux_shown.specs.Facts.{event_facts, found_fact, found_facts, goes_on};
ghost use Rattle.linux_shown.specs.Facts.{going_text};
ghost use Rattle.linux_shown.specs.Facts.{group_edge_facts, group_edge_of, group_event_fact};
ghost use Rattle.linux_shown.specs.Facts.{group_event_facts};
ghost use Rattle.linux_shown.specs.Facts.{late_text, leaf_text, led_text, node_text};
ghost use Rattle.linux_shown.specs.Facts.{number_text};
ghost use Rattle.linux_shown.specs.Facts.{place_fact, place_facts, places_facts};
ghost use Rattle.linux_shown.specs.Facts.{seat_fact, seat_facts, spot_text, state_fact};
ghost use Rattle.linux_shown.specs.Facts.{state_facts, told_fact, told_facts, walk_fact};
ghost use Rattle.linux_shown.specs.Facts.{walk_text, word_fact, word_facts, word_text};

use crate::pieces::{push_children, push_count, push_known, push_pointer};
use linux_seen::Whom;
use linux_seen::seen::{CpuSeen, GroupSeen, Next, Seen, Spot, Walk, Word};
use linux_seen::words::named_by;
use text_words::push_bytes;
use tm_base::{CpuId, NoMemory};

/// Who leads these children.
#[tactic(auto, using(std::proofs::lemmas::List::append_assoc), unfolding(crate::specs::Facts::led_text))]
pub fn push_led(text: &mut Vec<u8>, migrator: Option<u8>, active: u8) -> Result<(), NoMemory>
    ensures { OnOk result (text.new.items ≡ text.old.items ++ led_text migrator active) }
{
    match migrator {
        Some(child) => {
            push_bytes(text, b"active, with children")?;
            push_children(text, 8, active)?;
            push_count(text, b" and migrator ", u64::from(child))?;
        }
        None => push_bytes(text, b"asleep")?,
    }
    Ok(())
}

/// A group's state.
#[tactic(auto, unfolding(crate::specs::Facts::word_text))]
pub fn push_word(text: &mut Vec<u8>, word: Option<Word>) -> Result<(), NoMemory>
    ensures { OnOk result (text.new.items ≡ text.old.items ++ word_text word) }
{
    match word {
        Some(known) => push_led(text, named_by(known.migrator), known.active)?,
        None => push_bytes(text, b"its state isn't known")?,
    }
    Ok(())
}

/// That exchanges on the group are late.
fn late_text(is_late: bool) -> &'static [u8]
    ensures { result.now ≡ late_text is_late }
{
    if is_late {
        b", before exchanges that are late\n"
    } else {
        b"\n"
    }
}

/// A group with its state.
#[tactic(auto, using(std::proofs::lemmas::List::append_assoc), unfolding(crate::specs::Facts::word_fact))]
pub fn push_word_fact(text: &mut Vec<u8>, group: &GroupSeen) -> Result<(), NoMemory>
    ensures { OnOk result (text.new.items ≡ text.old.items ++ word_fact group.now) }
{
    push_pointer(text, b"  known: group ", group.pointer)?;
    push_bytes(text, b": ")?;
    push_word(text, group.word)?;
    push_bytes(text, late_text(group.late))?;
    Ok(())
}

/// The node of a level.
#[tactic(auto, unfolding(crate::specs::Facts::node_text))]
fn push_node(text: &mut Vec<u8>, node: Option<u64>) -> Result<(), NoMemory>
    ensures { OnOk result (text.new.items ≡ text.old.items ++ node_text node) }
{
    match node {
        Some(number) => push_count(text, b" of node ", number)?,
        None => push_bytes(text, b" across nodes")?,
    }
    Ok(())
}

/// Where a group stands.
#[tactic(auto, using(std::proofs::lemmas::List::append_assoc), unfolding(crate::specs::Facts::spot_text))]
fn push_spot(text: &mut Vec<u8>, spot: Option<Spot>) -> Result<(), NoMemory>
    ensures { OnOk result (text.new.items ≡ text.old.items ++ spot_text spot) }
{
    match spot {
        Some(known) => {
            push_count(text, b", level ", u64::from(known.level))?;
            push_node(text, known.node)?;
        }
        None => push_bytes(text, b", its level isn't known")?,
    }
    Ok(())
}

/// A child's number, at the end of a line.
#[tactic(auto, using(std::proofs::lemmas::List::append_assoc), unfolding(crate::specs::Facts::number_text))]
fn push_number_of(text: &mut Vec<u8>, number: Option<u8>) -> Result<(), NoMemory>
    ensures { OnOk result (text.new.items ≡ text.old.items ++ number_text number) }
{
    match number {
        Some(child) => {
            push_count(text, b" as child ", u64::from(child))?;
            push_bytes(text, b"\n")?;
        }
        None => push_bytes(text, b"\n")?,
    }
    Ok(())
}

/// What a group hangs below.
#[tactic(auto, using(std::proofs::lemmas::List::append_assoc), unfolding(crate::specs::Facts::below_text))]
fn push_below(text: &mut Vec<u8>, parent: u64, bit: Option<u8>) -> Result<(), NoMemory>
    ensures { OnOk result (text.new.items ≡ text.old.items ++ below_text parent bit) }
{
    if parent == 0 {
        push_bytes(text, b", the top\n")?;
    } else {
        push_pointer(text, b", below group ", parent)?;
        push_number_of(text, bit)?;
    }
    Ok(())
}

/// .. as far as it is known.
#[tactic(auto, unfolding(crate::specs::Facts::above_text))]
fn push_above(text: &mut Vec<u8>, parent: Option<u64>, bit: Option<u8>) -> Result<(), NoMemory>
    ensures { OnOk result (text.new.items ≡ text.old.items ++ above_text parent bit) }
{
    match parent {
        Some(pointer) => push_below(text, pointer, bit)?,
        None => push_bytes(text, b", its parent isn't known\n")?,
    }
    Ok(())
}

/// A group with its place.
#[tactic(auto, using(std::proofs::lemmas::List::append_assoc), unfolding(crate::specs::Facts::place_fact))]
pub fn push_place_fact(text: &mut Vec<u8>, group: &GroupSeen) -> Result<(), NoMemory>
    ensures { OnOk result (text.new.items ≡ text.old.items ++ place_fact group.now) }
{
    push_pointer(text, b"  known: group ", group.pointer)?;
    push_spot(text, group.spot)?;
    push_above(text, group.parent, group.bit)?;
    Ok(())
}

/// A CPU at the head of a line.
#[tactic(auto, unfolding(crate::specs::Facts::cpu_head))]
fn push_cpu(text: &mut Vec<u8>, cpu: CpuId) -> Result<(), NoMemory>
    ensures { OnOk result (text.new.items ≡ text.old.items ++ cpu_head cpu) }
{
    push_count(text, b"  known: CPU ", u64::from(cpu.0))
}

/// A CPU's leaf.
#[tactic(auto, using(std::proofs::lemmas::List::append_assoc), unfolding(crate::specs::Facts::leaf_text))]
fn push_leaf(text: &mut Vec<u8>, leaf: Option<u64>, bit: Option<u8>) -> Result<(), NoMemory>
    ensures { OnOk result (text.new.items ≡ text.old.items ++ leaf_text leaf bit) }
{
    match leaf {
        Some(pointer) => {
            push_pointer(text, b", in group ", pointer)?;
            push_number_of(text, bit)?;
        }
        None => push_bytes(text, b", its leaf isn't known\n")?,
    }
    Ok(())
}

/// A CPU with its place.
#[tactic(auto, using(std::proofs::lemmas::List::append_assoc), unfolding(crate::specs::Facts::seat_fact))]
pub fn push_seat_fact(text: &mut Vec<u8>, cpu: &CpuSeen) -> Result<(), NoMemory>
    ensures { OnOk result (text.new.items ≡ text.old.items ++ seat_fact cpu.now) }
{
    push_cpu(text, cpu.cpu)?;
    push_leaf(text, cpu.leaf, cpu.bit)?;
    Ok(())
}

/// How a walk goes on.
fn goes_on(surely: bool) -> &'static [u8]
    ensures { result.now ≡ goes_on surely }
{
    if surely {
        b" goes on at group "
    } else {
        b" may go on at group "
    }
}

/// A walk, and where it goes on.
#[tactic(auto, using(std::proofs::lemmas::List::append_assoc), unfolding(crate::specs::Facts::going_text))]
fn push_going(text: &mut Vec<u8>, what: &[u8], next: Next) -> Result<(), NoMemory>
    ensures { OnOk result (text.new.items ≡ text.old.items ++ going_text what.now next) }
{
    push_bytes(text, what)?;
    push_pointer(text, goes_on(next.surely), next.group)?;
    Ok(())
}

/// A CPU's walk.
#[tactic(auto, unfolding(crate::specs::Facts::walk_text))]
fn push_walk(text: &mut Vec<u8>, walk: Walk) -> Result<(), NoMemory>
    ensures { OnOk result (text.new.items ≡ text.old.items ++ walk_text walk) }
{
    match walk {
        Walk::Unknown => push_bytes(text, b": its walk isn't known")?,
        Walk::Closed => push_bytes(text, b": it is on no walk")?,
        Walk::Rising(next) => push_going(text, b": its walk of activation", next)?,
        Walk::Falling(next) => push_going(text, b": its walk of deactivation", next)?,
        Walk::Ending => push_bytes(
            text,
            b": its walk of deactivation has made its last exchange",
        )?,
        Walk::Hung(next) => push_going(text, b": it hung a group, and its walk", next)?,
    }
    Ok(())
}

/// A CPU with its walk.
#[tactic(auto, using(std::proofs::lemmas::List::append_assoc), unfolding(crate::specs::Facts::walk_fact))]
pub fn push_walk_fact(text: &mut Vec<u8>, cpu: &CpuSeen) -> Result<(), NoMemory>
    ensures { OnOk result (text.new.items ≡ text.old.items ++ walk_fact cpu.now) }
{
    push_cpu(text, cpu.cpu)?;
    push_walk(text, cpu.walk)?;
    push_bytes(text, b"\n")?;
    Ok(())
}

/// Whether a CPU is awake.
#[tactic(auto, unfolding(crate::specs::Facts::awake_text))]
fn awake_text(active: Option<bool>) -> &'static [u8]
    ensures { result.now ≡ awake_text active }
{
    match active {
        Some(true) => b": awake\n",
        Some(false) => b": asleep\n",
        None => b": whether it is awake isn't known\n",
    }
}

/// A CPU awake or asleep.
#[tactic(auto, using(std::proofs::lemmas::List::append_assoc), unfolding(crate::specs::Facts::state_fact))]
pub fn push_state_fact(text: &mut Vec<u8>, cpu: &CpuSeen) -> Result<(), NoMemory>
    ensures { OnOk result (text.new.items ≡ text.old.items ++ state_fact cpu.now) }
{
    push_cpu(text, cpu.cpu)?;
    push_bytes(text, awake_text(cpu.active))?;
    Ok(())
}

/// A CPU's event in its leaf.
#[tactic(auto, using(std::proofs::lemmas::List::append_assoc), unfolding(crate::specs::Facts::event_fact))]
pub fn push_event_fact(text: &mut Vec<u8>, cpu: &CpuSeen) -> Result<(), NoMemory>
    ensures { OnOk result (text.new.items ≡ text.old.items ++ event_fact cpu.now) }
{
    push_cpu(text, cpu.cpu)?;
    push_known(text, b": its event in its leaf: ", cpu.event)?;
    push_bytes(text, b"\n")?;
    Ok(())
}

/// The wakeup that a CPU's walk has found.
#[tactic(auto, using(std::proofs::lemmas::List::append_assoc), unfolding(crate::specs::Facts::found_fact))]
pub fn push_found_fact(text: &mut Vec<u8>, cpu: &CpuSeen) -> Result<(), NoMemory>
    ensures { OnOk result (text.new.items ≡ text.old.items ++ found_fact cpu.now) }
{
    push_cpu(text, cpu.cpu)?;
    push_known(
        text,
        b": first event of a sleeping top on its walk: ",
        cpu.first,
    )?;
    push_bytes(text, b"\n")?;
    Ok(())
}

/// What a CPU has told, and the wakeup that it keeps.
#[tactic(auto, using(std::proofs::lemmas::List::append_assoc), unfolding(crate::specs::Facts::duty_fact))]
fn push_duty_fact(text: &mut Vec<u8>, cpu: &CpuSeen) -> Result<(), NoMemory>
    ensures { OnOk result (text.new.items ≡ text.old.items ++ duty_fact cpu.now) }
{
    push_cpu(text, cpu.cpu)?;
    push_known(text, b": it told ", cpu.timer)?;
    push_known(text, b", its wakeup: ", cpu.wakeup)?;
    push_bytes(text, b"\n")?;
    Ok(())
}

/// A group's event in its parent.
#[tactic(auto, using(std::proofs::lemmas::List::append_assoc), unfolding(crate::specs::Facts::group_event_fact))]
pub fn push_group_event_fact(text: &mut Vec<u8>, group: &GroupSeen) -> Result<(), NoMemory>
    ensures { OnOk result (text.new.items ≡ text.old.items ++ group_event_fact group.now) }
{
    push_pointer(text, b"  known: group ", group.pointer)?;
    push_known(text, b": its event in its parent: ", group.event)?;
    push_bytes(text, b"\n")?;
    Ok(())
}

/// The state of a group that is named.
#[tactic(auto, unfolding(crate::specs::Facts::word_facts))]
pub fn push_word_of(text: &mut Vec<u8>, seen: &Seen, group: Option<u64>) -> Result<(), NoMemory>
    ensures { OnOk result (text.new.items ≡ text.old.items ++ word_facts group seen.now) }
{
    if let Some(pointer) = group {
        push_word_fact(text, &seen.group(pointer))?;
    }
    Ok(())
}

/// The place of a group that is named.
#[tactic(auto, unfolding(crate::specs::Facts::place_facts))]
fn push_place_of(text: &mut Vec<u8>, seen: &Seen, group: Option<u64>) -> Result<(), NoMemory>
    ensures { OnOk result (text.new.items ≡ text.old.items ++ place_facts group seen.now) }
{
    if let Some(pointer) = group {
        push_place_fact(text, &seen.group(pointer))?;
    }
    Ok(())
}

/// The place of a CPU that is named.
#[tactic(auto, unfolding(crate::specs::Facts::seat_facts))]
fn push_seat_of(text: &mut Vec<u8>, seen: &Seen, cpu: Option<CpuId>) -> Result<(), NoMemory>
    ensures { OnOk result (text.new.items ≡ text.old.items ++ seat_facts cpu seen.now) }
{
    if let Some(known) = cpu {
        push_seat_fact(text, &seen.cpu(known))?;
    }
    Ok(())
}

/// The places of those of whom a misfit speaks.
#[tactic(auto, using(std::proofs::lemmas::List::append_assoc), unfolding(crate::specs::Facts::places_facts))]
pub fn push_places(text: &mut Vec<u8>, seen: &Seen, whom: Whom) -> Result<(), NoMemory>
    ensures { OnOk result (text.new.items ≡ text.old.items ++ places_facts whom seen.now) }
{
    push_place_of(text, seen, whom.group)?;
    push_seat_of(text, seen, whom.cpu)?;
    Ok(())
}

/// Whether a CPU that is named is awake.
#[tactic(auto, unfolding(crate::specs::Facts::state_facts))]
pub fn push_state_of(text: &mut Vec<u8>, seen: &Seen, cpu: Option<CpuId>) -> Result<(), NoMemory>
    ensures { OnOk result (text.new.items ≡ text.old.items ++ state_facts cpu seen.now) }
{
    if let Some(known) = cpu {
        push_state_fact(text, &seen.cpu(known))?;
    }
    Ok(())
}

/// The event of a CPU that is named.
#[tactic(auto, unfolding(crate::specs::Facts::event_facts))]
pub fn push_event_of(text: &mut Vec<u8>, seen: &Seen, cpu: Option<CpuId>) -> Result<(), NoMemory>
    ensures { OnOk result (text.new.items ≡ text.old.items ++ event_facts cpu seen.now) }
{
    if let Some(known) = cpu {
        push_event_fact(text, &seen.cpu(known))?;
    }
    Ok(())
}

/// The wakeup that a CPU that is named has found.
#[tactic(auto, unfolding(crate::specs::Facts::found_facts))]
pub fn push_found_of(text: &mut Vec<u8>, seen: &Seen, cpu: Option<CpuId>) -> Result<(), NoMemory>
    ensures { OnOk result (text.new.items ≡ text.old.items ++ found_facts cpu seen.now) }
{
    if let Some(known) = cpu {
        push_found_fact(text, &seen.cpu(known))?;
    }
    Ok(())
}

/// A CPU with its state and place, and the state of its leaf.
#[tactic(auto, using(std::proofs::lemmas::List::append_assoc), unfolding(crate::specs::Facts::cpu_edge_facts))]
fn push_cpu_edge(text: &mut Vec<u8>, seen: &Seen, cpu: &CpuSeen) -> Result<(), NoMemory>
    ensures { OnOk result (text.new.items ≡ text.old.items ++ cpu_edge_facts cpu.now seen.now) }
{
    push_state_fact(text, cpu)?;
    push_seat_fact(text, cpu)?;
    push_word_of(text, seen, cpu.leaf)?;
    Ok(())
}

/// A group with its state and place, and the state of its parent.
#[tactic(auto, using(std::proofs::lemmas::List::append_assoc), unfolding(crate::specs::Facts::group_edge_facts))]
fn push_group_edge(text: &mut Vec<u8>, seen: &Seen, group: &GroupSeen) -> Result<(), NoMemory>
    ensures { OnOk result
        (text.new.items ≡ text.old.items ++ group_edge_facts group.now seen.now) }
{
    push_word_fact(text, group)?;
    push_place_fact(text, group)?;
    push_word_of(text, seen, group.parent)?;
    Ok(())
}

/// .. of a group that is named.
#[tactic(auto, unfolding(crate::specs::Facts::group_edge_of))]
fn push_group_edge_of(text: &mut Vec<u8>, seen: &Seen, group: Option<u64>) -> Result<(), NoMemory>
    ensures { OnOk result (text.new.items ≡ text.old.items ++ group_edge_of group seen.now) }
{
    if let Some(pointer) = group {
        push_group_edge(text, seen, &seen.group(pointer))?;
    }
    Ok(())
}

/// What a wrong bit is about: a CPU and its leaf, or a group and its parent.
#[tactic(auto, unfolding(crate::specs::Facts::edge_facts))]
pub fn push_edge(text: &mut Vec<u8>, seen: &Seen, whom: Whom) -> Result<(), NoMemory>
    ensures { OnOk result
        (text.new.items ≡ text.old.items ++ edge_facts whom.cpu whom.group seen.now) }
{
    match whom.cpu {
        Some(cpu) => push_cpu_edge(text, seen, &seen.cpu(cpu)),
        None => push_group_edge_of(text, seen, whom.group),
    }
}

/// The event of a group that is named.
#[tactic(auto, unfolding(crate::specs::Facts::group_event_facts))]
fn push_group_event_of(text: &mut Vec<u8>, seen: &Seen, group: Option<u64>) -> Result<(), NoMemory>
    ensures { OnOk result (text.new.items ≡ text.old.items ++ group_event_facts group seen.now) }
{
    if let Some(pointer) = group {
        push_group_event_fact(text, &seen.group(pointer))?;
    }
    Ok(())
}

/// What a CPU has told, its event, the state of its leaf, and the leaf's event.
#[tactic(auto, using(std::proofs::lemmas::List::append_assoc), unfolding(crate::specs::Facts::told_fact))]
fn push_told_fact(text: &mut Vec<u8>, seen: &Seen, cpu: &CpuSeen) -> Result<(), NoMemory>
    ensures { OnOk result (text.new.items ≡ text.old.items ++ told_fact cpu.now seen.now) }
{
    push_duty_fact(text, cpu)?;
    push_event_fact(text, cpu)?;
    push_word_of(text, seen, cpu.leaf)?;
    push_group_event_of(text, seen, cpu.leaf)?;
    Ok(())
}

/// What a CPU that is named has told, its event, and the state of its leaf.
#[tactic(auto, unfolding(crate::specs::Facts::told_facts))]
pub fn push_told(text: &mut Vec<u8>, seen: &Seen, cpu: Option<CpuId>) -> Result<(), NoMemory>
    ensures { OnOk result (text.new.items ≡ text.old.items ++ told_facts cpu seen.now) }
{
    if let Some(known) = cpu {
        push_told_fact(text, seen, &seen.cpu(known))?;
    }
    Ok(())
}
