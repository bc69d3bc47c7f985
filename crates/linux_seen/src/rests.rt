//! Rests: what groups and CPUs are while no walk is under way.

ghost use Rattle.std.specs.Prelude.{◌≡◌};
ghost use Rattle.std.specs.List.{list_all};
ghost use Rattle.linux_seen.specs.Rests.{at_rest, bit_says, cpu_edge, group_edge, has_bit};
ghost use Rattle.linux_seen.specs.Rests.{known_word};
ghost use Rattle.linux_seen.specs.Rests.{is_asleep, is_awake, is_led, rest_fits};

use crate::seen::{CpuSeen, GroupSeen, Seen, Word};
use crate::walks::is_open;

/// Whether a CPU is known to be awake.
pub fn is_awake(active: Option<bool>) -> bool
    ensures { result ≡ is_awake active }
{
    match active {
        Some(awake) => awake,
        None => false,
    }
}

/// Whether a CPU is known to sleep.
pub fn is_asleep(active: Option<bool>) -> bool
    ensures { result ≡ is_asleep active }
{
    match active {
        Some(awake) => !awake,
        None => false,
    }
}

/// A group's word, where no exchange of it is late.
pub fn known_word(group: &GroupSeen) -> Option<Word>
    ensures { result ≡ known_word group.now }
{
    if group.late { None } else { group.word }
}

/// Whether a set has this child.
pub fn has_bit(active: u8, bit: u8) -> bool
    ensures { result ≡ has_bit active bit }
{
    bit < 8 && (active >> bit) & 1 == 1
}

/// Whether the child's bit in its parent says whether it is active, where all of that is known.
fn bit_says(active: Option<bool>, bit: Option<u8>, parent: Option<Word>) -> bool
    ensures { result ≡ bit_says active bit parent }
{
    let Some(is_active) = active else {
        return true;
    };
    let Some(number) = bit else {
        return true;
    };
    let Some(word) = parent else {
        return true;
    };
    is_active == has_bit(word.active, number)
}

/// Whether a group is active, where that is known.
fn is_led(word: Option<Word>) -> Option<bool>
    ensures { result ≡ is_led word }
{
    match word {
        Some(word) => Some(word.migrator != 0),
        None => None,
    }
}

/// Whether a group's bit above says what the group is, once an exchange there came from it.
pub fn group_edge(seen: &Seen, group: &GroupSeen) -> bool
    ensures { result ≡ group_edge seen.now group.now }
{
    if !group.told {
        return true;
    }
    let Some(pointer) = group.parent else {
        return true;
    };
    let parent = seen.group(pointer);
    bit_says(is_led(known_word(group)), group.bit, known_word(&parent))
}

/// Whether a CPU's bit in its leaf says what the CPU is, once an exchange there came from it.
pub fn cpu_edge(seen: &Seen, cpu: &CpuSeen) -> bool
    ensures { result ≡ cpu_edge seen.now cpu.now }
{
    if !cpu.told {
        return true;
    }
    let Some(pointer) = cpu.leaf else {
        return true;
    };
    let leaf = seen.group(pointer);
    bit_says(cpu.active, cpu.bit, known_word(&leaf))
}

/// Whether no walk is under way.
pub fn at_rest(seen: &Seen) -> bool
    ensures { result ≡ at_rest seen.now }
{
    seen.cpus().iter().all(|c| !is_open(c.walk))
}

fn groups_say(seen: &Seen) -> bool
    ensures { result ≡ list_all (group_edge seen.now) seen.now.groups }
{
    seen.groups().iter().all(|g| group_edge(seen, g))
}

fn cpus_say(seen: &Seen) -> bool
    ensures { result ≡ list_all (cpu_edge seen.now) seen.now.cpus }
{
    seen.cpus().iter().all(|c| cpu_edge(seen, c))
}

/// Whether bits say what groups and CPUs are, if no walk is under way.
pub fn rest_fits(seen: &Seen) -> bool
    ensures { result ≡ rest_fits seen.now }
{
    !at_rest(seen) || groups_say(seen) && cpus_say(seen)
}
