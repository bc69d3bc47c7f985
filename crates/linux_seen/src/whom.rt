//! Of whom a line speaks, or what is wrong after it.

ghost use Rattle.std.specs.Prelude.{◌≡◌, find, not};
ghost use Rattle.linux_seen.specs.Rests.{cpu_edge, group_edge};
ghost use Rattle.linux_seen.specs.Whom.{cpu_whom, edge_whom, event_whom};

use crate::rests::{cpu_edge, group_edge};
use crate::seen::{CpuSeen, GroupSeen, Seen};
use linux_lines::Happening;
use tm_base::CpuId;

/// The CPU and the group of which something is said.
#[derive(Clone, Copy)]
pub struct Whom {
    pub cpu: Option<CpuId>,
    /// The group, by its pointer.
    pub group: Option<u64>,
}

/// Of whom an event speaks that this CPU wrote.
#[tactic(auto, unfolding(crate::specs::Whom::event_whom))]
pub fn event_whom(cpu: CpuId, happening: &Happening) -> Whom
    ensures { result ≡ event_whom cpu happening.now }
{
    match happening {
        Happening::GroupMade(place) => Whom {
            cpu: Some(cpu),
            group: Some(place.group),
        },
        Happening::GroupJoined(child, _) => Whom {
            cpu: Some(cpu),
            group: Some(*child),
        },
        Happening::CpuJoined(joined, joining) => Whom {
            cpu: Some(*joined),
            group: Some(joining.parent.group),
        },
        Happening::Exchanged(exchange) => Whom {
            cpu: Some(cpu),
            group: Some(exchange.place.group),
        },
        Happening::CpuTold(event) => Whom {
            cpu: Some(event.cpu),
            group: Some(event.leaf),
        },
        Happening::Updated(update) => Whom {
            cpu: Some(cpu),
            group: Some(update.group),
        },
        Happening::Handling(group) => Whom {
            cpu: Some(cpu),
            group: Some(*group),
        },
    }
}

/// A CPU that was seen, with its leaf.
pub fn cpu_whom(cpu: Option<CpuSeen>) -> Whom
    ensures { result ≡ cpu_whom cpu }
{
    match cpu {
        Some(found) => Whom {
            cpu: Some(found.cpu),
            group: found.leaf,
        },
        None => Whom {
            cpu: None,
            group: None,
        },
    }
}

/// The first group whose bit above doesn't say what the group is.
fn wrong_group(seen: &Seen) -> Option<GroupSeen>
    ensures { result ≡ find (λ g. not (group_edge seen.now g)) seen.now.groups }
{
    seen.groups().iter().copied().find(|g| !group_edge(seen, g))
}

/// The first CPU whose bit in its leaf doesn't say what the CPU is.
fn wrong_cpu(seen: &Seen) -> Option<CpuSeen>
    ensures { result ≡ find (λ c. not (cpu_edge seen.now c)) seen.now.cpus }
{
    seen.cpus().iter().copied().find(|c| !cpu_edge(seen, c))
}

/// The group whose bit above, or the CPU whose bit in its leaf, doesn't say what it is.
pub fn edge_whom(seen: &Seen) -> Whom
    ensures { result ≡ edge_whom seen.now }
{
    match wrong_group(seen) {
        Some(group) => Whom {
            cpu: None,
            group: Some(group.pointer),
        },
        None => cpu_whom(wrong_cpu(seen)),
    }
}
