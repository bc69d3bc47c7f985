//! Reading the events of timer migration.

ghost use Rattle.std.specs.Prelude.{◌≡◌};
ghost use Rattle.linux_lines.specs.Parts.{parts_of};
ghost use Rattle.linux_lines.specs.Lines.{joining_in, exchange_in, cpu_event_in, update_in};
ghost use Rattle.linux_lines.specs.Lines.{cpu_kind_of, handling_in, group_joining_in};
ghost use Rattle.linux_lines.specs.Lines.{cpu_joining_in, event_of, expiries_in, happening_of};
ghost use Rattle.linux_lines.specs.Lines.{expiry_told, migrator_of};

use crate::events::{CpuEvent, CpuKind, Exchange, Expiries, Happening, Joining, Update};
use crate::fields::{child_at, expiry_at, mask_at, number_at, place_at, pointer_at};
use crate::{LineFault, NO_EXPIRY};
use tm_base::{CPU_SET_SIZE, CpuId};

/// The events of timer migration, by their names.
#[derive(Clone, Copy)]
pub enum EventName {
    /// `tmigr_group_set`
    GroupSet,
    /// `tmigr_connect_child_parent`
    ConnectGroup,
    /// `tmigr_connect_cpu_parent`
    ConnectCpu,
    /// `tmigr_group_set_cpu_active`
    SetActive,
    /// `tmigr_group_set_cpu_inactive`
    SetInactive,
    /// `tmigr_update_events`
    UpdateEvents,
    /// `tmigr_handle_remote`
    HandleRemote,
    /// An event of a CPU.
    OfCpu(CpuKind),
}

/// A child with its parent.
#[tactic(auto, unfolding(crate::specs::Lines::joining_in))]
fn read_joining(bytes: &[u8]) -> Result<Joining, LineFault>
    ensures { result ≡ joining_in (parts_of bytes.now) }
{
    let bit = child_at(bytes)?;
    let parent = place_at(bytes, b"parent=")?;
    let children = number_at(bytes, b"num_children=", 255)?;
    Ok(Joining {
        bit,
        parent,
        children: children as u8,
    })
}

/// The migrator's bit, 0 where the trace has `ff` for none.
fn migrator_of(mask: u8) -> u8
    ensures { result ≡ migrator_of mask }
{
    if mask == 255 { 0 } else { mask }
}

/// An exchange.
#[tactic(auto, unfolding(crate::specs::Lines::exchange_in))]
fn read_exchange(bytes: &[u8], joins: bool) -> Result<Exchange, LineFault>
    ensures { result ≡ exchange_in joins (parts_of bytes.now) }
{
    let place = place_at(bytes, b"group=")?;
    let active = mask_at(bytes, b"active=", 255)?;
    let migrator = mask_at(bytes, b"migrator=", 255)?;
    let parent = pointer_at(bytes, b"parent=")?;
    let bit = child_at(bytes)?;
    Ok(Exchange {
        place,
        active: active as u8,
        migrator: migrator_of(migrator as u8),
        parent,
        bit,
        joins,
    })
}

/// The first expiry that a CPU tells, or none.
#[tactic(auto, unfolding(crate::specs::Lines::expiry_told))]
fn expiry_told(kind: CpuKind, bytes: &[u8]) -> Result<u64, LineFault>
    ensures { result ≡ expiry_told kind (parts_of bytes.now) }
{
    match kind {
        CpuKind::Asleep | CpuKind::StillAsleep => expiry_at(bytes, b"nextevt="),
        CpuKind::Online
        | CpuKind::Awake
        | CpuKind::Offline
        | CpuKind::NewTimer
        | CpuKind::RunElsewhere => Ok(NO_EXPIRY),
    }
}

/// An event of a CPU.
#[tactic(auto, unfolding(crate::specs::Lines::cpu_event_in))]
fn read_cpu_event(bytes: &[u8], kind: CpuKind) -> Result<CpuEvent, LineFault>
    ensures { result ≡ cpu_event_in kind (parts_of bytes.now) }
{
    let cpu = number_at(bytes, b"cpu=", u64::from(CPU_SET_SIZE) - 1)?;
    let leaf = pointer_at(bytes, b"parent=")?;
    let expiry = expiry_told(kind, bytes)?;
    let wakeup = expiry_at(bytes, b"wakeup=")?;
    Ok(CpuEvent {
        kind,
        cpu: CpuId(cpu as u16),
        leaf,
        expiry,
        wakeup,
    })
}

/// The expiries of an update.
#[tactic(auto, unfolding(crate::specs::Lines::expiries_in))]
fn read_expiries(bytes: &[u8]) -> Result<Expiries, LineFault>
    ensures { result ≡ expiries_in (parts_of bytes.now) }
{
    let stored = expiry_at(bytes, b"nextevt=")?;
    let first = expiry_at(bytes, b"next_expiry=")?;
    let child_first = expiry_at(bytes, b"child_evt_expiry=")?;
    Ok(Expiries {
        stored,
        first,
        child_first,
    })
}

/// An update of a group's queue.
#[tactic(auto, unfolding(crate::specs::Lines::update_in))]
fn read_update(bytes: &[u8]) -> Result<Update, LineFault>
    ensures { result ≡ update_in (parts_of bytes.now) }
{
    let child = pointer_at(bytes, b"child=")?;
    let group = pointer_at(bytes, b"group=")?;
    let level = number_at(bytes, b"group_lvl=", 255)?;
    let child_active = mask_at(bytes, b"child_active=", 255)?;
    let group_active = mask_at(bytes, b"group_active=", 255)?;
    let expiries = read_expiries(bytes)?;
    Ok(Update {
        child,
        group,
        level: level as u8,
        child_active: child_active as u8,
        group_active: group_active as u8,
        expiries,
    })
}

/// Which event of a CPU has this name. From 6.19 on a CPU is available in place of online.
#[tactic(auto, unfolding(crate::specs::Lines::cpu_kind_of))]
fn cpu_kind_of(name: &[u8]) -> Option<CpuKind>
    ensures { result ≡ cpu_kind_of name.now }
{
    if name == b"tmigr_cpu_online:".as_slice() {
        Some(CpuKind::Online)
    } else if name == b"tmigr_cpu_available:".as_slice() {
        Some(CpuKind::Online)
    } else if name == b"tmigr_cpu_active:".as_slice() {
        Some(CpuKind::Awake)
    } else if name == b"tmigr_cpu_idle:".as_slice() {
        Some(CpuKind::Asleep)
    } else if name == b"tmigr_cpu_offline:".as_slice() {
        Some(CpuKind::Offline)
    } else if name == b"tmigr_cpu_unavailable:".as_slice() {
        Some(CpuKind::Offline)
    } else if name == b"tmigr_cpu_new_timer:".as_slice() {
        Some(CpuKind::NewTimer)
    } else if name == b"tmigr_cpu_new_timer_idle:".as_slice() {
        Some(CpuKind::StillAsleep)
    } else if name == b"tmigr_handle_remote_cpu:".as_slice() {
        Some(CpuKind::RunElsewhere)
    } else {
        None
    }
}

/// Which event has this name.
#[tactic(auto, unfolding(crate::specs::Lines::event_of))]
pub fn event_of(name: &[u8]) -> Option<EventName>
    ensures { result ≡ event_of name.now }
{
    if name == b"tmigr_group_set:".as_slice() {
        Some(EventName::GroupSet)
    } else if name == b"tmigr_connect_child_parent:".as_slice() {
        Some(EventName::ConnectGroup)
    } else if name == b"tmigr_connect_cpu_parent:".as_slice() {
        Some(EventName::ConnectCpu)
    } else if name == b"tmigr_group_set_cpu_active:".as_slice() {
        Some(EventName::SetActive)
    } else if name == b"tmigr_group_set_cpu_inactive:".as_slice() {
        Some(EventName::SetInactive)
    } else if name == b"tmigr_update_events:".as_slice() {
        Some(EventName::UpdateEvents)
    } else if name == b"tmigr_handle_remote:".as_slice() {
        Some(EventName::HandleRemote)
    } else {
        match cpu_kind_of(name) {
            Some(kind) => Some(EventName::OfCpu(kind)),
            None => None,
        }
    }
}

/// The group where a CPU looks for timers of others.
#[tactic(auto, unfolding(crate::specs::Lines::handling_in))]
fn read_handling(bytes: &[u8]) -> Result<u64, LineFault>
    ensures { result ≡ handling_in (parts_of bytes.now) }
{
    pointer_at(bytes, b"group=")
}

/// A group that was hung below its parent.
#[tactic(auto, unfolding(crate::specs::Lines::group_joining_in))]
fn read_group_joining(bytes: &[u8]) -> Result<Happening, LineFault>
    ensures { result ≡ group_joining_in (parts_of bytes.now) }
{
    let child = pointer_at(bytes, b"group=")?;
    let joining = read_joining(bytes)?;
    Ok(Happening::GroupJoined(child, joining))
}

/// A CPU that was hung below its leaf.
#[tactic(auto, unfolding(crate::specs::Lines::cpu_joining_in))]
fn read_cpu_joining(bytes: &[u8]) -> Result<Happening, LineFault>
    ensures { result ≡ cpu_joining_in (parts_of bytes.now) }
{
    let cpu = number_at(bytes, b"cpu=", u64::from(CPU_SET_SIZE) - 1)?;
    let joining = read_joining(bytes)?;
    Ok(Happening::CpuJoined(CpuId(cpu as u16), joining))
}

/// What the event of this name says.
#[tactic(auto, unfolding(crate::specs::Lines::happening_of))]
pub fn read_happening(name: EventName, bytes: &[u8]) -> Result<Happening, LineFault>
    ensures { result ≡ happening_of name (parts_of bytes.now) }
{
    match name {
        EventName::GroupSet => Ok(Happening::GroupMade(place_at(bytes, b"group=")?)),
        EventName::ConnectGroup => read_group_joining(bytes),
        EventName::ConnectCpu => read_cpu_joining(bytes),
        EventName::SetActive => Ok(Happening::Exchanged(read_exchange(bytes, true)?)),
        EventName::SetInactive => Ok(Happening::Exchanged(read_exchange(bytes, false)?)),
        EventName::UpdateEvents => Ok(Happening::Updated(read_update(bytes)?)),
        EventName::HandleRemote => Ok(Happening::Handling(read_handling(bytes)?)),
        EventName::OfCpu(kind) => Ok(Happening::CpuTold(read_cpu_event(bytes, kind)?)),
    }
}
