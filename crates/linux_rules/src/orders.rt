//! The order of a group's exchanges between CPUs, by their lines.

ghost use Rattle.std.specs.Prelude.{◌≡◌, ◌<◌, find, length, position, IfOk};
ghost use Rattle.std.specs.Prelude.{IfSome, None, OnOk};
ghost use Rattle.std.specs.List.{list_any};
ghost use Rattle.std.specs.Set.{remove_key};
ghost use Rattle.linux_rules.specs.Orders.{CatchesUp, caught_up, comes_first, first_late, is_next};
ghost use Rattle.linux_rules.specs.Orders.{falls_to, is_coming, is_held, is_on};
ghost use Rattle.linux_rules.specs.Orders.{could_change, is_changed, late_on, may_come};
ghost use Rattle.linux_rules.specs.Orders.{may_precede, stuck_by, stuck_rule, taken, taken_on};

use linux_lines::Exchange;
use linux_seen::Rule;
use linux_seen::rests::{has_bit, is_asleep};
use linux_seen::seen::{CpuSeen, Late, Seen, Walk, Word};
use linux_seen::tree::parent_fits;
use linux_seen::walks::{may_join, may_leave};
use linux_seen::words::{follows, word_after};
use tm_base::{CpuId, NoMemory};

/// The most exchanges that are late on a group while their order is looked for.
pub const MOST_LATE: usize = 40;

/// Whether an exchange is on this group.
fn is_on(group: u64, late: &Late) -> bool
    ensures { result ≡ is_on group late.now }
{
    late.exchange.place.group == group
}

/// Whether one exchange may be made before another: its line stands above, or it is another CPU's,
/// whose line before stands above that of the other.
fn may_precede(late: &Late, other: &Late) -> bool
    ensures { result ≡ may_precede late.now other.now }
{
    late.line <= other.line || (late.cpu.0 != other.cpu.0 && late.before < other.line)
}

/// Whether an exchange may be made before each of these that is on the group.
fn comes_first(group: u64, waiting: &[Late], late: &Late) -> bool
    ensures { result ≡ comes_first group waiting.now late.now }
{
    waiting
        .iter()
        .all(|other| !is_on(group, other) || may_precede(late, other))
}

/// Whether a CPU, neither this one nor that of the exchange, is on its way to that group, and may
/// have been there before the exchange.
fn is_coming(own: CpuId, group: u64, late: &Late, cpu: &CpuSeen) -> bool
    ensures { result ≡ is_coming own group late.now cpu.now }
{
    cpu.cpu.0 != own.0
        && cpu.cpu.0 != late.cpu.0
        && cpu.last < late.line
        && falls_to(group, cpu.walk)
}

/// Whether a walk of deactivation comes to this group.
fn falls_to(group: u64, walk: Walk) -> bool
    ensures { result ≡ falls_to group walk }
{
    match walk {
        Walk::Falling(next) => next.group == group,
        _ => false,
    }
}

fn some_coming(own: CpuId, group: u64, late: &Late, cpus: &[CpuSeen]) -> bool
    ensures { result ≡ list_any (is_coming own group late.now) cpus.now }
{
    cpus.iter().any(|cpu| is_coming(own, group, late, cpu))
}

/// Whether a child that comes back has to wait: its bit still stands, and a CPU that is on its way
/// to the group may have taken it out before, with its line to come (`tmigr_inactive_up`).
fn is_held(cpus: &[CpuSeen], own: CpuId, group: u64, word: Word, late: &Late) -> bool
    ensures { result ≡ is_held cpus.now own group word late.now }
{
    late.exchange.joins
        && has_bit(word.active, late.exchange.bit)
        && some_coming(own, group, late, cpus)
}

/// Whether an exchange may be made next on a group of this word, while these are late, at a line of
/// this CPU.
pub fn is_next(
    cpus: &[CpuSeen],
    own: CpuId,
    group: u64,
    word: Word,
    waiting: &[Late],
    late: &Late,
) -> bool
    ensures { result ≡ is_next cpus.now own group word waiting.now late.now }
{
    is_on(group, late)
        && follows(word, &late.exchange)
        && comes_first(group, waiting, late)
        && !is_held(cpus, own, group, word, late)
}

/// The place of the late exchange that may be made next on a group of this word.
fn place_of_next(
    cpus: &[CpuSeen],
    own: CpuId,
    group: u64,
    word: Word,
    waiting: &[Late],
) -> Option<usize>
    ensures value { result ≡ position (is_next cpus.now own group word waiting.now) waiting.now }
    ensures within { IfSome result (λ at. at < length waiting.now) }
{
    waiting
        .iter()
        .position(|late| is_next(cpus, own, group, word, waiting, late))
}

/// Takes the late exchange that may be made next on a group of this word, if there is one.
fn take_next(seen: &mut Seen, own: CpuId, group: u64, word: Word) -> Option<Late>
    ensures value { result
        ≡ find (is_next seen.old.cpus own group word seen.old.late) seen.old.late }
    ensures left { IfSome result (λ a. seen.new ≡ record seen.old {
      late = remove_key (is_next seen.old.cpus own group word seen.old.late) seen.old.late;
    }) }
    ensures none { result ≡ None → seen.new ≡ seen.old }
{
    let at = place_of_next(seen.cpus(), own, group, word, seen.late())?;
    Some(seen.take_late(at))
}

/// Takes the late exchanges on a group that may be made now, one after another, at most so many;
/// the group's word is then what it answers.
fn catch_up(seen: &mut Seen, own: CpuId, rounds: usize, group: u64, word: Word) -> Word
    ensures word { result
        ≡ (caught_up seen.old.cpus own rounds group word seen.old.late).word }
    ensures late { seen.new ≡ record seen.old {
      late = (caught_up seen.old.cpus own rounds group word seen.old.late).late;
    } }
{
    if rounds == 0 {
        return word;
    }
    match take_next(seen, own, group, word) {
        Some(late) => catch_up(seen, own, rounds - 1, group, word_after(&late.exchange)),
        None => word,
    }
}

/// The bound on rounds is enough: behind as many as there are late exchanges, none may be made
/// next.
pub fn law_caught_up()
    ensures { CatchesUp }
{}

/// Takes an exchange on a known word with late ones behind it, or sets it aside behind those that may
/// be made now; the group's word is then what it answers.
fn take_on(
    seen: &mut Seen,
    word: Word,
    own: CpuId,
    group: u64,
    late: Late,
) -> Result<Word, NoMemory>
    ensures word { IfOk result
        (λ w. w ≡ (taken_on word seen.old.cpus own group seen.old.late late).word) }
    ensures late { OnOk result (seen.new ≡ record seen.old {
      late = (taken_on word seen.old.cpus own group seen.old.late late).late;
    }) }
{
    if is_next(seen.cpus(), own, group, word, seen.late(), &late) {
        let rounds = seen.late().len();
        let next = word_after(&late.exchange);
        return Ok(catch_up(seen, own, rounds, group, next));
    }
    seen.set_aside(late)?;
    let rounds = seen.late().len();
    Ok(catch_up(seen, own, rounds, group, word))
}

/// Takes an exchange with late ones behind it, or sets it aside; the group's word is then what it
/// answers.
pub fn take(
    seen: &mut Seen,
    word: Option<Word>,
    own: CpuId,
    group: u64,
    late: Late,
) -> Result<Word, NoMemory>
    ensures word { IfOk result
        (λ w. w ≡ (taken word seen.old.cpus own group seen.old.late late).word) }
    ensures late { OnOk result (seen.new ≡ record seen.old {
      late = (taken word seen.old.cpus own group seen.old.late late).late;
    }) }
{
    match word {
        Some(known) => take_on(seen, known, own, group, late),
        None => Ok(word_after(&late.exchange)),
    }
}

/// Whether a child's bit is changed from the word before to that of the late exchange, as far as it
/// is known.
fn is_changed(bit: Option<u8>, word: Option<Word>, exchange: &Exchange) -> bool
    ensures { result ≡ is_changed bit word exchange.now }
{
    let Some(number) = bit else {
        return true;
    };
    match word {
        Some(known) => has_bit(known.active, number) != has_bit(exchange.active, number),
        None => true,
    }
}

/// Whether a CPU could have made an exchange before this one by the bits: at a leaf only the
/// group's own CPUs make exchanges, each of its own bit alone.
fn could_change(cpu: &CpuSeen, word: Option<Word>, exchange: &Exchange) -> bool
    ensures { result ≡ could_change cpu.now word exchange.now }
{
    exchange.place.level != 0
        || (parent_fits(cpu.leaf, exchange.place.group) && is_changed(cpu.bit, word, exchange))
}

/// Whether a CPU may have made an exchange before this one, and not written its line yet: it has
/// written none since, and its walk comes to that group.
fn may_come(word: Option<Word>, late: &Late, cpu: &CpuSeen) -> bool
    ensures { result ≡ may_come word late.now cpu.now }
{
    cpu.last < late.line
        && !is_asleep(cpu.active)
        && (may_join(cpu.walk, late.exchange.place.group) || may_leave(cpu, &late.exchange))
        && could_change(cpu, word, &late.exchange)
}

fn some_may_come(word: Option<Word>, late: &Late, cpus: &[CpuSeen]) -> bool
    ensures { result ≡ list_any (may_come word late.now) cpus.now }
{
    cpus.iter().any(|cpu| may_come(word, late, cpu))
}

/// The rule that the first late exchange of a group breaks while so many are late there, on this
/// word before them.
fn stuck_by(count: usize, cpus: &[CpuSeen], word: Option<Word>, late: &Late) -> Option<Rule>
    ensures { result ≡ stuck_by count cpus.now word late.now }
{
    if !some_may_come(word, late, cpus) {
        Some(Rule::Exchange)
    } else if count > MOST_LATE {
        Some(Rule::Order)
    } else {
        None
    }
}

/// The rule that the first late exchange of a group breaks at another exchange there.
pub fn stuck_rule(
    line: u64,
    count: usize,
    cpus: &[CpuSeen],
    word: Option<Word>,
    late: &Late,
) -> Option<Rule>
    ensures { result ≡ stuck_rule line count cpus.now word late.now }
{
    if late.line < line {
        stuck_by(count, cpus, word, late)
    } else {
        None
    }
}

/// The first late exchange on a group.
pub fn first_late(group: u64, waiting: &[Late]) -> Option<Late>
    ensures { result ≡ first_late group waiting.now }
{
    waiting.iter().copied().find(|late| is_on(group, late))
}

/// Whether an exchange on a group is late.
pub fn some_late(seen: &Seen, group: u64) -> bool
    ensures { result ≡ list_any (is_on group) seen.now.late }
{
    seen.late().iter().any(|late| is_on(group, late))
}

/// How many exchanges are late on a group.
pub fn late_on(group: u64, waiting: &[Late]) -> usize
    ensures { result ≡ late_on group waiting.now }
{
    waiting.iter().filter(|late| is_on(group, late)).count()
}
