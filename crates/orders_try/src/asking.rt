//! Questions of timers whose answer is another one than before.

ghost use Rattle.std.specs.Prelude.{◌≡◌, OnOk};
ghost use Rattle.orders_try.specs.Making.{steps_in};

use orders_answer::TimerShown;
use orders_search::Stop;
use trace_text::{TraceLine, TraceLines};

/// Whether a timer of a CPU is told before another one: by CPU, and then by number.
fn is_before(a: TimerShown, b: TimerShown) -> bool {
    a.cpu.0 < b.cpu.0 || (a.cpu.0 == b.cpu.0 && a.timer.0 < b.timer.0)
}

/// The place of the first timer, from one on, that isn't told before another one.
fn place_of(before: &[TimerShown], from: usize, timer: TimerShown) -> usize {
    for place in from..before.len() {
        if !is_before(before[place], timer) {
            return place;
        }
    }
    before.len()
}

/// Whether a list has a timer at a place, with the same answer.
fn has_at(before: &[TimerShown], place: usize, timer: TimerShown) -> bool {
    match before.get(place) {
        Some(other) => *other == timer,
        None => false,
    }
}

/// Asks of a timer.
fn ask(lines: &mut TraceLines, timer: TimerShown) -> Result<(), Stop>
    ensures { OnOk result (steps_in lines.new ≡ steps_in lines.old) }
{
    let why = TraceLine::Why {
        cpu: timer.cpu,
        timer: timer.timer,
    };
    match lines.push(why) {
        Ok(()) => Ok(()),
        Err(_) => Err(Stop::NoMemory),
    }
}

/// Asks of a timer, unless a list has it with the same answer at a place.
fn ask_if_new(
    lines: &mut TraceLines,
    before: &[TimerShown],
    place: usize,
    timer: TimerShown,
) -> Result<(), Stop>
    ensures { OnOk result (steps_in lines.new ≡ steps_in lines.old) }
{
    if has_at(before, place, timer) {
        return Ok(());
    }
    ask(lines, timer)
}

/// Asks of each timer whose answer is another one than before. Both lists go by CPU, and then by
/// number.
pub(crate) fn ask_new(
    lines: &mut TraceLines,
    before: &[TimerShown],
    after: &[TimerShown],
) -> Result<(), Stop>
    ensures { OnOk result (steps_in lines.new ≡ steps_in lines.old) }
{
    let mut place = 0;
    for timer in after {
        place = place_of(before, place, *timer);
        ask_if_new(lines, before, place, *timer)?;
    }
    Ok(())
}
