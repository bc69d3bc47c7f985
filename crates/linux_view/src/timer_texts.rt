//! What tmigview writes of timers.

ghost use Rattle.std.specs.Prelude.{◌≡◌, ◌++◌, OnOk};
ghost use Rattle.linux_view.specs.Texts.{timer_counts_text, timers_text};

use crate::notes::push_count;
use linux_timers::TimerTally;
use text_words::push_bytes;
use tm_base::NoMemory;

/// What was counted of timers.
#[tactic(auto, using(std::proofs::lemmas::List::append_assoc), unfolding(crate::specs::Texts::timer_counts_text))]
fn push_timer_counts(text: &mut Vec<u8>, timers: TimerTally) -> Result<(), NoMemory>
    ensures { OnOk result (text.new.items ≡ text.old.items ++ timer_counts_text timers) }
{
    push_count(text, b"\ntimers: armed ", timers.armed)?;
    push_count(text, b" ran ", timers.ran)?;
    push_count(text, b" remote ", timers.remote)?;
    push_count(text, b" open ", timers.unsure)?;
    Ok(())
}

/// What was counted of timers, or that the trace has none of their lines.
#[tactic(auto, using(std::proofs::lemmas::List::append_assoc), unfolding(crate::specs::Texts::timers_text))]
pub fn push_timers(text: &mut Vec<u8>, timers: TimerTally) -> Result<(), NoMemory>
    ensures { OnOk result (text.new.items ≡ text.old.items ++ timers_text timers) }
{
    if timers.armed == 0 && timers.ran == 0 {
        push_bytes(text, b"\nnot checked: timers\n")?;
    } else {
        push_timer_counts(text, timers)?;
        push_bytes(text, b"\n")?;
    }
    Ok(())
}
