//! What `stat` writes of two plays.

ghost use Rattle.std.specs.Prelude.{◌≡◌, ◌++◌, IfOk};
ghost use Rattle.tm_script.specs.Grammar.{IsScript};
ghost use Rattle.job_table.specs.Standard.{standard_count, standard_reply};
ghost use Rattle.view_counts.specs.Differences.{comparison_text};
ghost use Rattle.view_stat.specs.Comparing.{IsAloneTold, IsCompared, IsNotCounted, IsPairTold};
ghost use Rattle.view_stat.specs.Comparing.{IsSecondTold, first_name, leave_text, less_title};
ghost use Rattle.view_stat.specs.Comparing.{second_name, titles_of};
ghost use Rattle.view_stat.specs.Stats.{IsMachineFor, IsUncountedOn};

use crate::alone::{alone_machine, first_leave};
use crate::stats::{stat, stat_on};
use crate::telling::{COUNTED, JOB_UNKNOWN, Told, WORK_SPENT, spent, unknown};
use job_table::StandardJobs;
use play_driver::DriveFault;
use std::alloc::Global;
use text_words::{push_bytes, push_number};
use tm_base::NoMemory;
use tm_script::Script;
use view_counts::{CpuCounts, print_comparison};

/// A script can't be played without the hierarchy.
pub const NOT_COMPARED: u8 = 10;

/// Which two plays are compared.
#[derive(Clone, Copy)]
pub enum Versus {
    /// A script's play, and the same without the hierarchy.
    Alone,
    /// The plays of two scripts.
    Scripts,
}

/// What stands above the difference of two scripts.
fn less_title(ones: &[CpuCounts], twos: &[CpuCounts]) -> &'static [u8]
    ensures { result.now ≡ less_title ones.now twos.now }
{
    if ones.len() == twos.len() {
        b"\ndifference: script 2 less script 1\n"
    } else {
        b"\ndifference: script 2 less script 1; a CPU that one of them hasn't counts as nothing\n"
    }
}

/// What was counted in two plays, and by how much the second differs.
fn compared(
    alloc: Global,
    pair: Versus,
    ones: &[CpuCounts],
    twos: &[CpuCounts],
) -> Result<Vec<u8>, NoMemory>
    ensures { IfOk result (λ text. text.items ≡
        comparison_text (titles_of pair ones.now twos.now) ones.now twos.now) }
{
    match pair {
        Versus::Alone => print_comparison(
            alloc,
            b"with the hierarchy\n",
            b"\nwithout it: every CPU but CPU 0 is isolated\n",
            b"\ndifference: without it less with it\n",
            ones,
            twos,
        ),
        Versus::Scripts => print_comparison(
            alloc,
            b"script 1\n",
            b"\nscript 2\n",
            less_title(ones, twos),
            ones,
            twos,
        ),
    }
}

/// Of which play it is told that nothing was counted in it.
fn first_name(pair: Versus) -> &'static [u8]
    ensures { result.now ≡ first_name pair }
{
    match pair {
        Versus::Alone => b"",
        Versus::Scripts => b"script 1: ",
    }
}

/// .. and of the other.
fn second_name(pair: Versus) -> &'static [u8]
    ensures { result.now ≡ second_name pair }
{
    match pair {
        Versus::Alone => b"without the hierarchy: ",
        Versus::Scripts => b"script 2: ",
    }
}

/// A piece of a text behind a name.
fn behind(alloc: Global, name: &[u8], piece: &[u8]) -> Result<Vec<u8>, NoMemory>
    ensures { IfOk result (λ text. text.items ≡ name.now ++ piece.now) }
{
    let mut text = Vec::new(alloc);
    push_bytes(&mut text, name)?;
    push_bytes(&mut text, piece)?;
    Ok(text)
}

/// Why nothing was counted in a play.
fn tell_fault(
    alloc: Global,
    name: &[u8],
    machine: &Script,
    script: &Script,
    fault: DriveFault,
) -> Result<Told, NoMemory>
    requires { IsUncountedOn standard_reply standard_count machine.now script.now fault }
    ensures { IfOk result (λ told.
        IsNotCounted name.now machine.now script.now told.text.items told.status) }
{
    match fault {
        DriveFault::BadJob { line, job } => Ok(Told {
            text: behind(alloc, name, &unknown(alloc, line, job)?)?,
            status: JOB_UNKNOWN,
        }),
        DriveFault::WorkSpent { count } => Ok(Told {
            text: behind(alloc, name, &spent(alloc, count)?)?,
            status: WORK_SPENT,
        }),
        DriveFault::NoMemory => Err(NoMemory),
    }
}

/// What was counted in a first play, beside a second one, of a script on a machine.
fn tell_second(
    alloc: Global,
    pair: Versus,
    ones: &[CpuCounts],
    machine: &Script,
    script: &Script,
) -> Result<Told, NoMemory>
    requires script { IsScript script.now }
    requires machine { IsMachineFor script.now machine.now }
    ensures { IfOk result (λ told.
        IsSecondTold pair ones.now machine.now script.now told.text.items told.status) }
{
    match stat_on(alloc, machine, script, &StandardJobs) {
        Ok(stats) => Ok(Told {
            text: compared(alloc, pair, ones, &stats.cpus)?,
            status: COUNTED,
        }),
        Err(fault) => tell_fault(alloc, second_name(pair), machine, script, fault),
    }
}

/// The play of a script on its own machine, beside a second one of a script on a machine.
fn tell_two(
    alloc: Global,
    pair: Versus,
    first: &Script,
    machine: &Script,
    script: &Script,
) -> Result<Told, NoMemory>
    requires first { IsScript first.now }
    requires script { IsScript script.now }
    requires machine { IsMachineFor script.now machine.now }
    ensures { IfOk result (λ told.
        IsCompared pair first.now machine.now script.now told.text.items told.status) }
{
    match stat(alloc, first, &StandardJobs) {
        Ok(stats) => tell_second(alloc, pair, &stats.cpus, machine, script),
        Err(fault) => tell_fault(alloc, first_name(pair), first, first, fault),
    }
}

/// Counts what happens in the plays of two scripts, with the program's jobs, and writes both and by
/// how much the second differs from the first; or of which nothing was counted, and why.
pub fn tell_pair(alloc: Global, one: &Script, two: &Script) -> Result<Told, NoMemory>
    requires one { IsScript one.now }
    requires two { IsScript two.now }
    ensures { IfOk result (λ told. IsPairTold one.now two.now told.text.items told.status) }
{
    tell_two(alloc, Versus::Scripts, one, two, two)
}

/// The line of an operation that can't be done without the hierarchy.
#[tactic(auto, using(crate::proofs::Joined::onto), unfolding(crate::specs::Comparing::leave_text))]
fn leaves(alloc: Global, line: u32) -> Result<Vec<u8>, NoMemory>
    ensures { IfOk result (λ text. text.items ≡ leave_text line) }
{
    let mut text = Vec::new(alloc);
    push_bytes(&mut text, b"alone refused line ")?;
    push_number(&mut text, u64::from(line))?;
    push_bytes(
        &mut text,
        b": CPU 0 goes offline, and no other CPU stands in the hierarchy there\n",
    )?;
    Ok(text)
}

/// Counts what happens in a script's play, with the program's jobs, and in that of the same script
/// on a machine where every CPU but the lowest is isolated, so that each wakes for its own timers;
/// and writes both and the difference. A script that takes the lowest CPU offline is refused with
/// the line that does.
pub fn tell_alone(alloc: Global, script: &Script) -> Result<Told, NoMemory>
    requires { IsScript script.now }
    ensures { IfOk result (λ told. IsAloneTold script.now told.text.items told.status) }
{
    if let Some(line) = first_leave(script.moments.as_slice()) {
        return Ok(Told {
            text: leaves(alloc, line)?,
            status: NOT_COMPARED,
        });
    }
    let machine = alone_machine(alloc, script);
    tell_two(alloc, Versus::Alone, script, &machine, script)
}
