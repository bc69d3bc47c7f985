//! The core at the start of a trace.

ghost use Rattle.std.specs.Prelude.{◌≡◌, All, IfOk, length};
ghost use Rattle.cpu_bases.specs.CpuBases.{empty_bases};
ghost use Rattle.trace_text.specs.Texts.{IsTrace};
ghost use Rattle.trace_check.specs.Answers.{start_for};

use cpu_bases::Bases;
use std::alloc::Global;
use step_core::{Core, new_core};
use tm_base::NoMemory;
use trace_text::Trace;
use tree_plan::plan;
use wheel_core::ListBase;

/// The bases of a CPU on which nothing is queued.
fn no_timers(alloc: Global) -> Bases<ListBase>
    ensures { result.plain ≡ empty_bases }
{
    Bases::with(
        alloc,
        ListBase::new(alloc),
        ListBase::new(alloc),
        ListBase::new(alloc),
    )
}

/// The bases of so many CPUs, on which nothing is queued.
fn new_bases(alloc: Global, count: u16) -> Result<Vec<Bases<ListBase>>, NoMemory>
    ensures count { IfOk result (λ bases. length bases.items ≡ count) }
    ensures empty { IfOk result (λ bases. All (λ b. b.plain ≡ empty_bases) bases.items) }
{
    let mut bases = Vec::new(alloc);
    for _cpu in 0..count {
        bases.push(no_timers(alloc))?;
    }
    Ok(bases)
}

/// The core of a trace's machine at jiffy 0: every CPU is online and active, and nothing is queued.
pub(crate) fn start_core(alloc: Global, trace: &Trace) -> Result<Core<ListBase>, NoMemory>
    requires { IsTrace trace.now }
    ensures { IfOk result (λ core. core ≡ start_for trace.now) }
{
    let tree = plan(alloc, trace.nodes, trace.cpus, &trace.isolated)?;
    let bases = new_bases(alloc, tree.cpu_count())?;
    let core = new_core(alloc, tree, bases, trace.timers)?;
    Ok(core)
}
