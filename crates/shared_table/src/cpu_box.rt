//! What a CPU's lock guards.

ghost use Rattle.std.specs.Prelude.{◌≡◌};
ghost use Rattle.shared_rule.specs.core_state.Shown.{shown_cpu};
ghost use Rattle.shared_table.specs.Begun.{IsFree};

use cpu_bases::Bases;
use cpu_word::CpuState;
use shared_rule::{BoxPart, RunName};
use std::marker::Model;
use tm_base::CpuId;
use wheel_core::TimerBase;

/// The part of one CPU as it lies behind its lock: no walk is under way in it, no pass is brought,
/// and in none of its bases is a queued wheel expiry below the base's clock.
#[derive(Drop)]
pub struct CpuBox<N: RunName, B: TimerBase> {
    pub part: BoxPart<N, B>,
}

impl<N: RunName, B: TimerBase> Model for CpuBox<N, B> {
    ghost use Rattle.std.specs.Coded.{codes};
    ghost use Rattle.tree_plan.specs.Codes.{shape_code};
    ghost use Rattle.shared_rule.specs.Parts.{HeldPart};

    ghost Value = { HeldPart };

    ghost coded = { Prim.hlevel (codes, shape_code) };

    ghost use Rattle.shared_table.specs.Begun.{IsFree};

    ghost view = { λ b. b.part };

    ghost invariant = { λ b. IsFree b.part };
}

impl<N: RunName, B: TimerBase> CpuBox<N, B> {
    /// The CPU.
    pub fn cpu(&self) -> CpuId
        ensures { result.0 ≡ self.now.box.cpu }
    {
        self.part.cpu()
    }

    /// The CPU's timers and its journal. The contract also says what every box keeps.
    pub fn bases(&self) -> &Bases<B>
        ensures plain { result.now.plain ≡ self.now.box.own.bases }
        ensures room { result.now.room ≡ self.now.room }
        ensures free { IsFree self.now }
    {
        self.part.bases()
    }

    /// What the CPU shows of itself.
    pub fn state(&self) -> CpuState
        ensures { result ≡ shown_cpu self.now.box.own }
    {
        self.part.state()
    }
}
