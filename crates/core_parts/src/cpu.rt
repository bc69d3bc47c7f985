//! One CPU of the core.

ghost use Rattle.std.specs.Prelude.{◌≡◌, ◌^◌, ◌<◌, false};
ghost use Rattle.std.specs.Option.{option_map_or};
ghost use Rattle.core_world.specs.cpu_bases.CpuBases.{empty_bases, events_of};
ghost use Rattle.core_world.specs.walk_rules.declared.walk.Walk.{Walk};
ghost use Rattle.core_world.specs.Start.{start_cpu};
ghost use Rattle.core_world.specs.World.{is_reading};
ghost use Rattle.core_parts.specs.Status.{record_of, status_of, with_status};
ghost use Rattle.core_world.specs.walk_rules.Ranges.{IsInRange};

use crate::stale::is_reading;
use crate::status::CpuStatus;
use core_world::{Bases, NextEvents, law_bases};
use std::marker::Model;
use tm_base::NEVER;
use wheel_core::TimerBase;

/// One CPU: what it is, and its timers.
#[derive(Drop)]
pub struct CoreCpu<B: TimerBase> {
    pub(crate) status: CpuStatus,
    pub(crate) bases: Bases<B>,
}

impl<B: TimerBase> Model for CoreCpu<B> {
    ghost use Rattle.core_world.specs.World.{CpuRecord};

    ghost Value = { CpuRecord };

    ghost use Rattle.core_world.specs.walk_rules.Ranges.{IsInRange};

    ghost view = { λ c.
        record {
          online = c.status.online;
          idle = c.status.idle;
          inside = c.status.inside;
          mark = c.status.mark;
          wakeup = c.status.wakeup;
          bases = c.bases.plain;
          walk = c.status.walk;
        } };

    ghost invariant = { λ c. IsInRange c.status.walk };
}

impl<B: TimerBase> CoreCpu<B> {
    /// A CPU that is online and active, with empty bases.
    pub fn new(bases: Bases<B>) -> CoreCpu<B>
        requires { bases.plain ≡ empty_bases }
        ensures { result ≡ start_cpu }
    {
        CoreCpu {
            status: CpuStatus {
                online: true,
                idle: false,
                inside: false,
                mark: None,
                wakeup: NEVER,
                walk: None,
            },
            bases,
        }
    }

    /// The CPU of these parts.
    pub fn from_parts(status: CpuStatus, bases: Bases<B>) -> CoreCpu<B>
        requires { IsInRange status.walk }
        ensures { result ≡ record_of status bases.plain }
    {
        CoreCpu { status, bases }
    }

    /// Takes the CPU apart.
    pub fn into_parts(self) -> (CpuStatus, Bases<B>)
        ensures status { result.0 ≡ status_of self }
        ensures bases { result.1.plain ≡ self.bases }
        ensures in_range { IsInRange result.0.walk }
    {
        (self.status, self.bases)
    }

    /// What it is besides its timers.
    pub fn status(&self) -> CpuStatus
        ensures status { result ≡ status_of self.now }
        ensures in_range { IsInRange result.walk }
    {
        self.status
    }

    /// Whether the CPU's walk has read a group's word and is going to exchange it.
    pub(crate) fn reads(&self) -> bool
        ensures { result ≡ option_map_or (λ (k : Walk). is_reading k.stage) self.now.walk false }
    {
        match self.status.walk {
            Some(walk) => is_reading(walk.stage),
            None => false,
        }
    }

    /// Puts another status in the place of the CPU's; its timers stay.
    pub fn set_status(&mut self, status: CpuStatus)
        requires { IsInRange status.walk }
        ensures { self.new ≡ with_status self.old status }
    {
        self.status = status;
    }

    /// The CPU's timers.
    pub fn bases(&self) -> &Bases<B>
        ensures { result.now.plain ≡ self.now.bases }
    {
        &self.bases
    }

    /// The CPU's first events.
    pub fn events(&self) -> NextEvents
        ensures events { result ≡ events_of self.now.bases }
        ensures in_range { result.next < 2 ^ 48 }
    {
        law_bases();
        self.bases.journal();
        self.bases.next()
    }
}
