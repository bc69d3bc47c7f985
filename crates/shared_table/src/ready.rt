//! A table that no thread has yet.

ghost use Rattle.std.specs.Prelude.{◌≡◌, ℕ, ◌≤◌, IfErr, IfOk, vec_capacity};
ghost use Rattle.core_world.specs.Covered.{IsSettled};
ghost use Rattle.core_world.specs.World.{cpu_of};
ghost use Rattle.shared_table.specs.Readied.{HasNoneBehind, IsRoomFor, IsTableOf, MayBegin};

use crate::first_words::first_words;
use shared_rule::{Core, CoreCpu, Opening, Seat, Words, law_begins};
use std::alloc::Global;
use std::marker::Model;
use tm_base::NoMemory;
use wheel_core::TimerBase;

/// The most walks that may count as begun with a pass as a run begins. With so many, a pass has
/// 67,295 walks left.
pub const MOST_MADE: u32 = 4_294_900_000;

/// The table of a core at rest, with the seat that knows all of it, and the core whole beside it.
#[derive(Drop)]
pub struct Ready<B: TimerBase> {
    pub(crate) opening: Opening<B>,
    pub(crate) words: Words<B>,
    pub(crate) seat: Seat,
    pub(crate) cpus: Vec<CoreCpu<B>>,
}

impl<B: TimerBase> Model for Ready<B> {
    ghost use Rattle.std.specs.Prelude.{vec_capacity};
    ghost use Rattle.std.specs.Coded.{codes};
    ghost use Rattle.tree_plan.specs.Codes.{shape_code};
    ghost use Rattle.atomic_table.specs.Seated.{table_id_coded};
    ghost use Rattle.shared_table.specs.Readied.{HeldReady};

    ghost Value = { HeldReady };

    ghost coded = { Prim.hlevel (codes, shape_code, table_id_coded) };

    ghost use Rattle.shared_table.specs.Readied.{IsRoomFor, IsTableOf, MayBegin};

    ghost view = { λ r. record {
      core = r.opening.core;
      made = r.opening.made;
      table = r.words.shared.table_id;
    } };

    ghost invariant = { λ r.
        MayBegin r.opening.core r.opening.made
        × IsTableOf r.opening.core r.opening.made r.words.shared.table_id
        r.words.shared.key.core r.seat.table_id r.seat.me
        × IsRoomFor r.opening.core r.cpus.items (vec_capacity r.cpus) };
}

impl<B: TimerBase> Ready<B> {
    /// Makes the table of a core at rest, whose words and whose first seat show it, and keeps the
    /// core beside it. Each pass counts as having begun `made` walks. Want of memory gives the core
    /// back.
    pub fn prepare(alloc: Global, core: Core<B>, made: u32) -> Result<Ready<B>, (Core<B>, NoMemory)>
        requires settled { IsSettled core }
        requires whole { (c : ℕ) → HasNoneBehind (cpu_of core c).bases }
        requires few { made ≤ MOST_MADE }
        ensures core { IfOk result (λ r. r.core ≡ core) }
        ensures made { IfOk result (λ r. r.made ≡ made) }
        ensures err { IfErr result (λ e. e.0 ≡ core) }
    {
        let opening = Opening { core, made };
        match laid_out(alloc, &opening) {
            Ok((words, seat, cpus)) => Ok(Ready {
                opening,
                words,
                seat,
                cpus,
            }),
            Err(refused) => Err((opening.core, refused)),
        }
    }

    /// The core as it was given.
    pub fn into_core(self) -> Core<B>
        ensures { result ≡ self.core }
    {
        self.opening.core
    }
}

/// The table of a core, its first seat, and room for the CPUs at the end of the run.
fn laid_out<B: TimerBase>(
    alloc: Global,
    opening: &Opening<B>,
) -> Result<(Words<B>, Seat, Vec<CoreCpu<B>>), NoMemory>
    requires { MayBegin opening.now.core opening.now.made }
    ensures table { IfOk result (λ r. IsTableOf opening.now.core opening.now.made
        r.0.shared.table_id r.0.shared.key.core r.1.table_id r.1.me) }
    ensures room { IfOk result
        (λ r. IsRoomFor opening.now.core r.2.items (vec_capacity r.2)) }
{
    law_begins();
    opening.core.kept();
    let first = first_words(alloc, &opening.core)?;
    let mut cpus = Vec::new(alloc);
    cpus.reserve(usize::from(opening.core.tree().cpu_count()))?;
    let (words, seat) = Words::of_words(alloc, &first, opening)?;
    Ok((words, seat, cpus))
}
