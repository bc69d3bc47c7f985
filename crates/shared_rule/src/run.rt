//! The run that threads share.

ghost use Rattle.shared_rule.specs.Runs.{RunFits};

use crate::Words;
use shared_words::Layout;
use std::marker::{Brand, PhantomData};
use tree_plan::Tree;
use wheel_core::TimerBase;

/// Names the table of one run, and the core with which it began.
pub trait RunName {
    ghost use Rattle.atomic_table.specs.Seated.{TableId};
    ghost use Rattle.core_world.specs.World.{World};

    ghost table: { TableId };

    ghost opening: { World };
}

impl RunName for Brand {
    ghost use Rattle.shared_rule.specs.Runs.{no_table, no_world};

    ghost table = { no_table };

    ghost opening = { no_world };
}

/// The words of the run that N names, and the tree of the core with which it began. It may be lent
/// to several threads.
#[derive(Drop)]
pub struct Run<N: RunName, B: TimerBase> {
    pub words: Words<B>,
    /// The tree of the core.
    pub tree: Tree,
    /// Where each word stands.
    pub layout: Layout,
    pub name: PhantomData<N>,
    pub ghost fits: { RunFits N.table N.opening words.shared.table_id words.shared.key.core tree
        layout },
}
