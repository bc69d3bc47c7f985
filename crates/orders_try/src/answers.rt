//! What is shown of the ends.

ghost use Rattle.std.specs.Prelude.{◌≡◌, IfOk, map};
ghost use Rattle.orders_search.specs.Layers.{founds};
ghost use Rattle.orders_try.specs.Gathering.{seen_of};
ghost use Rattle.orders_try.specs.Trying.{IsAnswerOf};

use crate::attempts::CaseEnds;
use orders_answer::{AnswerShown, EndShown};
use orders_ends::EndSight;
use orders_rules::Rule;
use orders_search::End;
use orders_threads::rule_name;
use std::alloc::Global;
use tm_base::NoMemory;

/// The ends, without their orders.
fn shown_ends(alloc: Global, ends: Vec<End<EndSight>>) -> Result<Vec<EndShown>, NoMemory>
    ensures { IfOk result (λ shown. map seen_of shown.items ≡ founds ends.items) }
{
    let mut list = Vec::new(alloc);
    for end in ends {
        let End { found, order: _ } = end;
        list.push(found.state.with_orders(found.orders))?;
    }
    Ok(list)
}

/// What is printed of the ends that were found under a rule.
pub fn answer_of(alloc: Global, rule: Rule, ends: CaseEnds) -> Result<AnswerShown, NoMemory>
    ensures { IfOk result (IsAnswerOf rule ends) }
{
    let name = Vec::from_slice(alloc, rule_name(rule))?;
    let CaseEnds {
        ends,
        states,
        is_whole,
    } = ends;
    let shown = shown_ends(alloc, ends)?;
    Ok(AnswerShown {
        rule: name,
        states: states as u64,
        ends: shown,
        is_whole,
    })
}
