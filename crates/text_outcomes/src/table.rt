// A table of outcomes: what it is made from, and its parts as text.
ghost use Rattle.std.specs.Prelude.{◌≡◌, ◌++◌, ◌<◌, IfSome, OnErr, OnOk, length, slice_index_or, string_bytes};
ghost use Rattle.run_outcomes.specs.Ways.{orders_to};
ghost use Rattle.text_outcomes.specs.Changes.{AreWords};
ghost use Rattle.text_outcomes.specs.Sources.{IsOne, table_of};
ghost use Rattle.text_outcomes.specs.Table.{count_lines, endless_at, endless_text, head_text, outcome_of, outcome_text};
ghost use Rattle.text_outcomes.specs.Table.{stuck_from, stuck_text, tail_text, way_text};

use crate::lines::{
    push_endless, push_orders, push_outcome, push_outcomes, push_states, push_stuck,
    push_transactions,
};
use crate::told::push_told;
use image_load::Loaded;
use report_text::push_end;
use run_outcomes::{Exploration, Pair, Results, Stuck, Tell};
use std::alloc::AllocError;
use tcc_base::List;

/// What a table is made from: the program, the states that were found, the outcomes among them, from how many states no end can be
/// reached, and what an outcome tells. Where not all states were found nothing is known of `stuck`, and so it has none.
#[derive(Clone, Copy)]
pub struct Table<'a> {
    pub loaded: &'a Loaded,
    pub explored: &'a Exploration,
    pub results: &'a Results,
    pub stuck: Stuck,
    pub tell: Tell,
}

/// Appends the orders that lead to the state of that number.
fn push_way(text: &mut String, explored: &Exploration, number: usize) -> Result<(), AllocError>
    requires { number < length explored.now.states }
    ensures { OnOk result (string_bytes text.new ≡ string_bytes text.old ++ way_text (orders_to explored.now.ways number)) }
{
    match explored.way(number) {
        Ok(orders) => push_orders(text, &orders.items),
        Err(_) => Err(AllocError),
    }
}

#[tactic(auto, unfolding(crate::specs::Table::count_lines))]
fn push_counts(
    text: &mut String,
    done: bool,
    states: usize,
    transactions: u64,
    outcomes: usize,
) -> Result<(), AllocError>
    ensures { OnOk result (string_bytes text.new ≡ string_bytes text.old ++ count_lines done states transactions outcomes) }
{
    push_end(text, done)?;
    push_states(text, states)?;
    push_transactions(text, transactions)?;
    push_outcomes(text, outcomes)
}

/// Appends the lines before the first outcome.
pub(crate) fn push_head(text: &mut String, table: &Table) -> Result<(), AllocError>
    ensures { OnOk result (string_bytes text.new ≡ string_bytes text.old ++ head_text (table_of table.now)) }
{
    let results = table.results;
    let explored = table.explored;
    text.push_str("tcc-outcomes 1\n")?;
    push_counts(
        text,
        results.done,
        explored.len(),
        explored.transactions(),
        results.firsts.items.len(),
    )
}

/// The number of the first state that tells outcome i.
fn first_at(firsts: &List<usize>, i: usize) -> usize
    requires { i < length firsts.now }
    ensures { result ≡ slice_index_or firsts.now i 0 }
{
    firsts.items[i]
}

/// How many states tell outcome i.
fn count_at(counts: &List<u64>, i: usize) -> u64
    ensures { result ≡ slice_index_or counts.now i 0 }
{
    match counts.items.get(i) {
        Some(count) => *count,
        None => 0,
    }
}

/// Appends the lines of outcome i.
#[tactic(auto, unfolding(crate::specs::Table::outcome_text))]
pub(crate) fn push_outcome_at(text: &mut String, table: &Table, i: usize) -> Result<(), AllocError>
    requires one { IsOne table.now }
    requires fit { AreWords table.now.loaded.now }
    requires inside { i < length table.now.results.now.firsts }
    ensures { OnOk result (string_bytes text.new ≡ string_bytes text.old
        ++ outcome_text table.now.tell (outcome_of table.now.explored.now table.now.results.now i)) }
{
    let results = table.results;
    let first = first_at(&results.firsts, i);
    let count = count_at(&results.counts, i);
    let state = table.explored.state(first);
    push_outcome(text, count)?;
    push_way(text, table.explored, first)?;
    push_told(text, table.loaded, state, table.tell)
}

/// Appends the lines of transactions that don't end, where there are some.
#[tactic(auto, unfolding(crate::specs::Table::endless_text))]
fn push_endless_part(
    text: &mut String,
    explored: &Exploration,
    first: Option<Pair>,
) -> Result<(), AllocError>
    requires { IfSome first (λ pair. pair.state < length explored.now.states) }
    ensures text { OnOk result (string_bytes text.new ≡ string_bytes text.old ++ endless_text (endless_at explored.now first)) }
    ensures some { OnErr result (0 < length (endless_text (endless_at explored.now first))) }
{
    match first {
        None => Ok(()),
        Some(pair) => {
            push_endless(text, explored.endless(), pair.core)?;
            push_way(text, explored, pair.state)
        }
    }
}

/// Appends the lines of states from which no end can be reached, where there are some.
#[tactic(auto, unfolding(crate::specs::Table::stuck_text))]
fn push_stuck_part(
    text: &mut String,
    explored: &Exploration,
    stuck: Stuck,
) -> Result<(), AllocError>
    requires { IfSome stuck.first (λ k. k < length explored.now.states) }
    ensures text { OnOk result (string_bytes text.new ≡ string_bytes text.old
        ++ stuck_text (stuck_from explored.now stuck.count stuck.first)) }
    ensures some { OnErr result (0 < length (stuck_text (stuck_from explored.now stuck.count stuck.first))) }
{
    match stuck.first {
        None => Ok(()),
        Some(first) => {
            push_stuck(text, stuck.count)?;
            push_way(text, explored, first)
        }
    }
}

/// Appends the lines behind the last outcome.
#[tactic(auto, unfolding(crate::specs::Table::tail_text))]
pub(crate) fn push_tail(text: &mut String, table: &Table) -> Result<(), AllocError>
    requires { IsOne table.now }
    ensures text { OnOk result (string_bytes text.new ≡ string_bytes text.old ++ tail_text (table_of table.now)) }
    ensures some { OnErr result (0 < length (tail_text (table_of table.now))) }
{
    push_endless_part(text, table.explored, table.explored.endless_at())?;
    push_stuck_part(text, table.explored, table.stuck)
}
