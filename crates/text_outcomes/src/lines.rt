// The lines of a table, each appended to a text. Where memory runs out, the text holds a part of the line.
ghost use Rattle.std.specs.Prelude.{◌≡◌, ◌++◌, OnOk, map, string_bytes};
ghost use Rattle.std.specs.List.{flat_map};
ghost use Rattle.rv_plain.specs.PlainState.{order_of};
ghost use Rattle.text_outcomes.specs.Lines.{states_line, transactions_line, outcomes_line, outcome_line, order_line};
ghost use Rattle.text_outcomes.specs.Lines.{endless_line, stuck_line};

use rv_plain::Order;
use std::alloc::AllocError;
use tcc_base::CoreId;

#[tactic(auto, unfolding(crate::specs::Lines::states_line))]
pub(crate) fn push_states(text: &mut String, states: usize) -> Result<(), AllocError>
    ensures { OnOk result (string_bytes text.new ≡ string_bytes text.old ++ states_line states) }
{
    write!(text, "states {states}\n")
}

#[tactic(auto, unfolding(crate::specs::Lines::transactions_line))]
pub(crate) fn push_transactions(text: &mut String, transactions: u64) -> Result<(), AllocError>
    ensures { OnOk result (string_bytes text.new ≡ string_bytes text.old ++ transactions_line transactions) }
{
    write!(text, "transactions {transactions}\n")
}

#[tactic(auto, unfolding(crate::specs::Lines::outcomes_line))]
pub(crate) fn push_outcomes(text: &mut String, outcomes: usize) -> Result<(), AllocError>
    ensures { OnOk result (string_bytes text.new ≡ string_bytes text.old ++ outcomes_line outcomes) }
{
    write!(text, "outcomes {outcomes}\n")
}

#[tactic(auto, unfolding(crate::specs::Lines::outcome_line))]
pub(crate) fn push_outcome(text: &mut String, count: u64) -> Result<(), AllocError>
    ensures { OnOk result (string_bytes text.new ≡ string_bytes text.old ++ outcome_line count) }
{
    write!(text, "outcome {count}\n")
}

#[tactic(auto, unfolding(crate::specs::Lines::endless_line))]
pub(crate) fn push_endless(text: &mut String, count: u64, core: CoreId) -> Result<(), AllocError>
    ensures { OnOk result (string_bytes text.new ≡ string_bytes text.old ++ endless_line count core.0) }
{
    write!(text, "endless {count} {}\n", core.0)
}

#[tactic(auto, unfolding(crate::specs::Lines::stuck_line))]
pub(crate) fn push_stuck(text: &mut String, count: u64) -> Result<(), AllocError>
    ensures { OnOk result (string_bytes text.new ≡ string_bytes text.old ++ stuck_line count) }
{
    write!(text, "stuck {count}\n")
}

#[tactic(auto, unfolding(crate::specs::Lines::order_line))]
fn push_order(text: &mut String, order: &Order) -> Result<(), AllocError>
    ensures { OnOk result (string_bytes text.new ≡ string_bytes text.old ++ order_line (order_of order.now)) }
{
    write!(
        text,
        "commit {} {} {}\n",
        order.tid.0, order.core.0, order.n
    )
}

/// Appends a line for each of these orders.
pub(crate) fn push_orders(text: &mut String, orders: &[Order]) -> Result<(), AllocError>
    ensures { OnOk result (string_bytes text.new ≡ string_bytes text.old ++ flat_map order_line (map order_of orders.now)) }
{
    for order in orders {
        push_order(text, order)?;
    }
    Ok(())
}
