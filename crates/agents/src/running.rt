// What is ordered and what runs, by task.
// (`seens` and `orders` come apart: each function here changes one at most, and the agent, which has both, lends what is needed.)
ghost use Rattle.std.specs.List as list;
ghost use Rattle.std.specs.Prelude.{◌≡◌, ◌==◌, IfOk, OnOk};
ghost use Rattle.model.specs.Lists.{find, some};
ghost use Rattle.model.specs.World.{is_order, is_ready_in, is_seen};
ghost use Rattle.agents.specs.Memory.{seens_of};
ghost use Rattle.wire.specs.Replies.{orders_of};
ghost use Rattle.agents.specs.Moves.{Found, PlacedAt, kept, started, started_one};

use crate::order::Seen;
use jobs::ids::TaskId;
use std::alloc::{AllocError, Global};
use wire::reply::Order;

fn is_ordered(orders: &[Order], task: TaskId) -> bool
    ensures { result ≡ some (is_order task.0) (orders_of orders.now) }
{
    orders.iter().any(|order| task == order.task)
}

// The order for a task: the first, where hostile bytes gave several.
pub fn order_for(orders: &[Order], task: TaskId) -> Option<Order>
    ensures first { result ≡ list.find (λ o. task.0 == o.task.0) orders.now }
    ensures found { Found (find (is_order task.0) (orders_of orders.now)) result }
{
    orders.iter().find(|order| task == order.task).copied()
}

pub fn runs(seens: &[Seen], task: TaskId) -> bool
    ensures { result ≡ some (is_seen task.0) (seens_of seens.now) }
{
    seens.iter().any(|seen| task == seen.task)
}

// Where a task stands among those that run.
pub fn place(seens: &[Seen], task: TaskId) -> Option<usize>
    ensures { PlacedAt task.0 seens.now result }
{
    seens.iter().position(|seen| task == seen.task)
}

pub fn is_ready(seens: &[Seen], task: TaskId) -> bool
    ensures { result ≡ is_ready_in task.0 (seens_of seens.now) }
{
    seens.iter().any(|seen| task == seen.task && seen.ready)
}

// Of what runs, what is ordered.
pub fn keep_ordered(heap: Global, seens: &[Seen], orders: &[Order]) -> Result<Vec<Seen>, AllocError>
    ensures { IfOk result (λ v. seens_of v.items ≡ kept (orders_of orders.now) (seens_of seens.now)) }
{
    seens
        .iter()
        .filter(|seen| is_ordered(orders, seen.task))
        .copied()
        .collect(heap)
}

// A task that doesn't run, runs too.
fn start_one(seens: &mut Vec<Seen>, task: TaskId) -> Result<(), AllocError>
    ensures { OnOk result (seens_of seens.new.items ≡ started_one task.0 (seens_of seens.old.items)) }
{
    if !runs(seens.as_slice(), task) {
        seens.insert(0, Seen { task, ready: false })?;
    }
    Ok(())
}

// What is ordered and doesn't run, runs too.
pub fn start_ordered(seens: &mut Vec<Seen>, orders: &[Order]) -> Result<(), AllocError>
    ensures { OnOk result (seens_of seens.new.items ≡ started (orders_of orders.now) (seens_of seens.old.items)) }
{
    for order in orders.iter().rev() {
        start_one(seens, order.task)?;
    }
    Ok(())
}
