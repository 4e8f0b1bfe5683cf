// What runs next, and what is done for it.
ghost use Rattle.std.specs.Prelude.{◌≡◌, IfOk};
ghost use Rattle.agents.specs.Memory.{deeds_of, seens_of};
ghost use Rattle.wire.specs.Replies.{orders_of};
ghost use Rattle.agents.specs.Moves.{Turned, kept};

use crate::deeds::deeds_between;
use crate::order::{Deed, Seen};
use crate::running::{keep_ordered, start_ordered};
use std::alloc::{AllocError, Global};
use wire::reply::Order;

#[derive(Drop)]
pub struct Turn {
    pub seens: Vec<Seen>,
    pub deeds: Vec<Deed>,
}

// From what is left of what ran before, all that is ordered is started.
fn started_from(
    heap: Global,
    before: &[Seen],
    left: Vec<Seen>,
    orders: &[Order],
) -> Result<Turn, AllocError>
    ensures { IfOk result (λ t. Turned (seens_of before.now) (seens_of left.items) (orders_of orders.now) (seens_of t.seens.items) (deeds_of t.deeds.items)) }
{
    let mut seens = left;
    start_ordered(&mut seens, orders)?;
    let deeds = deeds_between(heap, before, seens.as_slice(), orders)?;
    Ok(Turn { seens, deeds })
}

// What isn't ordered is stopped, what is ordered and doesn't run is started.
pub fn obeyed(heap: Global, before: &[Seen], orders: &[Order]) -> Result<Turn, AllocError>
    ensures { IfOk result (λ t. Turned (seens_of before.now) (kept (orders_of orders.now) (seens_of before.now)) (orders_of orders.now) (seens_of t.seens.items) (deeds_of t.deeds.items)) }
{
    let left = keep_ordered(heap, before, orders)?;
    started_from(heap, before, left, orders)
}

// What is ordered and doesn't run is started.
pub fn restarted(heap: Global, before: &[Seen], orders: &[Order]) -> Result<Turn, AllocError>
    ensures { IfOk result (λ t. Turned (seens_of before.now) (seens_of before.now) (orders_of orders.now) (seens_of t.seens.items) (deeds_of t.deeds.items)) }
{
    let left = Vec::from_slice(heap, before)?;
    started_from(heap, before, left, orders)
}
