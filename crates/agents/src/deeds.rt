// What is stopped and started, from what ran before and what runs after.
ghost use Rattle.std.specs.Prelude.{◌≡◌, IfOk};
ghost use Rattle.agents.specs.Memory.{deeds_of, seens_of};
ghost use Rattle.wire.specs.Replies.{orders_of};
ghost use Rattle.agents.specs.Moves.{deeds_for};

use crate::order::{Deed, Seen};
use crate::running::{order_for, runs};
use std::alloc::{AllocError, Global};
use wire::reply::Order;

// What is done: all that is stopped, then all that is started.
pub fn deeds_between(
    heap: Global,
    before: &[Seen],
    after: &[Seen],
    orders: &[Order],
) -> Result<Vec<Deed>, AllocError>
    ensures { IfOk result (λ v. deeds_of v.items ≡ deeds_for (seens_of before.now) (seens_of after.now) (orders_of orders.now)) }
{
    // What runs no more.
    let stops = before
        .iter()
        .filter(|seen| !runs(after, seen.task))
        .map(|seen| Deed::Stop(seen.task));
    // What runs only now.
    let starts = after
        .iter()
        .filter(|seen| !runs(before, seen.task))
        .filter_map(|seen| order_for(orders, seen.task).map(Deed::Start));
    stops.chain(starts).collect(heap)
}
