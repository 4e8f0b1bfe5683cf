// Orders from bytes: what is to run on a machine.
ghost use Rattle.std.specs.Prelude.{◌≡◌, ◌+◌, ◌*◌, ◌≤◌, false, length, MatchOption};
ghost use Rattle.model.specs.Wire.{spec_in_lem};
ghost use Rattle.model.specs.Answers.{is_order_in, read_runs};
ghost use Rattle.jobs.specs.Values.{spec_of};
ghost use Rattle.wire.specs.Answering.{OrderRead, OrdersAs, SaysAs};
ghost use Rattle.wire.specs.Replies.{run_of};

use crate::reply::{Order, Run};
use crate::unread::Unread;
use calls::answer::RunOn;
use jobs::ids::{Life, MachineId, ReportNumber, TaskId};
use jobs::spec::Spec;
use octets::field::{filled, number_at};
use std::alloc::Global;

// A likeness with so many tags. (`lines::read` reads the same fields, but lends the tags, which may be too many there.)
fn spec_in(bytes: &[u8], count: u8) -> Spec
    requires few { count ≤ 8 }
    requires whole { 14 + 4 * count ≤ length bytes.now }
    ensures value { spec_of result ≡ spec_in_lem count bytes.now }
    ensures count { result.count ≡ count }
{
    let end = 13 + 4 * usize::from(count);
    Spec {
        image: number_at(bytes, 0),
        cpu: number_at(bytes, 4),
        mem: number_at(bytes, 8),
        apart: bytes[end] == 1,
        count,
        tags: filled(&bytes[13..end]),
    }
}

// The order at the front.
fn order_in(bytes: &[u8]) -> Option<Order>
    ensures { MatchOption result (is_order_in bytes.now ≡ false) (λ o. OrderRead bytes.now o) }
{
    if bytes.len() < 22 {
        return None;
    }
    let count = bytes[20];
    if count > 8
        || bytes.len() < 22 + 4 * usize::from(count)
        || bytes[21 + 4 * usize::from(count)] > 1
    {
        return None;
    }
    Some(Order {
        task: TaskId(number_at(bytes, 0)),
        spec: spec_in(&bytes[8..], count),
    })
}

// So many orders, and nothing behind them.
fn orders_in(heap: Global, bytes: &[u8], count: u16) -> Result<Vec<Order>, Unread>
    ensures { OrdersAs count bytes.now result }
{
    let mut orders = Vec::new(heap);
    let mut rest = bytes;
    for _ in 0..count {
        let order = order_in(rest).ok_or(Unread::NoAnswer)?;
        rest = &rest[22 + 4 * usize::from(order.spec.count)..];
        orders.push(order)?;
    }
    if !rest.is_empty() {
        return Err(Unread::NoAnswer);
    }
    Ok(orders)
}

// The part of an answer to a report behind its kind.
pub(crate) fn read_run(heap: Global, rest: &[u8]) -> Result<Run, Unread>
    ensures { SaysAs run_of (read_runs rest.now) result }
{
    if rest.len() < 20 {
        return Err(Unread::NoAnswer);
    }
    let orders = orders_in(heap, &rest[20..], number_at(rest, 18))?;
    Ok(Run {
        on: RunOn {
            machine: MachineId(number_at(rest, 0)),
            life: Life(number_at(rest, 2)),
            number: ReportNumber(number_at(rest, 10)),
        },
        orders,
    })
}
