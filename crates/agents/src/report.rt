// Reports as bytes.
ghost use Rattle.std.specs.Prelude.{◌≡◌, ◌%◌, ◌≤◌, ◌++◌, length, IfOk, OnOk};
ghost use Rattle.model.specs.Calls.{Report};
ghost use Rattle.model.specs.Lines.{framed};
ghost use Rattle.model.specs.Wire.{call_bytes};
ghost use Rattle.model.specs.World.{may_run};
ghost use Rattle.agents.specs.Memory.{seens_of};
ghost use Rattle.wire.specs.Replies.{orders_of};
ghost use Rattle.agents.specs.Reporting.{front_of, task_bytes_lem, tasks_bytes};

use crate::head::Head;
use crate::order::Seen;
use crate::running::is_ready;
use jobs::ids::TaskId;
use lines::kind::Kind;
use std::alloc::{AllocError, Global};
use wire::push::push_number;
use wire::reply::Order;

// The frame, the kind of the call, and a report's head and number of tasks.
fn push_front(bytes: &mut Vec<u8>, tag: u32, head: Head, count: u16) -> Result<(), AllocError>
    ensures { OnOk result (bytes.new.items ≡ bytes.old.items ++ front_of tag head.machine.0 head.life.0 head.number.0 count) }
{
    push_number(bytes, 25 + 9 * u32::from(count))?;
    push_number(bytes, tag)?;
    bytes.push(Kind::Report as u8)?;
    push_number(bytes, head.machine.0)?;
    push_number(bytes, head.life.0)?;
    push_number(bytes, head.number.0)?;
    push_number(bytes, count)?;
    Ok(())
}

// One order more: its task, as ready if it runs and is.
fn add_task(bytes: &mut Vec<u8>, seens: &[Seen], task: TaskId) -> Result<(), AllocError>
    ensures { OnOk result (bytes.new.items ≡ bytes.old.items ++ task_bytes_lem (seens_of seens.now) task.0) }
{
    push_number(bytes, task.0)?;
    bytes.push(u8::from(is_ready(seens, task)))?;
    Ok(())
}

// All that is ordered.
fn add_tasks(bytes: &mut Vec<u8>, seens: &[Seen], orders: &[Order]) -> Result<(), AllocError>
    ensures { OnOk result (bytes.new.items ≡ bytes.old.items ++ tasks_bytes (seens_of seens.now) (orders_of orders.now)) }
{
    for order in orders {
        add_task(bytes, seens, order.task)?;
    }
    Ok(())
}

// A report of all that is ordered, in its frame; the tag counts with the reports.
pub fn report_bytes(
    heap: Global,
    head: Head,
    seens: &[Seen],
    orders: &[Order],
) -> Result<Vec<u8>, AllocError>
    requires { length orders.now ≤ 65535 }
    ensures { IfOk result (λ v. v.items ≡ framed (head.number.0 % 4294967296) (call_bytes (Report head.machine.0 head.life.0 head.number.0 (may_run (seens_of seens.now) (orders_of orders.now))))) }
{
    let tag = (head.number.0 % 4_294_967_296) as u32;
    let mut bytes = Vec::with_capacity(heap, 29 + 9 * orders.len())?;
    push_front(&mut bytes, tag, head, orders.len() as u16)?;
    add_tasks(&mut bytes, seens, orders)?;
    Ok(bytes)
}
