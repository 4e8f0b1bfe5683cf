// Calls as bytes.
ghost use Rattle.std.specs.Prelude.{◌≡◌, ◌/◌, ◌≤◌, true, length, OnOk};
ghost use Rattle.calls.specs.Meaning.{call_of};
ghost use Rattle.calls.specs.declared.call.Call.TheVariants.{Add, Report, Set, Time};
ghost use Rattle.lines.specs.Kinds.{byte_of};
ghost use Rattle.wire.specs.Pushed.{PushesCall, PushesLike, PushesMachine, PushesName, PushesTasks};
ghost use Rattle.wire.specs.Short.{is_short_lem};
ghost use Rattle.wire.specs.Written.{WrittenAs};

use crate::frame::frame;
use crate::push::{push_name, push_number, push_tags};
use crate::unwritten::Unwritten;
use calls::call::{Added, Call, Likeness, Reported, Wanted};
use jobs::ids::MachineId;
use lines::kind::Kind;
use std::alloc::{AllocError, Global};

// Whether its lists can be counted in the bytes that there are for that: 255 bytes of a name, 255 tags, 65,535 tasks.
pub fn is_short(call: &Call) -> bool
    ensures { result ≡ is_short_lem (call_of call.now) }
{
    match *call {
        Call::Set(wanted) => wanted.name.len() < 256 && wanted.like.tags.len() / 4 < 256,
        Call::End(name) | Call::Show(name) => name.len() < 256,
        Call::Add(added) => added.tags.len() / 4 < 256,
        Call::Report(reported) => reported.tasks.len() / 9 < 65536,
        Call::Close(_) | Call::Reopen(_) | Call::Forget(_) | Call::Time(_) => true,
    }
}

fn push_like(bytes: &mut Vec<u8>, like: &Likeness) -> Result<(), AllocError>
    requires { length like.now.tags.now / 4 ≤ 255 }
    ensures { OnOk result (PushesLike like.now bytes.old.items bytes.new.items) }
{
    push_number(bytes, like.image)?;
    push_number(bytes, like.cpu)?;
    push_number(bytes, like.mem)?;
    push_tags(bytes, like.tags)?;
    bytes.push(u8::from(like.apart))?;
    Ok(())
}

fn push_set(bytes: &mut Vec<u8>, wanted: &Wanted) -> Result<(), AllocError>
    requires name { length wanted.now.name.now ≤ 255 }
    requires tags { length wanted.now.like.tags.now / 4 ≤ 255 }
    ensures { OnOk result (PushesCall (call_of (Set wanted.now)) bytes.old.items bytes.new.items) }
{
    bytes.push(Kind::Set as u8)?;
    push_name(bytes, wanted.name)?;
    push_like(bytes, &wanted.like)?;
    push_number(bytes, wanted.count)?;
    push_number(bytes, wanted.least)?;
    push_number(bytes, wanted.most)?;
    Ok(())
}

fn push_added(bytes: &mut Vec<u8>, added: &Added) -> Result<(), AllocError>
    requires { length added.now.tags.now / 4 ≤ 255 }
    ensures { OnOk result (PushesCall (call_of (Add added.now)) bytes.old.items bytes.new.items) }
{
    bytes.push(Kind::Add as u8)?;
    push_number(bytes, added.machine.0)?;
    push_number(bytes, added.cpu)?;
    push_number(bytes, added.mem)?;
    push_tags(bytes, added.tags)?;
    Ok(())
}

// Tasks of a report, nine bytes each: the task as it came, and 1 where it is ready and 0 elsewhere.
fn push_tasks(bytes: &mut Vec<u8>, tasks: &[u8]) -> Result<(), AllocError>
    ensures { OnOk result (PushesTasks tasks.now bytes.old.items bytes.new.items) }
{
    for task in tasks.chunks_exact(9) {
        bytes.extend_from_slice(&task[..8])?;
        bytes.push(u8::from(task[8] == 1))?;
    }
    Ok(())
}

fn push_reported(bytes: &mut Vec<u8>, reported: &Reported) -> Result<(), AllocError>
    requires { length reported.now.tasks.now / 9 ≤ 65535 }
    ensures { OnOk result (PushesCall (call_of (Report reported.now)) bytes.old.items bytes.new.items) }
{
    bytes.push(Kind::Report as u8)?;
    push_number(bytes, reported.machine.0)?;
    push_number(bytes, reported.life.0)?;
    push_number(bytes, reported.number.0)?;
    push_number(bytes, (reported.tasks.len() / 9) as u16)?;
    push_tasks(bytes, reported.tasks)?;
    Ok(())
}

// A kind with a name, and nothing more.
fn push_named(bytes: &mut Vec<u8>, kind: Kind, name: &[u8]) -> Result<(), AllocError>
    requires { length name.now ≤ 255 }
    ensures { OnOk result (PushesName (byte_of kind) name.now bytes.old.items bytes.new.items) }
{
    bytes.push(kind as u8)?;
    push_name(bytes, name)
}

// A kind with a machine, and nothing more.
fn push_machine(bytes: &mut Vec<u8>, kind: Kind, machine: MachineId) -> Result<(), AllocError>
    ensures { OnOk result (PushesMachine (byte_of kind) machine.0 bytes.old.items bytes.new.items) }
{
    bytes.push(kind as u8)?;
    push_number(bytes, machine.0)?;
    Ok(())
}

fn push_time(bytes: &mut Vec<u8>, time: u64) -> Result<(), AllocError>
    ensures { OnOk result (PushesCall (call_of (Time time)) bytes.old.items bytes.new.items) }
{
    bytes.push(Kind::Time as u8)?;
    push_number(bytes, time)?;
    Ok(())
}

fn push_call(bytes: &mut Vec<u8>, call: &Call) -> Result<(), AllocError>
    requires { is_short_lem (call_of call.now) ≡ true }
    ensures { OnOk result (PushesCall (call_of call.now) bytes.old.items bytes.new.items) }
{
    match *call {
        Call::Set(wanted) => push_set(bytes, &wanted),
        Call::End(name) => push_named(bytes, Kind::End, name),
        Call::Add(added) => push_added(bytes, &added),
        Call::Close(machine) => push_machine(bytes, Kind::Close, machine),
        Call::Reopen(machine) => push_machine(bytes, Kind::Reopen, machine),
        Call::Forget(machine) => push_machine(bytes, Kind::Forget, machine),
        Call::Report(reported) => push_reported(bytes, &reported),
        Call::Time(time) => push_time(bytes, time),
        Call::Show(name) => push_named(bytes, Kind::Show, name),
    }
}

// A call, in the frame with that tag, which is read as that call; none where it is too long for the bytes of a call.
pub fn call_frame(heap: Global, tag: u32, call: &Call) -> Result<Vec<u8>, Unwritten>
    ensures { WrittenAs tag (call_of call.now) result }
{
    if !is_short(call) {
        return Err(Unwritten::TooLong);
    }
    let mut body = Vec::new(heap);
    push_call(&mut body, call)?;
    frame(heap, tag, body.as_slice())
}
