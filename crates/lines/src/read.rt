// Calls from bytes.
ghost use Rattle.std.specs.Prelude.{◌≡◌, ◌+◌, ◌*◌, ◌/◌, ◌≤◌, length};
ghost use Rattle.model.specs.Wire.{flags_in, read_add_lem, read_call, read_kind_lem, read_report_lem, read_set_lem, spec_in_lem};
ghost use Rattle.calls.specs.Meaning.{like_of};
ghost use Rattle.lines.specs.Kinds.{byte_of};
ghost use Rattle.lines.specs.Reads.{Alone, Named, Numbered, ReadAs};

use crate::kind::Kind;
use calls::call::{Added, Call, Likeness, Reported, Wanted};
use jobs::ids::{Life, MachineId, ReportNumber};
use octets::field::{Number, number_at};

// A name behind its length.
fn named(rest: &[u8]) -> Option<&[u8]>
    ensures { Named rest.now result }
{
    match rest {
        [len, name @ ..] if name.len() == usize::from(*len) => Some(name),
        _ => None,
    }
}

// A number, and nothing more.
fn alone<T: Number>(rest: &[u8]) -> Option<T>
    ensures { Alone T.WIDTH T.num rest.now result }
{
    if rest.len() != T::WIDTH {
        return None;
    }
    Some(number_at(rest, 0))
}

// A machine, and nothing more.
fn numbered(rest: &[u8]) -> Option<MachineId>
    ensures { Numbered rest.now result }
{
    alone(rest).map(MachineId)
}

fn read_add(rest: &[u8]) -> Option<Call<'_>>
    ensures { ReadAs (read_add_lem rest.now) result }
{
    if rest.len() < 11 || rest.len() - 11 != 4 * usize::from(rest[10]) {
        return None;
    }
    Some(Call::Add(Added {
        machine: MachineId(number_at(rest, 0)),
        cpu: number_at(rest, 2),
        mem: number_at(rest, 6),
        tags: &rest[11..],
    }))
}

// Whether the readiness of each task is yes or no.
fn flags(tasks: &[u8]) -> bool
    ensures { result ≡ flags_in (length tasks.now / 9) tasks.now }
{
    tasks.chunks_exact(9).all(|task| task[8] <= 1)
}

fn read_report(rest: &[u8]) -> Option<Call<'_>>
    ensures { ReadAs (read_report_lem rest.now) result }
{
    if rest.len() < 20 || rest.len() - 20 != 9 * usize::from(number_at::<u16>(rest, 18)) {
        return None;
    }
    let tasks = &rest[20..];
    if !flags(tasks) {
        return None;
    }
    Some(Call::Report(Reported {
        machine: MachineId(number_at(rest, 0)),
        life: Life(number_at(rest, 2)),
        number: ReportNumber(number_at(rest, 10)),
        tasks,
    }))
}

// A likeness with so many tags.
fn likeness(bytes: &[u8], tags: usize) -> Likeness<'_>
    requires { 14 + 4 * tags ≤ length bytes.now }
    ensures { like_of result ≡ spec_in_lem tags bytes.now }
{
    let end = 13 + 4 * tags;
    Likeness {
        image: number_at(bytes, 0),
        cpu: number_at(bytes, 4),
        mem: number_at(bytes, 8),
        tags: &bytes[13..end],
        apart: bytes[end] == 1,
    }
}

fn read_set(rest: &[u8]) -> Option<Call<'_>>
    ensures { ReadAs (read_set_lem rest.now) result }
{
    let name = usize::from(*rest.first()?);
    let tags = usize::from(*rest.get(name + 13)?);
    if rest.len() != name + 4 * tags + 21 || rest[name + 4 * tags + 14] > 1 {
        return None;
    }
    Some(Call::Set(Wanted {
        name: &rest[1..1 + name],
        like: likeness(&rest[1 + name..], tags),
        count: number_at(rest, name + 4 * tags + 15),
        least: number_at(rest, name + 4 * tags + 17),
        most: number_at(rest, name + 4 * tags + 19),
    }))
}

// What stands behind the first byte, by the kind that this byte says.
fn read_kind(kind: Kind, rest: &[u8]) -> Option<Call<'_>>
    ensures { ReadAs (read_kind_lem (byte_of kind) rest.now) result }
{
    match kind {
        Kind::Set => read_set(rest),
        Kind::End => Some(Call::End(named(rest)?)),
        Kind::Add => read_add(rest),
        Kind::Close => Some(Call::Close(numbered(rest)?)),
        Kind::Reopen => Some(Call::Reopen(numbered(rest)?)),
        Kind::Forget => Some(Call::Forget(numbered(rest)?)),
        Kind::Report => read_report(rest),
        Kind::Time => Some(Call::Time(alone(rest)?)),
        Kind::Show => Some(Call::Show(named(rest)?)),
    }
}

// The call that these bytes are; none where they are no call.
pub fn read(bytes: &[u8]) -> Option<Call<'_>>
    ensures { ReadAs (read_call bytes.now) result }
{
    match bytes {
        [kind, rest @ ..] => read_kind(Kind::of(*kind)?, rest),
        [] => None,
    }
}
