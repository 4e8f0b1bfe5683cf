// Tasks that are shown, from bytes.
ghost use Rattle.std.specs.Prelude.{◌≡◌, ◌/◌, length};
ghost use Rattle.model.specs.Answers.{read_shown};
ghost use Rattle.wire.specs.Answering.{LinesAs, PhaseAs, SaysAs, ShownAs};
ghost use Rattle.wire.specs.Replies.{lines_shown};

use crate::reply::{Phase, Shown};
use crate::unread::Unread;
use jobs::ids::{MachineId, TaskId, Version};
use octets::field::number_at;
use std::alloc::Global;

// The phase of that number, if it is one.
fn phase(number: u8) -> Option<Phase>
    ensures { PhaseAs number result }
{
    match number {
        0 => Some(Phase::Waiting),
        1 => Some(Phase::Told),
        2 => Some(Phase::Ready),
        3 => Some(Phase::Ending),
        _ => None,
    }
}

// A task in its fifteen bytes.
fn shown(bytes: &[u8]) -> Option<Shown>
    requires { length bytes.now ≡ 15 }
    ensures { ShownAs bytes.now result }
{
    Some(Shown {
        task: TaskId(number_at(bytes, 0)),
        version: Version(number_at(bytes, 8)),
        phase: phase(bytes[12])?,
        machine: MachineId(number_at(bytes, 13)),
    })
}

// As many as there are.
fn lines(heap: Global, bytes: &[u8]) -> Result<Vec<Shown>, Unread>
    ensures { LinesAs (length bytes.now / 15) bytes.now result }
{
    let mut lines = Vec::new(heap);
    for piece in bytes.chunks_exact(15) {
        let line = shown(piece).ok_or(Unread::NoAnswer)?;
        lines.push(line)?;
    }
    Ok(lines)
}

// The part of a showing behind its kind.
pub(crate) fn read_lines(heap: Global, rest: &[u8]) -> Result<Vec<Shown>, Unread>
    ensures { SaysAs lines_shown (read_shown rest.now) result }
{
    if rest.len() < 2 || rest.len() - 2 != 15 * usize::from(number_at::<u16>(rest, 0)) {
        return Err(Unread::NoAnswer);
    }
    lines(heap, &rest[2..])
}
