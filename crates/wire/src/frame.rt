// The frame of a line: the length of the rest, a tag, and a call or an answer.
ghost use Rattle.std.specs.Prelude.{◌≡◌};
ghost use Rattle.model.specs.Lines.{call_in};
ghost use Rattle.wire.specs.Frames.{FramedAs};

use crate::push::push_number;
use crate::unwritten::Unwritten;
use octets::field::number_at;
use std::alloc::Global;

// These bytes, in the frame with that tag.
pub fn frame(heap: Global, tag: u32, body: &[u8]) -> Result<Vec<u8>, Unwritten>
    ensures { FramedAs tag body.now result }
{
    if body.len() >= 4_294_967_292 {
        return Err(Unwritten::TooLong);
    }
    let mut line = Vec::new(heap);
    push_number(&mut line, (4 + body.len()) as u32)?;
    push_number(&mut line, tag)?;
    line.extend_from_slice(body)?;
    Ok(line)
}

// What stands in a frame; no byte where the frame's length is not that of the rest.
pub fn unframed(line: &[u8]) -> &[u8]
    ensures { result.now ≡ call_in line.now }
{
    if line.len() < 8 || number_at::<u32>(line, 0) as usize + 4 != line.len() {
        return &line[0..0];
    }
    &line[8..]
}
