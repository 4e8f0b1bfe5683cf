// Numbers in words: decimal digits and nothing else.
ghost use Rattle.std.specs.Prelude.{◌≤◌, IfOk, IfSome, vec_len};

use agents::text::decimal;
use jobs::ids::{MachineId, TaskId};
use std::alloc::{AllocError, Global};

// Below 2^64.
pub fn long(word: &str) -> Option<u64> {
    decimal(word.as_bytes())
}

// Below 2^32.
pub fn middle(word: &str) -> Option<u32> {
    u32::try_from(long(word)?).ok()
}

// Below 2^16.
pub fn short(word: &str) -> Option<u16> {
    u16::try_from(long(word)?).ok()
}

pub fn machine(word: &str) -> Option<MachineId> {
    short(word).map(MachineId)
}

pub fn task(word: &str) -> Option<TaskId> {
    long(word).map(TaskId)
}

// At most 255 tags, parted by commas, as bytes: four each, high byte first.
pub fn tags(heap: Global, word: &str) -> Result<Option<Vec<u8>>, AllocError>
    ensures { IfOk result (λ tags. IfSome tags (λ bytes. vec_len bytes ≤ 1020)) }
{
    let mut bytes = Vec::new(heap);
    for tag in word.split(',') {
        let Some(tag) = middle(tag) else {
            return Ok(None);
        };
        if bytes.len() > 4 * 254 {
            return Ok(None);
        }
        bytes.extend_from_slice(&tag.to_be_bytes())?;
    }
    Ok(Some(bytes))
}
