// Names from bytes.
ghost use Rattle.std.specs.Prelude.{◌≡◌, ℕ, ◌+◌, ◌*◌, ◌<◌, ◌≤◌, length, MatchOption, slice_index};
ghost use Rattle.jobs.specs.Values.{name_of, packed};

use crate::name::Name;

// Byte `k`, or 0 past the end.
fn byte_or_zero(bytes: &[u8], k: usize) -> u8
    ensures { result ≡ slice_index bytes.now k }
{
    bytes.get(k).copied().unwrap_or(0)
}

// Eight bytes from `o` on, in one word.
fn word_from(bytes: &[u8], o: usize) -> u64
    requires { o < 64 }
    ensures { result ≡ packed bytes.now o }
{
    u64::from_be_bytes(std::array::from_fn(|k| byte_or_zero(bytes, o + k)))
}

// The name of those bytes; refused where they are more than 64.
pub fn name_of_bytes(bytes: &[u8]) -> Option<Name>
    ensures { MatchOption result (64 < length bytes.now) (λ n. name_of n ≡ bytes.now) }
{
    if bytes.len() > 64 {
        return None;
    }
    Some(Name {
        len: bytes.len() as u8,
        words: std::array::from_fn(|w| word_from(bytes, 8 * w)),
    })
}
