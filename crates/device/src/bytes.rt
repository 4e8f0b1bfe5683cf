// Words as bytes of the file: eight each, the high one first.
ghost use Rattle.std.specs.Prelude.{◌≡◌, ℕ, ◌*◌, ◌<◌, ◌≤◌, length, slice_index};
ghost use Rattle.device.specs.Bytes.{word_at};

use octets::field::number_at;

// The bytes of a word.
pub fn encode(w: u64) -> [u8; 8]
    ensures { word_at result 0 ≡ w }
{
    w.to_be_bytes()
}

// The words of bytes.
pub fn decode(bytes: &[u8], words: &mut [u64])
    requires { 8 * length words.old ≤ length bytes.now }
    ensures { (i : ℕ) → i < length words.old → slice_index words.new i ≡ word_at bytes.now i }
{
    for (i, word) in words.iter_mut().enumerate() {
        *word = number_at(bytes, 8 * i);
    }
}
