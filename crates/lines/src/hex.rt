// Answers as lines of text.
ghost use Rattle.std.specs.Prelude.{◌≡◌, ◌+◌, ◌*◌, ◌<◌, ◌≤◌, [], ◌∷◌, ◌++◌, length, take, IfSome, MatchOption};
ghost use Rattle.std.specs.Char.{digit_char};
ghost use Rattle.lines.specs.Text.{hex_text, out_text};

// A digit below 16, in lower case. (`char::from_digit` gives an `Option` of a char, to be taken apart twice.)
pub fn digit(n: u8) -> u8
    requires { n < 16 }
    ensures { result ≡ digit_char n }
{
    if n < 10 { b'0' + n } else { b'a' - 10 + n }
}

// Writes bytes in hexadecimal behind the first four characters. (In fixed memory; agents does it in a `Vec`.)
fn digits(bytes: &[u8], text: &mut [u8])
    requires { 4 + 2 * length bytes.now ≤ length text.old }
    ensures { take (4 + 2 * length bytes.now) text.new ≡ take 4 text.old ++ hex_text bytes.now }
{
    for (i, byte) in bytes.iter().enumerate() {
        let at = 4 + 2 * i;
        text[at] = digit(*byte / 16);
        text[at + 1] = digit(*byte % 16);
    }
}

// The line of text that says an answer; nothing is written where there is no room for it.
// (Its length and not the part: tried, and where a part is lent no clause can say any more that the text stays as it was.)
pub fn say(answer: &[u8], text: &mut [u8]) -> Option<usize>
    ensures text { MatchOption result ((length text.old < 5 + 2 * length answer.now) × (text.new ≡ text.old)) (λ n. take n text.new ≡ out_text answer.now) }
    ensures within { IfSome result (λ n. n ≤ length text.new) }
{
    if text.len() < 5 || (text.len() - 5) / 2 < answer.len() {
        return None;
    }
    let end = 4 + 2 * answer.len();
    text[..4].copy_from_slice(b"out ");
    digits(answer, text);
    text[end] = b'\n';
    Some(end + 1)
}
