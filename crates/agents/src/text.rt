// Lines of text: what an agent is told, and bytes in hexadecimal.
ghost use Rattle.std.specs.Prelude.{◌≡◌, ℕ, ◌/◌, ◌%◌, List, [], ◌∷◌, ◌++◌, MatchOption, OnOk};
ghost use Rattle.std.specs.Char.{digit_char};
ghost use Rattle.model.specs.Wire.{garbled};
ghost use Rattle.lines.specs.Resume.{number_in};
ghost use Rattle.lines.specs.Text.{decimal_on, first, hex_on, hex_text};
ghost use Rattle.agents.specs.Texts.{SaidAs, TaskIn, UnhexedAs};
ghost use Rattle.agents.specs.declared.text.Unhexed.TheVariants.{NoMemory};

use jobs::ids::TaskId;
use lines::decimal::more;
use lines::hex::digit;
use std::alloc::{AllocError, AllocFailed, Global};
use thiserror::Error;

fn push_byte(text: &mut Vec<u8>, byte: u8) -> Result<(), AllocError>
    ensures { OnOk result (text.new.items ≡ text.old.items ++ (digit_char (byte / 16) ∷ digit_char (byte % 16) ∷ [])) }
{
    text.push(digit(byte / 16))?;
    text.push(digit(byte % 16))?;
    Ok(())
}

// Puts bytes in hexadecimal behind a text.
pub fn push_hex(text: &mut Vec<u8>, bytes: &[u8]) -> Result<(), AllocError>
    ensures { OnOk result (text.new.items ≡ text.old.items ++ hex_text bytes.now) }
{
    for byte in bytes {
        push_byte(text, *byte)?;
    }
    Ok(())
}

// A line of text, as it is meant.
#[derive(Clone, Copy)]
pub enum Said<'a> {
    Report,
    // Bytes in hexadecimal.
    Answer(&'a [u8]),
    Ready(TaskId),
    Dies(TaskId),
}

// Why digits are no bytes.
#[derive(Clone, Copy, Debug, PartialEq, Eq, Error)]
pub enum Unhexed {
    #[error("an even number of hexadecimal digits should stand behind the word")]
    Garbled,
    #[error("no memory to read it; report again")]
    NoMemory,
}

impl<T: Drop> From<AllocFailed<T>> for Unhexed {
    ghost from_gives = { λ _ e. e ≡ NoMemory };

    fn from(_e: AllocFailed<T>) -> Unhexed {
        Unhexed::NoMemory
    }
}

// A byte by its two digits.
fn byte_of(high: u8, low: u8) -> Option<u8>
    ensures { MatchOption result ((bs ts : List ℕ) → hex_on bs first (high ∷ low ∷ ts) ≡ garbled) (λ b. (bs ts : List ℕ) → hex_on bs first (high ∷ low ∷ ts) ≡ hex_on (bs ++ (b ∷ [])) first ts) }
{
    let high = (high as char).to_digit(16)?;
    let low = (low as char).to_digit(16)?;
    Some((high * 16 + low) as u8)
}

// The bytes that digits say, if they do.
pub fn bytes_of(heap: Global, text: &[u8]) -> Result<Vec<u8>, Unhexed>
    ensures { UnhexedAs (hex_on [] first text.now) result }
{
    let mut bytes = Vec::new(heap);
    for pair in text.chunks_exact(2) {
        let byte = byte_of(pair[0], pair[1]).ok_or(Unhexed::Garbled)?;
        bytes.push(byte)?;
    }
    if text.len() % 2 != 0 {
        return Err(Unhexed::Garbled);
    }
    Ok(bytes)
}

// A number in decimal digits and nothing else.
pub fn decimal(text: &[u8]) -> Option<u64>
    ensures { number_in result ≡ decimal_on garbled text.now }
{
    let mut number = None;
    for c in text {
        number = Some(more(number, *c)?);
    }
    number
}

fn task(digits: &[u8]) -> Option<TaskId>
    ensures { MatchOption result (decimal_on garbled digits.now ≡ garbled) (λ t. TaskIn digits.now t.0) }
{
    decimal(digits).map(TaskId)
}

// What a line says, if it says something.
pub fn meaning(line: &[u8]) -> Option<Said<'_>>
    ensures { SaidAs line.now result }
{
    if line == b"report".as_slice() {
        return Some(Said::Report);
    }
    if let Some(digits) = line.strip_prefix(b"answer ") {
        return Some(Said::Answer(digits));
    }
    if let Some(digits) = line.strip_prefix(b"ready ") {
        return Some(Said::Ready(task(digits)?));
    }
    let digits = line.strip_prefix(b"dies ")?;
    Some(Said::Dies(task(digits)?))
}
