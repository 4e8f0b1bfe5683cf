// One character more of a line of text.
ghost use Rattle.std.specs.Prelude.{◌≡◌, ℕ, cond, List, ◌∷◌, ◌++◌, ◌==◌};
ghost use Rattle.lines.specs.Resume.{list_in, resume};
ghost use Rattle.lines.specs.Digits.{Digit};

use crate::decimal::more;
use crate::stage::{Nibble, Stage};

// Where the reading stands then, and the byte that is read with it, if one is.
#[derive(Clone, Copy)]
pub struct Step {
    pub stage: Stage,
    pub byte: Option<u8>,
}

// A hexadecimal digit.
fn nibble(c: u8) -> Option<Nibble>
    ensures { Digit c result }
{
    let digit = (c as char).to_digit(16)?;
    Some(Nibble { value: digit as u8 })
}

// The next letter of a word.
fn letter(c: u8, wanted: u8, then: Stage) -> Stage
    ensures { result ≡ cond (wanted == c) then Stage.Bad }
{
    if c == wanted { then } else { Stage::Bad }
}

// The first letter.
fn begin(c: u8) -> Stage
    ensures { (bs ts : List ℕ) → resume result bs ts ≡ resume Stage.Start bs (c ∷ ts) }
{
    if c == b'i' {
        Stage::I
    } else {
        letter(c, b't', Stage::T)
    }
}

// The first digit of a byte.
fn high(c: u8) -> Stage
    ensures { (bs ts : List ℕ) → resume result bs ts ≡ resume Stage.High bs (c ∷ ts) }
{
    match nibble(c) {
        Some(high) => Stage::Low(high),
        None => Stage::Bad,
    }
}

// The second digit of a byte, which is then read.
fn low(high: Nibble, c: u8) -> Step
    ensures { (bs ts : List ℕ) → resume result.stage (bs ++ list_in result.byte) ts ≡ resume (Stage.Low high) bs (c ∷ ts) }
{
    match nibble(c) {
        Some(low) => Step {
            stage: Stage::High,
            byte: Some(high.value * 16 + low.value),
        },
        None => Step {
            stage: Stage::Bad,
            byte: None,
        },
    }
}

// A digit of the time, where there is room for it.
fn clock(before: Option<u64>, c: u8) -> Stage
    ensures { (bs ts : List ℕ) → resume result bs ts ≡ resume (Stage.Clock before) bs (c ∷ ts) }
{
    match more(before, c) {
        Some(n) => Stage::Clock(Some(n)),
        None => Stage::Bad,
    }
}

// What one character does. (A match over stages, by a rule of the project.)
pub fn next(stage: Stage, c: u8) -> Step
    ensures { (bs ts : List ℕ) → resume result.stage (bs ++ list_in result.byte) ts ≡ resume stage bs (c ∷ ts) }
{
    let stage = match stage {
        Stage::Start => begin(c),
        Stage::I => letter(c, b'n', Stage::In),
        Stage::In => letter(c, b' ', Stage::High),
        Stage::T => letter(c, b'i', Stage::Ti),
        Stage::Ti => letter(c, b'm', Stage::Tim),
        Stage::Tim => letter(c, b'e', Stage::Time),
        Stage::Time => letter(c, b' ', Stage::Clock(None)),
        Stage::High => high(c),
        Stage::Low(first) => return low(first, c),
        Stage::Clock(before) => clock(before, c),
        Stage::Bad => Stage::Bad,
    };
    Step { stage, byte: None }
}
