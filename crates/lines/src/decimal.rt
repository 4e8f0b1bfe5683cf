// Numbers in decimal digits.
ghost use Rattle.lines.specs.Digits.{More};

// A number with one digit more, where this is a digit and there is room for it; of none, the first digit.
pub fn more(before: Option<u64>, c: u8) -> Option<u64>
    ensures { More before c result }
{
    let digit = (c as char).to_digit(10)?;
    let tens = before.unwrap_or(0).checked_mul(10)?;
    tens.checked_add(u64::from(digit))
}
