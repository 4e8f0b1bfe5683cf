// What is shown of lines, each on the contract of a small function.
ghost use Rattle.model.specs.Lines.{LinesSaySo, NoCallNoChange};
ghost use Rattle.model.specs.Memory.{RightIsRight};
ghost use Rattle.model.proofs.Runs.{right_is_right_lem};
ghost use Rattle.lines.specs.Shown.{Shown};
ghost use Rattle.lines.specs.Text.{HexBack};

// Bytes that are a call are answered as the call means, where its kind is built, and by 12 otherwise.
pub fn lines_say_so() -> u8
    ensures { LinesSaySo }
{
    0
}

// Bytes that are no call change nothing.
pub fn no_call_no_change() -> u8
    ensures { NoCallNoChange }
{
    0
}

// Of every run of right code, what happened may happen.
pub fn right_is_right() -> u8
    ensures { Shown RightIsRight right_is_right_lem }
{
    0
}

// Bytes in hexadecimal are read as they were written.
pub fn hex_back() -> u8
    ensures { HexBack }
{
    0
}
