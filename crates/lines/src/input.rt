// What comes in, piece by piece, to its end. Nothing says that there is an end, and each function must have one: so tries are counted,
// and the last of them is an error.
ghost use Rattle.std.specs.Prelude.{◌≡◌, ◌<◌, Ok, length, IfOk, OnErr, OnOk};
ghost use Rattle.std.specs.Fn.{CalledAt};
ghost use Rattle.std.specs.Io.KnownBytes.{Consumes, IsAtEnd, Keeps};
ghost use Rattle.lines.specs.Input.{HandedOn};

use std::io;
use std::io::{ErrorKind, Read};

// How much is read at once.
const CHUNK: usize = 16384;

// The next bytes, as many as there is room for; none at the end. A read that a signal cut short is tried again.
pub fn next_bytes<'a, R: Read>(input: &mut R, chunk: &'a mut [u8]) -> io::Result<&'a [u8]>
    ensures bytes { IfOk result (λ bs. Consumes (R.remaining input.old) (R.remaining input.new) bs.now) }
    ensures end { IfOk result (λ bs. length bs.now ≡ 0 → 0 < length chunk.old → IsAtEnd (R.remaining input.new)) }
    ensures err { OnErr result (Keeps (R.remaining input.old) (R.remaining input.new)) }
{
    for _ in 0..u64::MAX {
        match input.read(chunk) {
            Ok(n) => return Ok(&chunk[..n]),
            Err(e) => {
                if e.kind() != ErrorKind::Interrupted {
                    return Err(e);
                }
            }
        }
    }
    Err(io::Error::from(ErrorKind::Interrupted))
}

// Hands on each piece that comes, to the end.
pub fn each_piece<R: Read, F: FnMut(&[u8]) -> io::Result<()>>(
    input: &mut R,
    mut hand: F,
) -> io::Result<()>
    requires { F.IsAlwaysCallable hand }
    ensures handed { OnOk result ((last : F) × HandedOn (λ p x q. CalledAt F.FnMut p x (Ok tt) q) hand last (R.remaining input.old) (R.remaining input.new)) }
    ensures end { OnOk result (IsAtEnd (R.remaining input.new)) }
{
    let mut chunk = [0u8; CHUNK];
    for _ in 0..u64::MAX {
        let piece = next_bytes(input, &mut chunk)?;
        if piece.is_empty() {
            return Ok(());
        }
        hand(piece)?;
    }
    Err(io::Error::from(ErrorKind::Interrupted))
}
