// Numbers that stand at a place in bytes, of any of the widths that there are.
ghost use Rattle.std.specs.Prelude.{◌≡◌, ℕ, ◌+◌, ◌*◌, ◌/◌, ◌^◌, ◌<◌, ◌≤◌, length, take};
ghost use Rattle.std.proofs.Common.{rules};
ghost use Rattle.model.specs.Wire.{field, tags_in_lem};

use crate::number::value;

// A number of so many bytes.
pub trait Number: Copy {
    ghost WIDTH: { ℕ };

    const WIDTH: usize;

    // The number that it is.
    ghost num: { Self → ℕ };

    // The number, if it fits.
    fn narrow(n: u64) -> Self
        requires { n < 256 ^ WIDTH }
        ensures { num result ≡ n };

    fn widen(self) -> u64
        ensures { result ≡ num self };

    ghost few: { WIDTH ≤ 8 };
}

impl Number for u16 {
    ghost WIDTH = { 2 };

    const WIDTH: usize = 2;

    ghost num = { λ n. n };

    fn narrow(n: u64) -> u16 {
        n as u16
    }

    fn widen(self) -> u64 {
        u64::from(self)
    }

    ghost few = { Prim.search rules };
}

impl Number for u32 {
    ghost WIDTH = { 4 };

    const WIDTH: usize = 4;

    ghost num = { λ n. n };

    fn narrow(n: u64) -> u32 {
        n as u32
    }

    fn widen(self) -> u64 {
        u64::from(self)
    }

    ghost few = { Prim.search rules };
}

impl Number for u64 {
    ghost WIDTH = { 8 };

    const WIDTH: usize = 8;

    ghost num = { λ n. n };

    fn narrow(n: u64) -> u64 {
        n
    }

    fn widen(self) -> u64 {
        self
    }

    ghost few = { Prim.search rules };
}

// The number that stands there.
pub fn number_at<T: Number>(bytes: &[u8], at: usize) -> T
    requires { at + T.WIDTH ≤ length bytes.now }
    ensures { T.num result ≡ field T.WIDTH at bytes.now }
{
    T::narrow(value(&bytes[at..at + T::WIDTH]))
}

// Reads numbers of four bytes, one behind the other, into the front; what stands behind them doesn't count.
pub fn fill(out: &mut [u32], bytes: &[u8])
    requires { length bytes.now / 4 ≤ length out.old }
    ensures numbers { take (length bytes.now / 4) out.new ≡ tags_in_lem (length bytes.now / 4) bytes.now }
    ensures long { length out.new ≡ length out.old }
{
    for (i, piece) in bytes.chunks_exact(4).enumerate() {
        out[i] = number_at(piece, 0);
    }
}

// Such numbers, as many as there is room for; behind them zeros.
pub fn filled<const N: usize>(bytes: &[u8]) -> [u32; N]
    requires { length bytes.now / 4 ≤ N }
    ensures { take (length bytes.now / 4) result ≡ tags_in_lem (length bytes.now / 4) bytes.now }
{
    let mut numbers = [0; N];
    fill(&mut numbers, bytes);
    numbers
}
