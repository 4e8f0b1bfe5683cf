// Numbers as bytes, high byte first, over any width of up to eight.
ghost use Rattle.std.specs.Prelude.{◌≡◌, ◌^◌, ◌<◌, ◌≤◌, length};
ghost use Rattle.model.specs.Wire.{bytes_of, value_of};

// The number that these bytes are.
pub fn value(bytes: &[u8]) -> u64
    requires { length bytes.now ≤ 8 }
    ensures value { result ≡ value_of bytes.now }
    ensures bound { result < 256 ^ length bytes.now }
{
    let mut n: u64 = 0;
    for b in bytes {
        n = n * 256 + u64::from(*b);
    }
    n
}

// Writes the low bytes of a number, as many as there is room for.
pub fn put(out: &mut [u8], number: u64)
    ensures { out.new ≡ bytes_of (length out.old) number }
{
    let mut n = number;
    // By index: what a reversed `iter_mut` leaves in the slice was tried, and its proof did not close.
    for i in (0..out.len()).rev() {
        out[i] = (n % 256) as u8;
        n /= 256;
    }
}
