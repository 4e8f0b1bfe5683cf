// What answers are made of, as bytes, each behind what is written already.
// No struct joins `out` and `at`: it would hold a `&mut`, and each function would have to state that it is still that one.
ghost use Rattle.std.specs.Prelude.{◌≡◌, ◌+◌, ◌*◌, ◌≤◌, [], ◌∷◌, length};
ghost use Rattle.model.specs.Wire.{bytes_of, flag_of, spec_bytes, tag_bytes};
ghost use Rattle.jobs.specs.Values.{spec_of};
ghost use Rattle.lines.specs.Puts.{Puts};

use jobs::spec::Spec;
use octets::field::Number;
use octets::number::put;

pub fn put_u8(out: &mut [u8], at: usize, n: u8) -> usize
    requires { at + 1 ≤ length out.old }
    ensures bytes { Puts (n ∷ []) out.old out.new at result }
    ensures end { result ≡ at + 1 }
{
    out[at] = n;
    at + 1
}

// A number of any width.
pub fn put_number<T: Number>(out: &mut [u8], at: usize, n: T) -> usize
    requires { at + T.WIDTH ≤ length out.old }
    ensures bytes { Puts (bytes_of T.WIDTH (T.num n)) out.old out.new at result }
    ensures end { result ≡ at + T.WIDTH }
{
    let end = at + T::WIDTH;
    put(&mut out[at..end], n.widen());
    end
}

fn put_tags(out: &mut [u8], at: usize, tags: &[u32]) -> usize
    requires { at + 4 * length tags.now ≤ length out.old }
    ensures bytes { Puts (tag_bytes tags.now) out.old out.new at result }
    ensures end { result ≡ at + 4 * length tags.now }
{
    let mut end = at;
    for tag in tags {
        end = put_number(out, end, *tag);
    }
    end
}

// A spec, which takes 46 bytes at most.
pub fn put_spec(out: &mut [u8], at: usize, spec: &Spec) -> usize
    requires { at + 46 ≤ length out.old }
    ensures bytes { Puts (spec_bytes (spec_of spec.now)) out.old out.new at result }
    ensures few { result ≤ at + 46 }
{
    let end = put_number(out, at, spec.image);
    let end = put_number(out, end, spec.cpu);
    let end = put_number(out, end, spec.mem);
    let end = put_u8(out, end, spec.count);
    let end = put_tags(out, end, &spec.tags[..usize::from(spec.count)]);
    put_u8(out, end, u8::from(spec.apart))
}
