// Numbers, names and tags, each pushed behind the bytes that are there.
ghost use Rattle.std.specs.Prelude.{◌≡◌, ◌/◌, ◌≤◌, ◌++◌, length, OnErr, OnOk};
ghost use Rattle.model.specs.Wire.{bytes_of, name_bytes};
ghost use Rattle.wire.specs.Pushed.{PushesTags};

use octets::field::Number;
use std::alloc::AllocError;

// A number of any width.
pub fn push_number<T: Number>(bytes: &mut Vec<u8>, n: T) -> Result<(), AllocError>
    ensures ok { OnOk result (bytes.new.items ≡ bytes.old.items ++ bytes_of T.WIDTH (T.num n)) }
    ensures err { OnErr result (bytes.new.items ≡ bytes.old.items) }
{
    let all = n.widen().to_be_bytes();
    bytes.extend_from_slice(&all[8 - T::WIDTH..])
}

// A name behind its length.
pub(crate) fn push_name(bytes: &mut Vec<u8>, name: &[u8]) -> Result<(), AllocError>
    requires { length name.now ≤ 255 }
    ensures { OnOk result (bytes.new.items ≡ bytes.old.items ++ name_bytes name.now) }
{
    bytes.push(name.len() as u8)?;
    bytes.extend_from_slice(name)
}

// Tags behind their number, four bytes each; a part of one behind the last is none.
pub(crate) fn push_tags(bytes: &mut Vec<u8>, tags: &[u8]) -> Result<(), AllocError>
    requires { length tags.now / 4 ≤ 255 }
    ensures { OnOk result (PushesTags tags.now bytes.old.items bytes.new.items) }
{
    let count = tags.len() / 4;
    bytes.push(count as u8)?;
    bytes.extend_from_slice(&tags[..4 * count])?;
    Ok(())
}
