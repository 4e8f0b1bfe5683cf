// A name as it came, as a value.
ghost use Rattle.std.specs.Prelude.{◌≡◌};
ghost use Rattle.calls.specs.Wanted.{NamedAs};

use jobs::name::Name;
use jobs::packing::name_of_bytes;

// The name that these bytes are, if they are neither none nor too many.
pub fn name_of(bytes: &[u8]) -> Option<Name>
    ensures { NamedAs bytes.now result }
{
    if bytes.is_empty() {
        return None;
    }
    name_of_bytes(bytes)
}
