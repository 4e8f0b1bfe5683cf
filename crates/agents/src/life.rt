// The file `life`: the agent's life as eight bytes, twice. A part of it, or two writings mixed, is no other life.
ghost use Rattle.std.specs.Prelude.{◌≡◌, Ok};
ghost use Rattle.model.specs.Wire.{meant};
ghost use Rattle.agents.specs.LifeFile.{Reads, Rises, life_bytes_lem, read_life_lem};

use jobs::ids::{LAST, Life};
use octets::field::number_at;

// Why an agent may not come up.
#[derive(Clone, Copy, Debug, PartialEq, Eq)]
pub enum Unfit {
    Damaged,
    Last,
}

// The life that these bytes of the file say, if they are whole.
fn read_life(bytes: &[u8]) -> Option<Life>
    ensures { Reads (read_life_lem bytes.now) result }
{
    if bytes.len() != 16 {
        return None;
    }
    let life = number_at::<u64>(bytes, 0);
    if life != number_at(bytes, 8) || life == 0 || life > LAST {
        return None;
    }
    Some(Life(life))
}

// The bytes of the file.
pub fn life_bytes(life: Life) -> [u8; 16]
    ensures { result ≡ life_bytes_lem life.0 }
{
    let [a, b, c, d, e, f, g, h] = life.0.to_be_bytes();
    [a, b, c, d, e, f, g, h, a, b, c, d, e, f, g, h]
}

// The life to come up with where there is no file.
pub fn first_life() -> Life
    ensures { Rises (meant 0) (Ok result) }
{
    Life(1)
}

// The life to come up with, by the file.
pub fn next_life(file: &[u8]) -> Result<Life, Unfit>
    ensures { Rises (read_life_lem file.now) result }
{
    let last = read_life(file).ok_or(Unfit::Damaged)?;
    if last.0 >= LAST {
        return Err(Unfit::Last);
    }
    Ok(Life(last.0 + 1))
}
