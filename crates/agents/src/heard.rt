// What an agent hears.
ghost use Rattle.std.specs.Prelude.{◌≤◌, vec_len};

use crate::head::Head;
use wire::reply::Order;

// An answer to a report: the report's head, and all that is to run.
#[derive(Drop)]
pub struct Run {
    pub head: Head,
    pub orders: Vec<Order>,
    ghost few: { vec_len orders ≤ 65535 },
}
