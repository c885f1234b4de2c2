// The struct by itself, as the specs that its methods cite name it.
ghost use Rattle.std.specs.Prelude.{◌≤◌, vec_len};

use tickets::{Ticket, TiedYes};
use wishes::Wish;

/// What is shown to the house for a wish: a ticket, and up to 32 yeses tied to it.
#[derive(Drop)]
pub struct Shown {
    pub wish: Wish,
    pub ticket: Ticket,
    pub yeses: Vec<TiedYes>,
    ghost few: { vec_len yeses ≤ 32 },
}
