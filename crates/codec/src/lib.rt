// All that is passed from hand to hand, in bytes: tickets, yeses, tied yeses and keys. The formats stand in specs/Things.antt.
#![tactic(auto)]

ghost use Rattle.codec.specs.Laws.{FormatsExact};
ghost use Rattle.codec.specs.Whole.{Reads, LeftOver};
ghost use Rattle.std.specs.Prelude.{◌≡◌, ◌⊎◌, [], Err, MatchResult};

mod bodies;
mod coded;
mod fields;
mod kind;
mod kinds;

pub use coded::{Coded, write_all};
pub use fields::read_kind;
pub use kind::Kind;
use lines::Fault;
use rows::Reader;

/// Reads what these bytes are as a whole. Bytes left over are the fault `Shape`.
pub fn from_bytes<T: Coded + Drop>(bytes: &[u8]) -> Result<T, Fault>
    ensures { MatchResult result
        (λ x. Reads T.format T.view bytes.now x [])
        (λ f. (T.format.read bytes.now ≡ Err f) ⊎ LeftOver (Reads T.format T.view) bytes.now f) }
{
    let mut reader = Reader::new(bytes);
    let value = T::read(&mut reader)?;
    if !reader.is_empty() {
        return Err(Fault::Shape);
    }
    Ok(value)
}

/// What is written is read back, and only that; and a thing that is cut short, or has bytes left over, has fault 1.
pub fn formats_exact()
    ensures { FormatsExact }
{}
