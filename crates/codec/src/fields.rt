// What things are made of: their kind, the number of a key, a MAC.
ghost use Rattle.std.specs.Prelude.{◌≡◌, ℕ, List, ◌∷◌, MatchResult, ◌≢◌};
ghost use Rattle.codec.specs.Things.{key_number, mac};
ghost use Rattle.lines.specs.declared.Fault.TheVariants.{Shape};
ghost use Rattle.narrow.specs.Term.{Bytes};

use crate::coded::Coded;
use hmac::Mac;
use lines::{Fault, KeyNumber};
use numbers::Number;
use rows::Reader;
use std::alloc::AllocError;

/// The kind that is looked for, and no other. It is a `u8`, as a crate above may have a kind of its own,
/// which a `Kind` here would shut out.
pub fn read_kind(reader: &mut Reader<'_>, kind: u8) -> Result<(), Fault>
    ensures { MatchResult result
        (λ _. reader.old.rest.now ≡ kind ∷ reader.new.rest.now)
        (λ f. (f ≡ Shape) × ((rest : List ℕ) → reader.old.rest.now ≢ kind ∷ rest)) }
{
    let found = reader.byte().ok_or(Fault::Shape)?;
    if found != kind {
        return Err(Fault::Shape);
    }
    Ok(())
}

impl Coded for KeyNumber {
    ghost View = { ℕ };

    ghost view = { λ k. k.number };

    ghost format = { key_number };

    fn read(reader: &mut Reader<'_>) -> Result<KeyNumber, Fault> {
        let number = reader.number().ok_or(Fault::Shape)?;
        KeyNumber::new(number).ok_or(Fault::Unreadable)
    }

    fn write(&self, out: &mut Vec<u8>) -> Result<(), AllocError> {
        out.extend_from_slice(&self.get().to_bytes())
    }
}

impl Coded for Mac {
    ghost View = { Bytes };

    ghost view = { λ m. m.bytes };

    ghost format = { mac };

    fn read(reader: &mut Reader<'_>) -> Result<Mac, Fault> {
        let part = reader.part(32).ok_or(Fault::Shape)?;
        Ok(Mac::new(*part.first_chunk().unwrap()))
    }

    fn write(&self, out: &mut Vec<u8>) -> Result<(), AllocError> {
        out.extend_from_slice(&self.bytes())
    }
}
