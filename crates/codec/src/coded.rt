// What has a format.
ghost use Rattle.codec.specs.Format.{Format, write_several};
ghost use Rattle.codec.specs.Whole.{Appends};
ghost use Rattle.rows.specs.Due.{ReadAs};
ghost use Rattle.std.specs.Prelude.{◌≡◌, map, IfOk};

use lines::Fault;
use rows::Reader;
use std::alloc::{AllocError, Global};

/// It is read from the front of what a reader has left, and written.
pub trait Coded {
    // the type that it has in the model
    ghost View: { Type 0 };

    // what it is there
    ghost view: { Self → View };

    // how that is written and read
    ghost format: { Format View };

    /// After a fault the reader stands anywhere behind where it stood.
    fn read(reader: &mut Reader<'_>) -> Result<Self, Fault>
    where
        Self: Sized,
        ensures { ReadAs format.read view reader.old.rest.now result reader.new.rest.now };

    /// Puts its bytes behind what is there. Where memory runs out, a part of them may be.
    fn write(&self, out: &mut Vec<u8>) -> Result<(), AllocError>
        ensures { Appends (format.write (view self.now)) out.old.items result out.new.items };

    final fn to_bytes(&self, heap: Global) -> Result<Vec<u8>, AllocError>
        ensures { IfOk result (λ v. v.items ≡ format.write (view self.now)) }
    {
        let mut out = Vec::new(heap);
        self.write(&mut out)?;
        Ok(out)
    }
}

/// Puts the bytes of each behind what is there, one after the other.
pub fn write_all<T: Coded>(out: &mut Vec<u8>, things: &[T]) -> Result<(), AllocError>
    ensures { Appends (write_several T.format.write (map T.view things.now)) out.old.items result out.new.items }
{
    for thing in things {
        thing.write(out)?;
    }
    Ok(())
}
