// What is shown, written.
ghost use Rattle.showing.specs.Showing.{shown};
ghost use Rattle.showing.specs.Views.{shown_view};
ghost use Rattle.std.specs.Prelude.{◌≡◌, IfOk};
ghost use Rattle.wishes.specs.Format.{wish_bytes};
ghost use Rattle.wishes.specs.Views.{wish_view};

use crate::shown::Shown;
use codec::{Coded, Kind, write_all};
use std::alloc::{AllocError, Global};
use wishes::Wish;

// It is read with a heap, so it is no `Coded`; a trait for writing alone would save these two lines here and in the book.
impl Shown {
    pub fn to_bytes(&self, heap: Global) -> Result<Vec<u8>, AllocError>
        ensures { IfOk result (λ v. v.items ≡ shown.write (shown_view self.now)) }
    {
        let mut out = Vec::new(heap);
        out.push(Kind::Shown as u8)?;
        out.extend_from_slice(wish_bytes(heap, self.wish)?.as_slice())?;
        self.ticket.write(&mut out)?;
        // That the count fits a byte is proved (`few`), so that it is cast.
        out.push(self.yeses.len() as u8)?;
        write_all(&mut out, self.yeses.as_slice())?;
        Ok(out)
    }
}

fn wish_bytes(heap: Global, wish: Wish) -> Result<Vec<u8>, AllocError>
    ensures { IfOk result (λ v. v.items ≡ wish_bytes (wish_view wish)) }
{
    let mut out = vec![in heap; 0; wish.len()]?;
    // It fits, as this is just its room.
    wish.write(out.as_mut_slice()).unwrap();
    Ok(out)
}
