// Why something could not be read, where memory may be wanting.
#![tactic(auto)]

ghost use Rattle.std.specs.Prelude.{◌≡◌};
ghost use Rattle.trouble.specs.declared.Trouble.TheVariants.{NoMemory};

use std::alloc::{AllocError, AllocFailed};

/// A cause, or want of memory.
// One impl for every cause would overlap with those of the allocator's errors, so that each kind of cause has its own, beside it.
#[derive(Clone, Copy, PartialEq, Eq, Debug)]
pub enum Trouble<C> {
    Unreadable(C),
    NoMemory,
}

impl<C> From<AllocError> for Trouble<C> {
    ghost from_gives = { λ _ t. t ≡ NoMemory };

    fn from(_error: AllocError) -> Trouble<C> {
        Trouble::NoMemory
    }
}

impl<C, T: Drop> From<AllocFailed<T>> for Trouble<C> {
    ghost from_gives = { λ _ t. t ≡ NoMemory };

    fn from(_refused: AllocFailed<T>) -> Trouble<C> {
        Trouble::NoMemory
    }
}
