// A wish, as it was read and as it can be.
ghost use Rattle.std.specs.Prelude.{◌≡◌, ◌≤◌, true};
ghost use Rattle.parts.specs.Limits.{is_museum, within};

use parts::Name;

/// What somebody asks to be let through for, in range.
#[derive(Clone, Copy)]
pub struct Wish {
    /// 1 to 200.
    pub museum: u8,
    /// From 1 on.
    pub day: u16,
    /// The minute of the day, 0 to 1439.
    pub minute: u16,
    /// 1 to 200.
    pub persons: u8,
    /// Of the one who asks.
    pub name: Name,
    ghost museum_is: { is_museum museum ≡ true },
    ghost day_is: { 1 ≤ day },
    ghost minute_is: { minute ≤ 1439 },
    ghost persons_are: { within 1 200 persons ≡ true },
}

/// A wish as it was read, which may be out of range.
#[derive(Clone, Copy)]
pub struct RawWish<'a> {
    pub museum: u8,
    pub day: u16,
    pub minute: u16,
    pub persons: u8,
    pub name: &'a [u8],
}
