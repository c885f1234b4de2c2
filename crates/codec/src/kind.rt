// What the first byte of a thing tells.

/// The kinds of things, each with its first byte. That of a wish, 21, stands in the crate `wishes`, which knows of no other.
/// They are cast (`Kind::Yes as u8`): that is a constant, where a `From` would be a call with a contract of its own at each place.
#[derive(Clone, Copy, PartialEq, Eq, Debug)]
pub enum Kind {
    Ticket = 16,
    Yes = 17,
    Tied = 18,
    Passed = 19,
    Key = 20,
    Shown = 22,
    Book = 23,
}
