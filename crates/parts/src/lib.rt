// What lines and wishes are made of. Each type holds only what can be.
#![tactic(auto)]

ghost use Rattle.std.specs.Prelude.{◌≡◌, ◌<◌, ◌≤◌, true, false, MatchOption};
ghost use Rattle.parts.specs.Limits.{within};

mod short;

pub use short::Short;

/// 1 to 8 museums, each numbered from 1 to 200, in any order; one may stand twice.
pub type Museums = Short<1, 8, 1, 200>;

/// Up to 32 small letters, a to z.
pub type Name = Short<0, 32, b'a', b'z'>;

/// Numbers from one to another, both included.
#[derive(Clone, Copy, PartialEq, Eq, Debug)]
pub struct Span {
    pub from: u16,
    pub to: u16,
    ghost ordered: { from ≤ to },
}

/// The number of a key of yeses.
#[derive(Clone, Copy, PartialEq, Eq, Hash, Debug)]
pub struct KeyNumber {
    number: u16,
    ghost known: { number ≤ 4095 },
}

impl Span {
    /// `None` if it ends before it begins.
    pub fn new(from: u16, to: u16) -> Option<Span>
        ensures { MatchOption result (to < from) (λ s. (s.from ≡ from) × (s.to ≡ to)) }
    {
        if to < from {
            return None;
        }
        Some(Span { from, to })
    }

    pub fn contains(self, number: u16) -> bool
        ensures { result ≡ within self.from self.to number }
    {
        (self.from..=self.to).contains(&number)
    }
}

impl KeyNumber {
    /// `None` past 4095.
    pub fn new(number: u16) -> Option<KeyNumber>
        ensures { MatchOption result (4095 < number) (λ k. k.number ≡ number) }
    {
        if number > 4095 {
            return None;
        }
        Some(KeyNumber { number })
    }

    pub fn get(self) -> u16
        ensures { result ≡ self.number }
    {
        self.number
    }
}
