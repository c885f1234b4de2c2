// Reading from the front of a slice.
ghost use Rattle.rows.specs.Due.{TakesFront};
ghost use Rattle.std.specs.Prelude.{◌≡◌, [], ◌∷◌, length, IfSome, ◌==◌};

use numbers::Number;

/// What is left to read. A method that finds too little answers `None`, and reads nothing.
#[derive(Drop)]
pub struct Reader<'a> {
    rest: &'a [u8],
}

impl<'a> Reader<'a> {
    pub fn new(bytes: &'a [u8]) -> Reader<'a>
        ensures { result.rest.now ≡ bytes.now }
    {
        Reader { rest: bytes }
    }

    pub fn is_empty(&self) -> bool
        ensures { result ≡ (length self.now.rest.now == 0) }
    {
        self.rest.is_empty()
    }

    // An element needs no trait: the slice's own method takes it.
    pub fn byte(&mut self) -> Option<u8>
        ensures { TakesFront 1 (λ b. b ∷ []) self.old.rest.now result self.new.rest.now }
    {
        let (byte, rest) = self.rest.split_first()?;
        self.rest = rest;
        Some(*byte)
    }

    pub fn number<T: Number<N>, const N: usize>(&mut self) -> Option<T>
        ensures { TakesFront N T.bytes_of self.old.rest.now result self.new.rest.now }
    {
        let (number, rest) = numbers::read(self.rest)?;
        self.rest = rest;
        Some(number)
    }

    pub fn part(&mut self, size: usize) -> Option<&'a [u8]>
        ensures front { TakesFront size (λ p. p.now) self.old.rest.now result self.new.rest.now }
        ensures size { IfSome result (λ p. length p.now ≡ size) }
    {
        let (part, rest) = self.rest.split_at_checked(size)?;
        self.rest = rest;
        Some(part)
    }
}
