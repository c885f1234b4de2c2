// HMAC-SHA-256 (RFC 2104) under keys of 32 bytes, of messages of every length.
// The contracts pin each result by the definition of specs/Hmac.antt, over that of SHA-256 in the crate `sha256`.
#![tactic(auto)]

ghost use Rattle.std.specs.Prelude.{◌≡◌, ℕ, List, ◌∷◌, Decides};
ghost use Rattle.hmac.specs.Hmac.{hmac_of};
ghost use Rattle.hmac.specs.Keyed.{Keyed};
ghost use Rattle.hmac.specs.Midstates.{mac_from};

pub mod midstates;

use midstates::{INNER, OUTER, midstate};
use sha256::words::from_bytes;
use std::fmt;

// A MAC, which is the key of further MACs too.
#[derive(Clone, Copy)]
pub struct Mac {
    bytes: [u8; 32],
}

impl Mac {
    pub fn new(bytes: [u8; 32]) -> Mac
        ensures { result.bytes ≡ bytes }
    {
        Self { bytes }
    }

    pub fn bytes(self) -> [u8; 32]
        ensures { result ≡ self.bytes }
    {
        self.bytes
    }

    // The MAC of a message under this one.
    pub fn mac(self, message: &[u8]) -> Mac
        ensures { result.bytes ≡ hmac_of self.bytes message.now }
    {
        Key::new(self).mac(message)
    }

    // The MAC of the byte 3 and then another MAC, under this one.
    pub fn tie(self, other: Mac) -> Mac
        ensures { result.bytes ≡ hmac_of self.bytes (3 ∷ other.bytes) }
    {
        let mut message = [3; 33];
        message[1..33].copy_from_slice(&other.bytes);
        self.mac(&message)
    }

    // Whether the two are equal. It is no derived `==`: it reads all 32 bytes of both, whatever they are, so that its time tells
    // nothing of where they differ.
    pub fn same(self, other: Mac) -> bool
        ensures { Decides result (self.bytes ≡ other.bytes) }
    {
        let pairs = self.bytes.iter().zip(&other.bytes);
        pairs.fold(0, |differing, (a, b)| differing | (*a ^ *b)) == 0
    }
}

// By hand, as a derive would print the bytes, which are secret.
impl fmt::Debug for Mac {
    fn fmt<W: fmt::Write>(&self, f: &mut fmt::Formatter<W>) -> fmt::Result {
        f.write_str("Mac(..)")
    }
}

// A key that serves many messages: the hash values after its inner and its outer block, so that a MAC under it costs two blocks less.
#[derive(Clone, Copy)]
pub struct Key {
    inner: [u32; 8],
    outer: [u32; 8],
}

impl Key {
    pub fn new(key: Mac) -> Key
        ensures { Keyed key.bytes result }
    {
        let words = from_bytes(key.bytes);
        let inner = midstate(words, INNER);
        let outer = midstate(words, OUTER);
        Key { inner, outer }
    }

    // The MAC of a message under the key that this was made of.
    pub fn mac(self, message: &[u8]) -> Mac
        ensures value { result.bytes ≡ mac_from self.inner self.outer message.now }
        ensures keyed { (key : List ℕ) → Keyed key self → result.bytes ≡ hmac_of key message.now }
    {
        Mac::new(midstates::mac_from(self.inner, self.outer, message))
    }
}

// By hand, for the same reason.
impl fmt::Debug for Key {
    fn fmt<W: fmt::Write>(&self, f: &mut fmt::Formatter<W>) -> fmt::Result {
        f.write_str("Key(..)")
    }
}
