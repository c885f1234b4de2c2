// The keys of a house that a script plays. All come from one word, so that a script plays the same each time; a real house draws its own.
#![tactic(auto)]

ghost use Rattle.seeds.specs.Keys.{house_key};
ghost use Rattle.std.specs.Prelude.{◌≡◌};

use hmac::Mac;

/// The house's own key, under which its tickets are made.
pub fn house_key(seed: &str) -> Mac
    ensures { result.bytes ≡ house_key seed.now }
{
    Mac::new(sha256::digest(seed.as_bytes())).mac(b"house")
}
