// Outside vectors for SHA-256 and HMAC-SHA-256, and the answers of another implementation at lengths around the block's edges.
#![tactic(auto)]

ghost use Rattle.hmac.specs.Hmac.{hmac_of};
ghost use Rattle.sha256.specs.Sha256.{sha256};
ghost use Rattle.hmac_cases.specs.Vectors.{abc, abc_digest, jefe, question, answer};
ghost use Rattle.std.specs.Prelude.{◌≡◌};

// The definitions themselves give the digest of "abc" (FIPS 180-4) and test case 2 of RFC 4231.
pub fn definitions_stand()
    ensures digest { sha256 abc ≡ abc_digest }
    ensures mac { hmac_of jefe question ≡ answer }
{}

#[cfg(test)]
mod tables;
#[cfg(test)]
mod tests;
