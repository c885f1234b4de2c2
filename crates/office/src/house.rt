// The house that a script opens.
ghost use Rattle.std.specs.Prelude.{◌≡◌, map};
ghost use Rattle.office.specs.Opened.{opened, key_of};
ghost use Rattle.script.specs.Views.{numbered};
ghost use Rattle.std.specs.Option.{option_map};

use hmac::Mac;
use script::{Numbered, Statement};
use seeds::house_key;

/// The house as far as it is played: its own key.
#[derive(Clone, Copy)]
pub struct House {
    key: Mac,
}

/// Opens the house by the script's first statement; none where there is no statement.
pub fn open(statements: &[Numbered]) -> Option<House>
    ensures { option_map key_of result ≡ opened (map numbered statements.now) }
{
    let Statement::House(seed) = &statements.first()?.statement;
    Some(House {
        key: house_key(seed.as_str()),
    })
}
