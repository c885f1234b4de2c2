// What the words after the program's name ask for.
ghost use Rattle.std.specs.Prelude.{◌≡◌, map, string_bytes};
ghost use Rattle.office.specs.Ends.{asked_by};

use crate::reasons::Reason;

#[derive(Clone, Copy, PartialEq, Eq, Debug)]
pub enum Asked {
    Play,
    Help,
}

pub fn read_arguments(args: &[String]) -> Result<Asked, Reason>
    ensures { result ≡ asked_by (map string_bytes args.now) }
{
    match args {
        [] => Ok(Asked::Play),
        [only] if only.as_str() == "--help" => Ok(Asked::Help),
        _ => Err(Reason::Argument),
    }
}
