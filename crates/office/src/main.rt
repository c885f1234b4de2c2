// Plays a script from standard input. As yet it reads the script, and tells the first line that can't be read.
#![tactic(auto)]

mod arguments;
mod house;
mod reasons;

ghost use Rattle.std.specs.Prelude.{◌≡◌};
ghost use Rattle.office.specs.Ends.{end_of};

use arguments::{Asked, read_arguments};
use house::open;
use reasons::{Reason, of_arguments, of_input};
use script::{Script, read_script};
use std::process::ExitCode;
use std::{env, io};

const USAGE: &str = "usage: office < SCRIPT
Plays a script, a statement a line; # begins a comment.

    house SEED    all keys are worked out from this word";

fn main(rt: HostRuntime) -> ExitCode {
    match run(&rt) {
        Ok(()) => ExitCode::SUCCESS,
        Err(reason) => {
            let _ = rt.eprintln(reason);
            ExitCode::FAILURE
        }
    }
}

fn run(rt: &HostRuntime) -> Result<(), Reason> {
    let args = env::args(rt).map_err(|error| of_arguments(error.kind()))?;
    let args: Vec<String> = args.skip(1).collect(rt.alloc())?;
    match read_arguments(args.as_slice())? {
        Asked::Help => help(rt),
        Asked::Play => play(rt),
    }
}

fn help(rt: &HostRuntime) -> Result<(), Reason> {
    rt.println(USAGE).map_err(|_| Reason::Output)
}

fn play(rt: &HostRuntime) -> Result<(), Reason> {
    let heap = rt.alloc();
    let text = io::read_to_string(heap, rt.stdin()).map_err(|error| of_input(error.kind()))?;
    let script = read_script(heap, text.as_str())?;
    let _house = open(script.statements.as_slice());
    end(&script)
}

// How a script ends that was read.
fn end(script: &Script) -> Result<(), Reason>
    ensures { result ≡ end_of script.now.fault }
{
    match script.fault {
        None => Ok(()),
        Some(fault) => Err(Reason::Script(fault)),
    }
}
