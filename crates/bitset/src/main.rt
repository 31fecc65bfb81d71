//! The program `bitset`: it replies to the command lines on its standard input.
#![tactic(auto)]

ghost use Rattle.std.specs.Prelude.{◌≡◌, IfOk, drop};
ghost use Rattle.std.specs.Vec.Iter.{into_iter_items};
ghost use Rattle.std.specs.Process.{exit_status};

use bit_set_run::{Exit, LinesFault, start};
use std::alloc::{AllocError, Global};
use std::env::Args;
use std::process::ExitCode;
use std::{env, io};

// The arguments after the program's name, which is the first.
fn after_name(alloc: Global, args: Args) -> Result<Vec<String>, AllocError>
    ensures { IfOk result (λ words. words.items ≡ drop 1 (into_iter_items args)) }
{
    args.skip(1).collect(alloc)
}

fn words(rt: &HostRuntime) -> io::Result<Vec<String>> {
    Ok(after_name(rt.alloc(), env::args(rt)?)?)
}

// The code of an exit is its status.
fn code_of(exit: Exit) -> ExitCode
    ensures { exit_status result ≡ exit.status }
{
    ExitCode::from(exit.status)
}

fn main(rt: HostRuntime) -> ExitCode {
    let exit = match words(&rt) {
        Ok(words) => start(rt.alloc(), &words, &mut rt.stdin(), &mut rt.stdout()),
        Err(_) => Exit::of(Err(LinesFault::Memory)),
    };
    if !exit.text.is_empty() {
        // There is nowhere left to say that standard error is closed.
        let _ = rt.eprintln(exit.text);
    }
    code_of(exit)
}
