//! Each call that may find no memory, and those that take none: made on a state of its own, and what then holds,
//! compared with what may. `tests/refusals.sh` runs this with one request after another failing.
#![tactic(auto)]

mod asks;
mod changes;
mod failing_writers;
mod faults;
mod feed;
mod flow_problems;
mod groups;
mod json;
mod matrices;
mod plain;
mod runs;
mod state_machines;
mod states;
mod sweep;
mod tables;
mod users;

use bit_set::{BitBlock, JsonBlock};
use changes::{Change, Sets};
use faults::Fault;
use flow_problems::Problem;
use json::{Form, Forms};
use matrices::Matrices;
use plain::Moves;
use runs::Running;
use state_machines::Machines;
use std::env;
use std::process::ExitCode;
use sweep::Sweep;
use tables::{CHANGES, GROUPS, PLAIN};
use users::Users;

// The words after the program's name.
fn words(rt: &HostRuntime) -> Result<Vec<String>, Fault> {
    Ok(env::args(rt)?.skip(1).collect(rt.alloc())?)
}

// The calls that each type of blocks has, over one of them.
fn over<'a, B: BitBlock>(sweep: &mut Sweep<'a>, block: &'a str) {
    sweep.go_over(block, B::bits());
    sweep.over::<Change, Sets<B>>(CHANGES);
    sweep.over::<runs::Call, Running<B>>(runs::ROWS);
    sweep.over::<Change, Sets<B>>(GROUPS);
    sweep.over::<matrices::Call, Matrices<B>>(matrices::ROWS);
    sweep.over::<users::Call, Users<B>>(users::ROWS);
    sweep.over::<flow_problems::Call, Problem<B>>(flow_problems::ROWS);
    sweep.over::<state_machines::Call, Machines<B>>(state_machines::ROWS);
}

// Those and the calls of the JSON form.
fn over_with_json<'a, B: JsonBlock>(sweep: &mut Sweep<'a>, block: &'a str) {
    over::<B>(sweep, block);
    sweep.over::<Form, Forms<B>>(json::ROWS);
}

// Those and the calls that are over blocks of 32 bits alone.
fn over_plain(sweep: &mut Sweep<'_>) {
    over_with_json::<u32>(sweep, "u32");
    sweep.over::<Change, Sets<u32>>(PLAIN);
    sweep.over::<(), Moves>(plain::MOVES);
}

// The calls over the type of blocks of this name. Whether it names one.
fn over_named(sweep: &mut Sweep<'_>, block: &str) -> bool {
    match block {
        "u8" => over_with_json::<u8>(sweep, "u8"),
        "u32" => over_plain(sweep),
        "u64" => over_with_json::<u64>(sweep, "u64"),
        "u128" => over::<u128>(sweep, "u128"),
        _ => return false,
    }
    true
}

// Makes the call of this name, or all where there is none, over these types of blocks. The status after that, and 2
// where there is no such type.
fn swept_over(rt: &HostRuntime, name: Option<&str>, blocks: &[&str]) -> u8 {
    let mut sweep = Sweep::new(rt, name);
    for block in blocks {
        if !over_named(&mut sweep, block) {
            return 2;
        }
    }
    sweep.status()
}

// Makes the call that the words name, after its type of blocks, or all of them where there is no word. The status after
// that, and 2 where they name none.
fn swept(rt: &HostRuntime, words: &[String]) -> u8 {
    match words {
        [] => swept_over(rt, None, &["u8", "u32", "u64", "u128"]),
        [block, name] => swept_over(rt, Some(name.as_str()), &[block.as_str()]),
        _ => 2,
    }
}

fn main(rt: HostRuntime) -> ExitCode {
    match words(&rt) {
        Ok(words) => ExitCode::from(swept(&rt, words.as_slice())),
        Err(_) => ExitCode::from(3),
    }
}
