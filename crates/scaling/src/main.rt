//! Makes a call on a set of some size a number of times: `scaling CALL SHAPE N TURNS`. It prints the sum of what the call
//! returns. `tests/scaling.sh` counts the instructions of a turn at a size and at 16 times that size.
#![tactic(auto)]

mod beside;
mod changes;
mod faults;
mod flow;
mod graphs;
mod in_place;
mod ranges;
mod searches;
mod shapes;
mod walks;
mod work;

use beside::Beside;
use changes::Change;
use faults::Fault;
use flow::Flow;
use graphs::Table;
use in_place::InPlace;
use ranges::RangeCall;
use searches::Search;
use shapes::Shape;
use std::alloc::Global;
use std::env;
use std::process::ExitCode;
use walks::Walk;
use work::{Work, turns_of};

// What the words ask for.
#[derive(Clone, Copy)]
struct Request<'a> {
    call: &'a str,
    shape: Shape,
    n: usize,
    turns: usize,
}

// What four words after the program's name ask for.
fn request_of(words: &[String]) -> Option<Request<'_>> {
    let [call, shape, n, turns] = words else {
        return None;
    };
    Some(Request {
        call: call.as_str(),
        shape: Shape::from_name(shape.as_str())?,
        n: n.parse::<usize>().ok()?,
        turns: turns.parse::<usize>().ok()?,
    })
}

// Does the work if it is one of these kinds.
fn as_one_of<W: Work>(alloc: Global, request: Request<'_>) -> Option<Result<usize, Fault>> {
    let work = W::from_name(request.call)?;
    Some(turns_of(alloc, work, request.shape, request.n, request.turns))
}

// Does the work of the first kind that has it.
fn done(alloc: Global, request: Request<'_>) -> Option<Result<usize, Fault>> {
    if let Some(sum) = as_one_of::<Search>(alloc, request) {
        return Some(sum);
    }
    if let Some(sum) = as_one_of::<Walk>(alloc, request) {
        return Some(sum);
    }
    if let Some(sum) = as_one_of::<RangeCall>(alloc, request) {
        return Some(sum);
    }
    if let Some(sum) = as_one_of::<Change>(alloc, request) {
        return Some(sum);
    }
    if let Some(sum) = as_one_of::<Beside>(alloc, request) {
        return Some(sum);
    }
    if let Some(sum) = as_one_of::<InPlace>(alloc, request) {
        return Some(sum);
    }
    if let Some(sum) = as_one_of::<Table>(alloc, request) {
        return Some(sum);
    }
    as_one_of::<Flow>(alloc, request)
}

// The status after the words: 2 where they name no work.
fn status(rt: &HostRuntime, words: &[String]) -> u8 {
    let Some(request) = request_of(words) else {
        return 2;
    };
    match done(rt.alloc(), request) {
        Some(Ok(sum)) => u8::from(println!(rt; "{sum}").is_err()),
        Some(Err(_)) => 3,
        None => 2,
    }
}

fn words(rt: &HostRuntime) -> Result<Vec<String>, Fault> {
    Ok(env::args(rt)?.skip(1).collect(rt.alloc())?)
}

fn main(rt: HostRuntime) -> ExitCode {
    match words(&rt) {
        Ok(words) => ExitCode::from(status(&rt, words.as_slice())),
        Err(_) => ExitCode::from(3),
    }
}
