//! The faults of runs and of lines: what becomes one, and their texts.
use crate::expect::{Test, expect_eq, ok};
use bit_set_run::{Command, LinesFault, RunFault, SetName, Table, run, run_lines};
use std::alloc::{AllocError, AllocFailed};

// Runs a command, and keeps its name in a vector: both calls come to the same fault by `?`.
fn kept_name(rt: &impl Test, name: SetName) -> Result<Vec<SetName>, RunFault> {
    let mut table = Table::<u32>::new(rt.alloc());
    let mut replies = Vec::new(rt.alloc());
    run(
        rt.alloc(),
        &mut table,
        &[Command::Count(name)],
        &mut replies,
    )?;
    let mut names = Vec::new(rt.alloc());
    names.reserve(1)?;
    names.push(name)?;
    Ok(names)
}

// Executes lines, and puts a word behind their output.
fn output_and_word(rt: &impl Test, mut lines: &[u8]) -> Result<Vec<u8>, LinesFault> {
    let mut output = Vec::new(rt.alloc());
    run_lines::<u32, _, _>(rt.alloc(), &mut lines, &mut output)?;
    output.push(b'.')?;
    Ok(output)
}

// A run never comes to the place `usize::MAX`: there is no such command.
#[test]
fn allocation_errors_become_faults(rt: HostRuntime) {
    let nowhere = RunFault::Memory(usize::MAX);
    expect_eq(&rt, &RunFault::from(AllocFailed { value: 3u8 }), &nowhere);
    expect_eq(&rt, &RunFault::from(AllocError), &nowhere);
    let memory = LinesFault::Memory;
    expect_eq(&rt, &LinesFault::from(AllocFailed { value: 3u8 }), &memory);
    expect_eq(&rt, &LinesFault::from(AllocError), &memory);
}

fn third_name(rt: &impl Test) -> SetName {
    ok(rt, SetName::from_letter(b'c').ok_or("c"))
}

#[test]
fn a_run_and_a_vector_share_their_faults(rt: HostRuntime) {
    let name = third_name(&rt);
    let names = ok(&rt, kept_name(&rt, name));
    expect_eq(&rt, &names.as_slice(), &[name].as_slice());
    let output = ok(&rt, output_and_word(&rt, b"count a"));
    expect_eq(&rt, &output.as_slice(), &b"0\n.".as_slice());
}

const FAULTS: &[(LinesFault, &str)] = &[
    (LinesFault::Read, "read failed"),
    (LinesFault::TooLarge, "input too large"),
    (LinesFault::Memory, "memory refused"),
    (LinesFault::Write, "write failed"),
];

#[test]
fn faults_have_texts(rt: HostRuntime) {
    for (fault, text) in FAULTS {
        let said = ok(&rt, format!(in rt.alloc(); "{fault}"));
        expect_eq(&rt, &said.as_str(), text);
    }
    let command = Command::Count(third_name(&rt));
    let fault = RunFault::Memory(3);
    let shown = ok(&rt, format!(in rt.alloc(); "{command:?} {fault:?} {fault}"));
    let wanted = "Count(SetName { place: 2 }) Memory(3) memory refused";
    expect_eq(&rt, &shown.as_str(), &wanted);
}
