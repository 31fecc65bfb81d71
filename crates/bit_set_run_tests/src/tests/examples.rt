//! The examples of the documents of `bit_set_run`.
use crate::expect::{Test, expect_eq, ok};
use bit_set_run::{
    Command, Exit, LinesFault, Reply, RunFault, SetName, Table, run, run_lines, start,
};

fn run_of_commands(rt: &impl Test, a: SetName) -> Result<(), RunFault> {
    let alloc = rt.alloc();
    // `a` is the name of the first set.
    let mut table = Table::<u32>::new(alloc);
    let mut replies = Vec::new(alloc);
    let commands = [Command::Insert(a, 3), Command::Count(a)];
    run(alloc, &mut table, &commands, &mut replies)?;
    let expected = [Reply::Truth(true), Reply::Number(1)];
    expect_eq(rt, &replies.as_slice(), &expected.as_slice());
    // After the command `insert a 3`.
    expect_eq(rt, &table.get(a).first(), &Some(3));
    Ok(())
}

fn output_of_lines(rt: &impl Test) -> Result<(), LinesFault> {
    let alloc = rt.alloc();
    let mut lines = b"insert a 3\nitems a\n".as_slice();
    let mut output = Vec::new(alloc);
    run_lines::<u32, _, _>(alloc, &mut lines, &mut output)?;
    expect_eq(rt, &output.as_slice(), &b"true\n{3}\n".as_slice());
    Ok(())
}

#[test]
fn commands_are_executed(rt: HostRuntime) {
    let alloc = rt.alloc();
    let a = ok(&rt, SetName::from_letter(b'a').ok_or("a"));
    ok(&rt, run_of_commands(&rt, a));
    let table = Table::<u32>::new(alloc);
    expect_eq(&rt, &table.get(a).count(), &0);
}

#[test]
fn lines_have_their_output(rt: HostRuntime) {
    let alloc = rt.alloc();
    ok(&rt, output_of_lines(&rt));
    let mut lines = b"count a\n".as_slice();
    let mut output = Vec::new(alloc);
    let exit = start(alloc, &[], &mut lines, &mut output);
    expect_eq(&rt, &exit.status, &0);
    expect_eq(&rt, &output.as_slice(), &b"0\n".as_slice());
}

#[test]
fn an_exit_says_why(rt: HostRuntime) {
    expect_eq(&rt, &Exit::of(Ok(())).status, &0);
    expect_eq(&rt, &Exit::of(Err(LinesFault::TooLarge)).status, &5);
    expect_eq(&rt, &LinesFault::TooLarge.text(), &"input too large");
}
