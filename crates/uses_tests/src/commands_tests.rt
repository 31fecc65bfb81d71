//! The uses of `bit_set_run`.
use crate::expect::{expect_eq, ok};
use bit_set_run::{Command, Reply, SetName};
use uses::commands::{output_of, replies_to};

#[test]
fn commands_are_run(rt: HostRuntime) {
    let a = ok(&rt, SetName::from_letter(b'a').ok_or("no letter"));
    let commands = [
        Command::Insert(a, 3),
        Command::Insert(a, 3),
        Command::Count(a),
    ];
    let replies = ok(&rt, replies_to(rt.alloc(), &commands));
    let wanted = [Reply::Truth(true), Reply::Truth(false), Reply::Number(1)];
    expect_eq(&rt, &replies.as_slice(), &wanted.as_slice());
}

#[test]
fn lines_are_run(rt: HostRuntime) {
    let written = ok(
        &rt,
        output_of(rt.alloc(), b"insert a 3\ninsert a 3\ncount a\n"),
    );
    expect_eq(&rt, &written.as_slice(), &b"true\nfalse\n1\n".as_slice());
}
