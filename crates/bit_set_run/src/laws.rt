//! Consequences of the contracts' definitions, stated as proved facts.

ghost use Rattle.std.specs.Prelude.{IfOk, OnOk, ◌≡◌, ℕ, List, [], ◌∷◌, codes, length, map, Err};
ghost use Rattle.bit_set_commands.specs.{Lines.lines_of, Reading.reading, declared.reading.BadLine.BadLine};
ghost use Rattle.bit_set_run.specs.Output.{line_text, line_texts_from, output, sets_after, Gives, Line};
ghost use Rattle.bit_set_run.specs.Run.{no_sets, run_of, Sets};

use crate::{Command, Reply, RunFault, Table, run};
use bit_set::BitBlock;
pub use bit_set_commands::laws::{
    commands_are_read_back, lines_are_unique, strange_lines_are_bad_commands, words_are_unique,
};
use std::alloc::Global;

/// The output for some inputs, by the definitions alone: each line beside its reply.
pub fn outputs_are_as_shown()
    ensures sets { Gives (
        ("insert a 3", "true") ∷
        ("insert a 3", "false") ∷
        ("insert a 400", "true") ∷
        ("contains a 3", "true") ∷
        ("remove a 3", "true") ∷
        ("contains a 3", "false") ∷
        ("count a", "1") ∷
        ("items a", "{400}") ∷
        ("items b", "{}") ∷
        []) }
    ensures errors { Gives (
        ("insert a 18446744073709551615", "refused element") ∷
        ("frob", "bad command") ∷
        ("frob 99999999999999999999", "bad command") ∷
        ("insert a 99999999999999999999", "bad number") ∷
        ("insert q 99999999999999999999", "bad command") ∷
        ("", "bad command") ∷
        ("insert a", "bad command") ∷
        ("insert  a 1", "bad command") ∷
        ("insert a -1", "bad command") ∷
        ("insert a 007", "true") ∷
        ("remove a 18446744073709551615", "false") ∷
        ("items a", "{7}") ∷
        []) }
    ensures edges { Gives (
        ("insert p 18446744073709551614", "true") ∷
        ("insert p 10", "true") ∷
        ("insert p 2", "true") ∷
        ("items p", "{2, 10, 18446744073709551614}") ∷
        ("count p", "3") ∷
        ("count A", "bad command") ∷
        ("count a\r", "bad command") ∷
        ("count\ta", "bad command") ∷
        (" count a", "bad command") ∷
        ("count a ", "bad command") ∷
        ("count ab", "bad command") ∷
        ("insert a 1 2", "bad command") ∷
        ("insert a +1", "bad command") ∷
        ("insert a 18446744073709551616", "bad number") ∷
        []) }
    ensures whole_sets { Gives (
        ("extend a 9 18446744073709551615 11", "refused element") ∷
        ("extend a", "ok") ∷
        ("items a", "{9}") ∷
        ("copy a a", "refused same") ∷
        ("copy a b", "ok") ∷
        ("items b", "{9}") ∷
        ("truncate b 9", "ok") ∷
        ("is_empty b", "true") ∷
        ("extend b 5 6 99999999999999999999", "bad number") ∷
        ("extend b 5 x 99999999999999999999", "bad command") ∷
        ("items b", "{}") ∷
        ("extend b 3 1 2 1", "ok") ∷
        ("count b", "3") ∷
        ("empty b", "ok") ∷
        ("reset a", "ok") ∷
        ("items a", "{}") ∷
        []) }
    ensures rests { Gives (
        ("extend b 3 200", "ok") ∷
        ("rest iter b 0", "2 {3, 200}") ∷
        ("rest iter b 1", "1 {200}") ∷
        ("rest iter b 9", "0 {}") ∷
        ("rest iter q 1", "bad command") ∷
        []) }
    ensures in_place { Gives (
        ("extend a 0 1", "ok") ∷
        ("extend b 1 5", "ok") ∷
        ("symmetric_difference_with a b", "ok") ∷
        ("items a", "{0, 5}") ∷
        ("difference_with b a", "ok") ∷
        ("items b", "{1}") ∷
        ("union_with b a", "ok") ∷
        ("items b", "{0, 1, 5}") ∷
        ("intersect_with a b", "ok") ∷
        ("items a", "{0, 5}") ∷
        ("intersect_with b b", "refused same") ∷
        ("union_with a", "bad command") ∷
        ("union_with a b 1", "bad command") ∷
        ("items b", "{0, 1, 5}") ∷
        []) }
    ensures parts { Gives (
        ("extend a 2 6", "ok") ∷
        ("extend b 1 3 6", "ok") ∷
        ("append a b", "ok") ∷
        ("items a", "{1, 2, 3, 6}") ∷
        ("items b", "{}") ∷
        ("split_off a 3 c", "ok") ∷
        ("items a", "{1, 2}") ∷
        ("items c", "{3, 6}") ∷
        ("split_off a 0 c", "ok") ∷
        ("items a", "{}") ∷
        ("items c", "{1, 2}") ∷
        ("split_off c 50 d", "ok") ∷
        ("items d", "{}") ∷
        ("append c c", "refused same") ∷
        ("split_off c 1 c", "refused same") ∷
        ("items c", "{1, 2}") ∷
        []) }
    ensures part_edges { Gives (
        ("extend a 4 9", "ok") ∷
        ("append a", "bad command") ∷
        ("append a b c", "bad command") ∷
        ("append a 1", "bad command") ∷
        ("append a q", "bad command") ∷
        ("split_off a 5", "bad command") ∷
        ("split_off a b 5", "bad command") ∷
        ("split_off a 5 b c", "bad command") ∷
        ("split_off a 5 b ", "bad command") ∷
        ("split_off q 5 b", "bad command") ∷
        ("split_off a 99999999999999999999 q", "bad command") ∷
        ("split_off a 99999999999999999999 b", "bad number") ∷
        ("split_off a 99999999999999999999 a", "bad number") ∷
        ("splitoff a 5 b", "bad command") ∷
        ("items a", "{4, 9}") ∷
        ("split_off a 18446744073709551615 b", "ok") ∷
        ("split_off a 009 b", "ok") ∷
        ("items a", "{4}") ∷
        ("items b", "{9}") ∷
        []) }
    ensures two_sets { Gives (
        ("extend a 1 3 5 200 500", "ok") ∷
        ("extend b 3 200", "ok") ∷
        ("difference a b", "{1, 5, 500}") ∷
        ("rest difference a b 1", "2 {5, 500}") ∷
        ("rest difference a b 9", "0 {}") ∷
        ("rest iter b 0", "2 {3, 200}") ∷
        ("rest union a b 3", "2 {200, 500}") ∷
        ("union a b", "{1, 3, 5, 200, 500}") ∷
        ("symmetric_difference b a", "{1, 5, 500}") ∷
        ("intersection a a", "{1, 3, 5, 200, 500}") ∷
        ("superset a b", "true") ∷
        ("intersect_with a b", "ok") ∷
        ("items a", "{3, 200}") ∷
        ("eq a b", "true") ∷
        ("cmp a b", "Equal") ∷
        ("cmp a c", "Greater") ∷
        ("cmp c a", "Less") ∷
        ("subset c a", "true") ∷
        ("disjoint a b", "false") ∷
        ("disjoint a c", "true") ∷
        ("subset a c", "false") ∷
        ("eq a c", "false") ∷
        []) }
    ensures two_set_edges { Gives (
        ("rest frob a b 1", "bad command") ∷
        ("rest union a b", "bad command") ∷
        ("rest union a", "bad command") ∷
        ("rest union a b c 1", "bad command") ∷
        ("rest iter a b 1", "bad command") ∷
        ("union a", "bad command") ∷
        ("union a b 1", "bad command") ∷
        ("union a q", "bad command") ∷
        ("rest union a b 99999999999999999999", "bad number") ∷
        ("rest union a q 99999999999999999999", "bad command") ∷
        ("insert a 0", "true") ∷
        ("insert a 1", "true") ∷
        ("insert b 1", "true") ∷
        ("cmp a b", "Less") ∷
        ("rest symmetric_difference a b 0", "1 {0}") ∷
        ("rest intersection b a 0", "1 {1}") ∷
        ("superset a a", "true") ∷
        ("disjoint b b", "false") ∷
        []) }
    ensures capacity { Gives (
        ("extend a 3 200", "ok") ∷
        ("reserve a 100", "ok") ∷
        ("reserve_exact a 500", "ok") ∷
        ("items a", "{3, 200}") ∷
        ("shrink a", "ok") ∷
        ("items a", "{3, 200}") ∷
        ("reserve a", "bad command") ∷
        ("reserve a 1 2", "bad command") ∷
        ("reserve_exact q 99999999999999999999", "bad command") ∷
        ("reserve_exact a 99999999999999999999", "bad number") ∷
        ("shrink", "bad command") ∷
        ("shrink a 1", "bad command") ∷
        ("reserve_len a 1", "bad command") ∷
        ("count a", "2") ∷
        []) }
    ensures whole_set_edges { Gives (
        ("extend p 99999999999999999999 5 ", "bad command") ∷
        ("extend p 5  6", "bad command") ∷
        ("extend q 99999999999999999999", "bad command") ∷
        ("extend", "bad command") ∷
        ("extend p 4 18446744073709551615 99999999999999999999", "bad number") ∷
        ("extend p 18446744073709551615", "refused element") ∷
        ("extend p 8 7", "ok") ∷
        ("is_empty p", "false") ∷
        ("copy p q", "bad command") ∷
        ("copy p", "bad command") ∷
        ("copy p a b", "bad command") ∷
        ("copy a p", "ok") ∷
        ("count p", "0") ∷
        ("truncate p 99999999999999999999", "bad number") ∷
        ("truncate p", "bad command") ∷
        ("isempty p", "bad command") ∷
        ("rest p 1", "bad command") ∷
        ("rest iter", "bad command") ∷
        ("rest iter p", "bad command") ∷
        ("rest iter p 99999999999999999999", "bad number") ∷
        ("iter p 1", "bad command") ∷
        ("empty p 1", "bad command") ∷
        ("reset", "bad command") ∷
        []) }
    ensures last_line { output (codes "count a\n\ncount a") ≡ codes "0\nbad command\n0\n" }
    ensures nothing { output [] ≡ [] }
{}

/// An output has a line for each line of its input: its reply, on the sets that the lines before it left. A bad
/// line leaves the sets unchanged.
pub fn each_line_has_one_reply()
    ensures as_many { (input : List ℕ) → length (lines_of (output input)) ≡ length (lines_of input) }
    ensures replies { (input : List ℕ)
        → lines_of (output input) ≡ line_texts_from no_sets (map reading (lines_of input)) }
    ensures first { (sets : Sets) (line : Line) (lines : List Line)
        → line_texts_from sets (line ∷ lines) ≡ line_text sets line ∷ line_texts_from (sets_after sets line) lines }
    ensures bad { (sets : Sets) (bad : BadLine) → sets_after sets (Err bad) ≡ sets }
{}

/// The same commands on two tables with equal sets, over any two block types: if allocations succeed, the replies
/// are the same, those of the commands, and so are the sets afterwards.
pub fn replies_agree<A: BitBlock, B: BitBlock>(
    alloc: Global,
    first: &mut Table<A>,
    second: &mut Table<B>,
    commands: &[Command],
) -> Result<(Vec<Reply>, Vec<Reply>), RunFault>
    requires { first.old ≡ second.old }
    ensures agree { IfOk result (λ replies. replies.0.items ≡ replies.1.items) }
    ensures replies { IfOk result (λ replies. replies.0.items ≡ (run_of first.old commands.now).replies) }
    ensures sets { OnOk result (first.new ≡ second.new) }
    ensures after { OnOk result (first.new ≡ (run_of first.old commands.now).sets) }
{
    let mut first_replies = Vec::new(alloc);
    let mut second_replies = Vec::new(alloc);
    run(alloc, first, commands, &mut first_replies)?;
    run(alloc, second, commands, &mut second_replies)?;
    Ok((first_replies, second_replies))
}
