// Calls that search for a member, or for an absent number. `usize::MAX` stands for no member, since it is never
// one.
ghost use Rattle.std.specs.Prelude.{◌≡◌, ◌<◌, ◌≤◌, IfSome, MatchOption, get_or, length, max, not};
ghost use Rattle.bit_blocks.specs.Searches.{FindsBefore, FindsFrom, IsFirstFrom};
ghost use Rattle.bit_set.specs.{Choices.{IsFirstOf, IsGreatest, IsLastOf, IsLeast}, Members.HasNone, Sets.{elements, has, those_below, those_from}};
ghost use Rattle.c_handles.specs.{Answers.found, Handed.IsAt};

use crate::handed::Shared;

// What C receives for a member, or for none.
pub(crate) fn or_max(member: Option<usize>) -> usize
    requires { IfSome member (λ m. m < usize.MAX) }
    ensures { found result ≡ member }
{
    member.unwrap_or(usize::MAX)
}

/// The least member, or `usize::MAX` if there is none.
#[unsafe(no_mangle)]
pub extern "C" fn bit_set_first(set: &mut Shared) -> usize
    requires here { IsAt set.ref_ptr set.old.at }
    ensures elements { IsFirstOf (elements set.old.bits.values) (found result) }
    ensures members { MatchOption (found result) (HasNone (elements set.old.bits.values))
        (IsLeast (elements set.old.bits.values)) }
    ensures within { IfSome (found result) (λ m. m < length set.old.bits.values) }
    ensures kept { set.new ≡ set.old }
{
    or_max(set.get().first())
}

/// The greatest member, or `usize::MAX` if there is none.
#[unsafe(no_mangle)]
pub extern "C" fn bit_set_last(set: &mut Shared) -> usize
    requires here { IsAt set.ref_ptr set.old.at }
    ensures elements { IsLastOf (elements set.old.bits.values) (found result) }
    ensures members { MatchOption (found result) (HasNone (elements set.old.bits.values))
        (IsGreatest (elements set.old.bits.values)) }
    ensures within { IfSome (found result) (λ m. m < length set.old.bits.values) }
    ensures kept { set.new ≡ set.old }
{
    or_max(set.get().last())
}

/// The least member that is `from` or above, or `usize::MAX` if there is none.
#[unsafe(no_mangle)]
pub extern "C" fn bit_set_next(set: &mut Shared, from: usize) -> usize
    requires here { IsAt set.ref_ptr set.old.at }
    ensures elements { IsFirstOf (those_from (elements set.old.bits.values) from) (found result) }
    ensures members { FindsFrom (has (elements set.old.bits.values)) from (found result) }
    ensures within { IfSome (found result) (λ m. m < length set.old.bits.values) }
    ensures kept { set.new ≡ set.old }
{
    or_max(set.get().next(from))
}

/// The greatest member below `end`, or `usize::MAX` if there is none.
#[unsafe(no_mangle)]
pub extern "C" fn bit_set_previous(set: &mut Shared, end: usize) -> usize
    requires here { IsAt set.ref_ptr set.old.at }
    ensures elements { IsLastOf (those_below (elements set.old.bits.values) end) (found result) }
    ensures members { FindsBefore (has (elements set.old.bits.values)) end (found result) }
    ensures within { IfSome (found result) (λ m. m < length set.old.bits.values) }
    ensures kept { set.new ≡ set.old }
{
    or_max(set.get().previous(end))
}

/// The least number that is `from` or above and not a member; `usize::MAX` never is one.
#[unsafe(no_mangle)]
pub extern "C" fn bit_set_next_missing(set: &mut Shared, from: usize) -> usize
    requires here { IsAt set.ref_ptr set.old.at }
    ensures members { IsFirstFrom (λ m. not (has (elements set.old.bits.values) m)) from result }
    ensures within { result ≤ max from (length set.old.bits.values) }
    ensures kept { set.new ≡ set.old }
{
    set.get().next_missing(from)
}

/// The member at or above `from` that exactly `n` other members at or above `from` precede, or `usize::MAX` if
/// there is none.
#[unsafe(no_mangle)]
pub extern "C" fn bit_set_nth(set: &mut Shared, from: usize, n: usize) -> usize
    requires here { IsAt set.ref_ptr set.old.at }
    ensures value { result ≡ get_or (those_from (elements set.old.bits.values) from) n usize.MAX }
    ensures kept { set.new ≡ set.old }
{
    set.get().iter_from(from).nth(n).unwrap_or(usize::MAX)
}
