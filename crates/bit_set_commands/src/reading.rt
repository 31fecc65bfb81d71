//! A line read as a command.

ghost use Rattle.std.specs.Prelude.{◌≡◌, refl, ℕ, ◌+◌, ◌-◌, ◌*◌, List, [], ◌∷◌, ◌++◌, Option, None, Err, IfOk, IsOkAnd, MatchResult, OnErr, slice_get};
ghost use Rattle.std.specs.{Char.IsAsciiDigit, Option.option_and_then};
ghost use Rattle.bit_set_commands.specs.{Spelling.numbers_of, declared.commands.Command.TheVariants.Extend};
ghost use Rattle.bit_set_commands.specs.Reading.{all_numbers, command_of, fitting_number, followed, name_alone, name_of, number_alone, number_of, reading, rest_command, rest_of, within_range};
ghost use Rattle.bit_set_commands.specs.{Verbs.{usage, usage_of, NameAndNumbers}, Words.{words_left, words_of}};

use crate::cutting::{first_word, split_once};
use crate::verbs::{SetWalk, Verb, verb_of, walk_of};
use crate::{Command, Numbers, SetName};
use std::alloc::{AllocError, Global};

/// Why a line is not a command.
#[derive(Clone, Copy, Debug, PartialEq, Eq)]
pub enum BadLine {
    /// Its words spell no command.
    BadCommand,
    /// They spell a command with a number that does not fit a `usize`.
    BadNumber,
}

/// The command that the line spells, or why it spells none. A word that does not fit is reported before a number
/// too large, wherever in the line they are. One pass. Allocates only for the numbers of an `extend`.
pub fn read_line(alloc: Global, line: &[u8]) -> Result<Result<Command, BadLine>, AllocError>
    ensures read { IfOk result (λ read. read ≡ reading line.now) }
    ensures memory { OnErr result
        (option_and_then usage_of (slice_get (words_of line.now) 0) ≡ Some (NameAndNumbers Extend)) }
{
    let Some((word, words)) = split_once(line, b' ') else {
        return Ok(Err(BadLine::BadCommand));
    };
    match verb_of(word) {
        Some(verb) => read_command(alloc, verb, words),
        None => Ok(Err(BadLine::BadCommand)),
    }
}

// What the verb and the words after it spell.
fn read_command(
    alloc: Global,
    verb: Verb,
    words: &[u8],
) -> Result<Result<Command, BadLine>, AllocError>
    ensures read { IfOk result (λ read. read ≡ within_range numbers_of (command_of (usage verb) (words_of words.now))) }
    ensures memory { OnErr result (verb ≡ Verb.Extend) }
{
    match verb {
        Verb::Insert => Ok(read(words, |(s, n)| Command::Insert(s, n))),
        Verb::Remove => Ok(read(words, |(s, n)| Command::Remove(s, n))),
        Verb::Contains => Ok(read(words, |(s, n)| Command::Contains(s, n))),
        Verb::Extend => read_extend(alloc, words),
        Verb::Truncate => Ok(read(words, |(s, n)| Command::Truncate(s, n))),
        Verb::Empty => Ok(read(words, Command::Empty)),
        Verb::Reset => Ok(read(words, Command::Reset)),
        Verb::Reserve => Ok(read(words, |(s, n)| Command::Reserve(s, n))),
        Verb::ReserveExact => Ok(read(words, |(s, n)| Command::ReserveExact(s, n))),
        Verb::Shrink => Ok(read(words, Command::Shrink)),
        Verb::Count => Ok(read(words, Command::Count)),
        Verb::IsEmpty => Ok(read(words, Command::IsEmpty)),
        Verb::Items => Ok(read(words, Command::Items)),
        Verb::Copy => Ok(read(words, |(s, t)| Command::Copy(s, t))),
        Verb::InPlace(merge) => Ok(read(words, |(s, t)| Command::InPlace(merge, s, t))),
        Verb::Append => Ok(read(words, |(s, t)| Command::Append(s, t))),
        Verb::SplitOff => Ok(read(words, |(first, (number, second))| {
            Command::SplitOff(first, number, second)
        })),
        Verb::Walk(merge) => Ok(read(words, |(s, t)| Command::Walk(merge, s, t))),
        Verb::Subset => Ok(read(words, |(s, t)| Command::Subset(s, t))),
        Verb::Superset => Ok(read(words, |(s, t)| Command::Superset(s, t))),
        Verb::Disjoint => Ok(read(words, |(s, t)| Command::Disjoint(s, t))),
        Verb::Equal => Ok(read(words, |(s, t)| Command::Equal(s, t))),
        Verb::Compare => Ok(read(words, |(s, t)| Command::Compare(s, t))),
        Verb::Rest => Ok(read_rest(words)),
    }
}

// A walk and its own words, after `rest`.
fn read_rest(words: &[u8]) -> Result<Command, BadLine>
    ensures { result ≡ within_range numbers_of (rest_of (words_of words.now)) }
{
    let Some((walk, words)) = split_once(words, b' ') else {
        return Err(BadLine::BadCommand);
    };
    match walk_of(walk) {
        Some(walk) => read_walk(walk, words),
        None => Err(BadLine::BadCommand),
    }
}

// What the walk and the words after it spell.
fn read_walk(walk: SetWalk, words: &[u8]) -> Result<Command, BadLine>
    ensures { result ≡ within_range numbers_of (rest_command walk (words_of words.now)) }
{
    match walk {
        SetWalk::One => read(words, |(s, n)| Command::RestIter(s, n)),
        SetWalk::Two(merge) => {
            let (s, (t, n)) = <(SetName, (SetName, usize))>::read(words)?;
            Ok(Command::RestWalk(merge, s, t, n))
        }
    }
}

// The command that is made of what the words spell.
fn read<T: Operands, F: FnOnce(T) -> Command>(words: &[u8], make: F) -> Result<Command, BadLine>
    requires { F.IsAlwaysCallable make }
    ensures { MatchResult (within_range T.numbers (T.spelled (words_of words.now)))
        (λ operands. IsOkAnd result (F.post make operands)) (λ bad. result ≡ Err bad) }
{
    Ok(make(T::read(words)?))
}

// A set's name and the numbers to insert into it.
fn read_extend(alloc: Global, words: &[u8]) -> Result<Result<Command, BadLine>, AllocError>
    ensures { IfOk result (λ read. read
        ≡ within_range numbers_of (command_of (NameAndNumbers Extend) (words_of words.now))) }
{
    let (name, numbers) = first_word(words);
    let name = match read_name(name) {
        Ok(name) => name,
        Err(bad) => return Ok(Err(bad)),
    };
    let numbers = read_numbers(alloc, numbers)?;
    Ok(numbers.map(|numbers| Command::Extend(name, numbers)))
}

// The set that the word names.
fn read_name(word: &[u8]) -> Result<SetName, BadLine>
    ensures { result ≡ within_range (λ _. []) (name_of word.now) }
{
    match word {
        [letter] => SetName::from_letter(*letter).ok_or(BadLine::BadCommand),
        _ => Err(BadLine::BadCommand),
    }
}

// What is read from words, all of which it uses.
trait Operands: Copy {
    // What words spell, however large its numbers.
    ghost spelled: { List (List ℕ) → Option Self };

    ghost numbers: { Self → List ℕ };

    fn read(words: &[u8]) -> Result<Self, BadLine>
        ensures { result ≡ within_range numbers (spelled (words_of words.now)) };

    ghost some: { spelled [] ≡ None };
}

impl Operands for SetName {
    ghost spelled = { name_alone };

    ghost numbers = { λ _. [] };

    ghost some = { refl };

    fn read(words: &[u8]) -> Result<Self, BadLine> {
        read_name(words)
    }
}

impl Operands for usize {
    ghost spelled = { number_alone };

    ghost numbers = { λ n. n ∷ [] };

    ghost some = { refl };

    fn read(words: &[u8]) -> Result<Self, BadLine> {
        read_number(words)
    }
}

// One word, a space and what is read after it.
impl<S: Operands, T: Operands> Operands for (S, T) {
    ghost spelled = { followed S.spelled T.spelled };

    ghost numbers = { λ p. S.numbers p.0 ++ T.numbers p.1 };

    ghost some = { refl };

    fn read(words: &[u8]) -> Result<Self, BadLine> {
        let Some((word, others)) = split_once(words, b' ') else {
            return Err(BadLine::BadCommand);
        };
        match S::read(word) {
            Err(BadLine::BadCommand) => Err(BadLine::BadCommand),
            // A number too large, which is reported only if all words fit.
            Err(BadLine::BadNumber) => T::read(others).and(Err(BadLine::BadNumber)),
            Ok(first) => Ok((first, T::read(others)?)),
        }
    }
}

// The numbers that the words write, one each: a word that writes none is reported before a number too large.
fn read_numbers(alloc: Global, words: Option<&[u8]>) -> Result<Result<Numbers, BadLine>, AllocError>
    ensures { IfOk result (λ read. read ≡ within_range (λ ns. ns) (all_numbers (words_left words.entry))) }
{
    let mut numbers = Vec::new(alloc);
    let mut too_large = false;
    let mut rest = words;
    'words: while let Some(words) = rest {
        let (word, after) = first_word(words);
        match read_number(word) {
            Ok(number) => numbers.push(number)?,
            Err(BadLine::BadNumber) => too_large = true,
            Err(BadLine::BadCommand) => return Ok(Err(BadLine::BadCommand)),
        }
        rest = after;
    }
    if too_large {
        return Ok(Err(BadLine::BadNumber));
    }
    Ok(Ok(Numbers::from_vec(numbers)))
}

// The number that the word writes.
fn read_number(word: &[u8]) -> Result<usize, BadLine>
    ensures { result ≡ within_range (λ n. n ∷ []) (number_of word.now) }
{
    if word.is_empty() {
        return Err(BadLine::BadCommand);
    }
    let mut number = Some(0);
    for byte in word {
        if !byte.is_ascii_digit() {
            return Err(BadLine::BadCommand);
        }
        number = with_digit(number, *byte);
    }
    number.ok_or(BadLine::BadNumber)
}

// The number with one more digit at its end, if a `usize` holds it.
#[inline]
fn with_digit(number: Option<usize>, digit: u8) -> Option<usize>
    requires { IsAsciiDigit digit }
    ensures { (n : ℕ) → number ≡ fitting_number n → result ≡ fitting_number (n * 10 + (digit - 48)) }
{
    number?
        .checked_mul(10)?
        .checked_add(usize::from(digit - b'0'))
}
