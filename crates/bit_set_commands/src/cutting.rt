//! A text cut at a byte: an input into lines, a line into words.

ghost use Rattle.std.specs.Prelude.{◌≡◌, ◌<◌, ◌∷◌, ◌++◌, [], IfNone, IfSome, MatchOption, length};
ghost use Rattle.bit_set_commands.specs.{Cuts.Lacks, Lines.lines_of, Words.{words_of, words_left}};

/// What is before the first such byte and what is after it; `None` if there is none. One scan, up to that byte.
#[inline]
pub(crate) fn split_once(text: &[u8], byte: u8) -> Option<(&[u8], &[u8])>
    ensures whole { IfNone result (Lacks byte text.now) }
    ensures first { IfSome result (λ parts. Lacks byte parts.0.now) }
    ensures joined { IfSome result (λ parts. text.now ≡ parts.0.now ++ byte ∷ parts.1.now) }
{
    let at = text.iter().position(|b| *b == byte)?;
    Some((&text[..at], &text[at + 1..]))
}

/// The first line of the input, and what comes after it; `None` for an empty input.
#[inline]
pub fn next_line(input: &[u8]) -> Option<(&[u8], &[u8])>
    ensures lines { MatchOption result
        (lines_of input.now ≡ [])
        (λ found. lines_of input.now ≡ found.0.now ∷ lines_of found.1.now) }
    ensures shorter { IfSome result (λ found. length found.1.now < length input.now) }
{
    if input.is_empty() {
        return None;
    }
    Some(split_once(input, b'\n').unwrap_or((input, &[])))
}

/// The first word of the text, and what comes after the space that follows it; `None` if there is no space.
#[inline]
pub(crate) fn first_word(text: &[u8]) -> (&[u8], Option<&[u8]>)
    ensures words { words_of text.now ≡ result.0.now ∷ words_left result.1 }
    ensures shorter { IfSome result.1 (λ rest. length rest.now < length text.now) }
{
    match split_once(text, b' ') {
        Some((word, rest)) => (word, Some(rest)),
        None => (text, None),
    }
}
