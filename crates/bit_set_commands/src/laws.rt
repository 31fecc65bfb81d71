//! Consequences of the contracts' definitions, stated as proved facts.

ghost use Rattle.std.specs.Prelude.{◌≡◌, ℕ, false, List, [], Contains, Ok, Err};
ghost use Rattle.bit_set_commands.specs.{Lines.{lines_of, AreLines}, declared.commands.Command.Command};
ghost use Rattle.bit_set_commands.specs.{Reading.{is_plain, reading}, declared.reading.BadLine.TheVariants.BadCommand};
ghost use Rattle.bit_set_commands.specs.{Spelling.{line_of, CanBeHad}, Words.{words_of, AreWords}};

/// Every input is divided into lines in exactly one way; an empty input has none.
pub fn lines_are_unique()
    ensures are { (input : List ℕ) → AreLines input (lines_of input) }
    ensures only { (input : List ℕ) (lines : List (List ℕ)) → AreLines input lines → lines ≡ lines_of input }
    ensures none { lines_of [] ≡ [] }
{}

/// Every line is divided into words in exactly one way.
pub fn words_are_unique()
    ensures are { (line : List ℕ) → AreWords line (words_of line) }
    ensures only { (line : List ℕ) (words : List (List ℕ)) → AreWords line words → words ≡ words_of line }
{}

/// For each command there is a line that is read as that command.
pub fn commands_are_read_back()
    ensures { (command : Command) → CanBeHad command → reading (line_of command) ≡ Ok command }
{}

/// A line with an empty word is a bad command, and so is one with a byte that occurs in no command, such as byte
/// 13, a tab or one that is not ASCII.
pub fn strange_lines_are_bad_commands()
    ensures empty_word { (line : List ℕ) → Contains (words_of line) [] → reading line ≡ Err BadCommand }
    ensures strange_byte { (line : List ℕ) (b : ℕ) → Contains line b → is_plain b ≡ false
        → reading line ≡ Err BadCommand }
{}
