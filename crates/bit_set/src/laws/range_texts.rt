// The law of the texts of ranges.
ghost use Rattle.std.specs.{Prelude.{◌≡◌, ◌<◌, ℕ, List, IsTrue, Ok}};
ghost use Rattle.set_algebra.specs.{Runs.runs_of, Sets.{IsAscending, has}};
ghost use Rattle.bit_set.specs.{RangeReading.ranges_in, RangeTexts.ranges_text};

/// The text that `ranges` writes for a set reads as exactly the runs of that set, so `from_ranges` makes the same
/// set of it if memory suffices.
#[tactic(auto, using(crate::proofs::RangeTextLaws::text_of_runs))]
pub fn texts_of_ranges()
    ensures { (s : List ℕ) → IsAscending s → ((n : ℕ) → IsTrue (has s n) → n < usize.MAX)
        → ranges_in (ranges_text (runs_of s)) ≡ Ok (runs_of s) }
{}
