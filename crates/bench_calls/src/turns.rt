// What each turn gives, added up.

// It is a macro, since the turns of a call lend and change what they work on.
macro_rules! sum_of_turns {
    ($turns:expr, |$turn:ident| $number:expr) => {{
        let mut sum = 0usize;
        for $turn in 0..$turns {
            sum = sum.wrapping_add($number);
        }
        sum
    }};
}

// What each turn reads in a set, of which a number leaves then, so that no turn can be the result of another.
macro_rules! sum_of_reads {
    ($set:ident, $turns:expr, $number:expr) => {
        Ok(sum_of_turns!($turns, |turn| {
            let number = $number;
            let _was = $set.remove(turn);
            number
        }))
    };
}

pub(crate) use sum_of_reads;
pub(crate) use sum_of_turns;
