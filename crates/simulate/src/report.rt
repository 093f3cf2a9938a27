use crate::balance::{Balance, Kind};
use std::fmt::Display;

// A blank between two words of a line, and nothing before the first.
pub(crate) fn gap(i: usize) -> &'static str {
    if i == 0 { "" } else { " " }
}

// A word, and numbers after it, each behind a blank.
pub(crate) fn print_numbers<T: Display>(
    rt: &HostRuntime,
    word: &str,
    numbers: &[T],
) -> anyhow::Result<()> {
    print!(rt; "{word}")?;
    for number in numbers {
        print!(rt; " {number}")?;
    }
    Ok(())
}

// The weights of a balance, with a word before those of a parity balance.
pub(crate) fn print_weights(rt: &HostRuntime, balance: &Balance) -> anyhow::Result<()> {
    if balance.kind == Kind::Parity {
        print!(rt; "parity ")?;
    }
    for (b, weight) in balance.weights.iter().enumerate() {
        print!(rt; "{}{weight}", gap(b))?;
    }
    Ok(())
}
