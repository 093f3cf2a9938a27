// Forms that are worked out and counted.
#![tactic(auto)]

#[cfg(test)]
mod tests;
