//! Tests of the commands, as a caller in memory or with readers and writers of its own has them.
#![tactic(auto)]

#[cfg(test)]
mod assertions;
#[cfg(test)]
mod large_boards;
#[cfg(test)]
mod outcomes;
#[cfg(test)]
mod runs_of_checks;
#[cfg(test)]
mod runs_of_plays;
#[cfg(test)]
mod runs_of_solving;
#[cfg(test)]
mod served_words;
