//! Tests of chains.
#![tactic(auto)]

#[cfg(test)]
mod all_boards;
#[cfg(test)]
mod assertions;
#[cfg(test)]
mod chains_of_boards;
#[cfg(test)]
mod slow_chains;
