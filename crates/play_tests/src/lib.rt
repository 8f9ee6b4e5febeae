//! Tests of plays.
#![tactic(auto)]

#[cfg(test)]
mod assertions;
#[cfg(test)]
mod climbs;
#[cfg(test)]
mod outcomes;
#[cfg(test)]
mod plays;
#[cfg(test)]
mod plays_without_ranks;
#[cfg(test)]
mod prompts;
