//! Tests of rounds: as machines, shared by threads, and worked off by workers.
#![tactic(auto)]

#[cfg(test)]
mod assertions;
#[cfg(test)]
mod chosen_rounds;
#[cfg(test)]
mod histories;
#[cfg(test)]
mod rounds;
#[cfg(test)]
mod shared_rounds;
#[cfg(test)]
mod two_callers;
#[cfg(test)]
mod workers;
