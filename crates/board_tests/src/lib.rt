//! Tests of boards: their texts, their positions, and the values of small ones.
#![tactic(auto)]

#[cfg(test)]
mod assertions;
#[cfg(test)]
mod board_faults;
#[cfg(test)]
mod boards;
#[cfg(test)]
mod building;
#[cfg(test)]
mod differences;
#[cfg(test)]
mod nested;
#[cfg(test)]
mod printing;
#[cfg(test)]
mod spaces;
#[cfg(test)]
mod streams;
#[cfg(test)]
mod values;
