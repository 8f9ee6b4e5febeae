//! Tests of `orbits`.
#![tactic(auto)]

#[cfg(test)]
mod solving;
