//! Tests of stores of lists and of the solver.
#![tactic(auto)]

#[cfg(test)]
mod assertions;
#[cfg(test)]
mod lists;
#[cfg(test)]
mod nested_play;
#[cfg(test)]
mod solving;
#[cfg(test)]
mod solving_calls;
#[cfg(test)]
mod solving_classes;
#[cfg(test)]
mod solving_shapes;
