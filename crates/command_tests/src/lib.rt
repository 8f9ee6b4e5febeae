//! Tests of command lines.
#![tactic(auto)]

#[cfg(test)]
mod command_lines;
#[cfg(test)]
mod drawn_words;
