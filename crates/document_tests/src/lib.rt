//! Tests of strategy documents: their texts, their check, and those of solved boards.
#![tactic(auto)]

#[cfg(test)]
mod assertions;
#[cfg(test)]
mod checks;
#[cfg(test)]
mod document_texts;
#[cfg(test)]
mod documents;
#[cfg(test)]
mod drawn_boards;
#[cfg(test)]
mod drawn_documents;
#[cfg(test)]
mod long_documents;
#[cfg(test)]
mod moves;
#[cfg(test)]
mod strategy_documents;
#[cfg(test)]
mod symmetric_texts;
