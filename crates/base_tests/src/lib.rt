//! Tests of the crates on which all others that read and write texts stand: values, words and lines, and instructions; and of
//! the search for circles. Each file has those of the crate whose name it bears.
#![tactic(auto)]

#[cfg(test)]
mod circle_search_tests;
#[cfg(test)]
mod xs_base_tests;
#[cfg(test)]
mod xs_instructions_tests;
#[cfg(test)]
mod xs_text_tests;
