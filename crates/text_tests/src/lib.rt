//! Tests of the crates that read and write texts, and of plans: each file has those of the crate whose name it bears. They show what no contract says: values from outside, texts as they are printed, and that each call does its
//! work where memory is ample.
#![tactic(auto)]

#[cfg(test)]
mod line_text_tests;
#[cfg(test)]
mod pin_scripts_tests;
#[cfg(test)]
mod refusals;
#[cfg(test)]
mod sys_plan_tests;
#[cfg(test)]
mod system_text_tests;
#[cfg(test)]
mod trace_lines_tests;
#[cfg(test)]
mod trace_merge_tests;
#[cfg(test)]
mod xs_assembler_tests;
#[cfg(test)]
mod xs_printer_tests;
