//! Tests of what no command line shows: words, texts, names, places, plan texts, reports and command lines; orders,
//! states, instances, reach, steps and words, over tasks that are read from texts; and a small word machine, with calls
//! in threads, desks, levels, sets and searches over it.
#![tactic(auto)]

#[cfg(test)]
mod command_lines;
#[cfg(test)]
mod configurations;
#[cfg(test)]
mod counter;
#[cfg(test)]
mod desks;
#[cfg(test)]
mod gates;
#[cfg(test)]
mod hddl_names_tests;
#[cfg(test)]
mod instances;
#[cfg(test)]
mod levels;
#[cfg(test)]
mod many;
#[cfg(test)]
mod names;
#[cfg(test)]
mod nearest;
#[cfg(test)]
mod orders;
#[cfg(test)]
mod pairs;
#[cfg(test)]
mod places;
#[cfg(test)]
mod plan_texts;
#[cfg(test)]
mod plans;
#[cfg(test)]
mod questions;
#[cfg(test)]
mod reach;
#[cfg(test)]
mod reports;
#[cfg(test)]
mod search_answers;
#[cfg(test)]
mod searches;
#[cfg(test)]
mod sets;
#[cfg(test)]
mod small_searches;
#[cfg(test)]
mod sources;
#[cfg(test)]
mod states;
#[cfg(test)]
mod steps;
#[cfg(test)]
mod tables;
pub mod tallies;
#[cfg(test)]
mod text_answers;
#[cfg(test)]
mod texts;
#[cfg(test)]
mod thread_calls;
#[cfg(test)]
mod watches;
#[cfg(test)]
mod words;
