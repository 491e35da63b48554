//! Tests of the program over memory: its words, its runs, and its ends.
#![tactic(auto)]

#[cfg(test)]
mod of_arrowtab;
