//! Tests of calls that the program does not make, or not with the sources and sinks that are given here. What it makes is tried by
//! the rows of `test_cases`. Here they stand together, since a crate with tests is proved twice; those of threads stand in
//! `test_threads`, which stands on less.
#![tactic(auto)]

#[cfg(test)]
mod tests;
