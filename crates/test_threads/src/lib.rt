//! Tests of calls by callers in threads of their own.
#![tactic(auto)]

#[cfg(test)]
mod tests;
