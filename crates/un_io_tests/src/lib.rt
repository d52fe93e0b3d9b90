//! Tests of sinks and links of which no contract says all, and which no program runs.
#![tactic(auto)]

#[cfg(test)]
mod streams;
