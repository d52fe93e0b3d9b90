//! Tests of the ordered map on shared pages, and of the map from points over it.
#![tactic(auto)]

#[cfg(test)]
mod pages;
#[cfg(test)]
mod points;
