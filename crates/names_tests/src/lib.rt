//! Tests of the public calls of `cb_names`: short texts, and what their names mean, worked out by
//! hand.
#![tactic(auto)]

#[cfg(test)]
mod tests;
