//! Tests of public calls of `cb_desk` and `cb_session` that need the inside: what is scanned, how
//! often files are shown and hidden, the bounds of a desk, and devices that flush, fail or stop.
#![tactic(auto)]

#[cfg(test)]
mod tests;
