//! Tests of the public calls of `cb_wire`: columns and positions, file URIs, messages that come in
//! and messages that are written.
#![tactic(auto)]

#[cfg(test)]
mod tests;
