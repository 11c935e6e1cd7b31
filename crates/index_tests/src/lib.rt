//! Tests of public calls of `cb_index`: a shelf that shows and hides files, and a sorted index.
#![tactic(auto)]

#[cfg(test)]
mod tests;
