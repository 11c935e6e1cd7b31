//! Tests of the public calls of `cb_scan` and `cb_tags` that no text of `worked_cases` shows: names,
//! sources, tag lines, addresses, input by pieces, and writers that end at any byte.
#![tactic(auto)]

#[cfg(test)]
mod tests;
