//! From the bytes of a text to its pieces, and from pieces to tokens.
pub(crate) mod cut;
pub(crate) mod lanes;
pub(crate) mod lexeme;
pub(crate) mod lined;
pub(crate) mod name;
pub(crate) mod piece;
pub(crate) mod token;
