//! Cuts a source into its pieces.
ghost use Rattle.std.specs.Prelude.{◌≡◌, ◌≤◌, length};
ghost use Rattle.cb_scan.specs.declared.source.TheConstants.{MOST_BYTES};
ghost use Rattle.cb_scan.specs.lex.Pieces.{IsPieces};
ghost use Rattle.cb_scan.specs.steps.Cut.{pieces};

use crate::lex::piece::Pieces;
use crate::source::Source;

/// The pieces of a source, first to last: they cover it without gaps, and each is the longest
/// lexeme at its place (C11 6.4, with comments and white space as pieces of their own). It takes no
/// memory.
pub fn pieces(source: &Source) -> Pieces<'_>
    ensures are { IsPieces source.now result }
    ensures same { result ≡ pieces source.now }
    ensures len { length result ≤ MOST_BYTES }
{
    Pieces::new(source.bytes())
}
