//! The functions of a file, which an editor folds.
ghost use Rattle.std.specs.Prelude.{◌≡◌, ◌∷◌, [], Bool, MatchOption, Some};
ghost use Rattle.cb_tags.specs.Writing.{Puts};
ghost use Rattle.cb_wire.specs.Folds.{fold_tree};
ghost use Rattle.cb_wire.specs.Messages.{id_json};
ghost use Rattle.cb_wire.specs.Texts.{frame};
ghost use Rattle.cb_wire.specs.Values.{value_text};
ghost use Rattle.cb_lsp.specs.Answers.{folds_named};
ghost use Rattle.cb_lsp.specs.Folds.{first_line, folded, last_line};
ghost use Rattle.cb_lsp.specs.Messages.{result_unless};
ghost use Rattle.cb_lsp.specs.steps.Elements.{folds_left};

use crate::answers::put_list;
use crate::written::{put_null, put_refusal};
use cb_desk::Desk;
use cb_scan::{Range, Source, function_ranges};
use cb_tags::{Sink, WriteFault};
use cb_wire::{Elements, Fold, Id};
use std::alloc::Global;
use std::io::Write;

/// The lines of a function, from that of its name to that where its body ends.
fn lines_of(source: &Source, range: &Range) -> Fold
    ensures first { result.first ≡ first_line source.now range.now }
    ensures last { result.last ≡ last_line source.now range.now }
{
    let first = source.line_of(range.name.start) as usize;
    let last = source.line_of(range.end.saturating_sub(1)) as usize;
    Fold {
        first: first.saturating_sub(1),
        last: last.saturating_sub(1),
    }
}

/// The lines of the first of some functions that has more than one, and the functions behind it.
fn split_fold<'a>(source: &Source, ranges: &'a [Range]) -> Option<(Fold, &'a [Range])>
    ensures { MatchOption result (folded source.now ranges.now ≡ [])
        (λ r. folded source.now ranges.now ≡ fold_tree r.0 ∷ folded source.now r.1.now) }
{
    let mut rest = ranges;
    'functions: while let Some((range, more)) = rest.split_first() {
        let lines = lines_of(source, range);
        if lines.first < lines.last {
            return Some((lines, more));
        }
        rest = more;
    }
    None
}

/// The functions of a file that have more than one line.
#[derive(Drop)]
pub(crate) struct Folds<'a> {
    source: &'a Source,
    rest: &'a [Range],
}

impl<'a> Elements for Folds<'a> {
    type Item = Fold;

    ghost texts = { folds_left };

    fn again(&self) -> Folds<'a> {
        Folds {
            source: self.source,
            rest: self.rest,
        }
    }

    fn next(&mut self) -> Option<Fold> {
        let (lines, rest) = split_fold(self.source, self.rest)?;
        self.rest = rest;
        Some(lines)
    }
}

/// Writes what is folded of a file. The file is scanned for that.
pub(crate) fn put_folds<W: Write>(
    alloc: Global,
    desk: &Desk,
    out: &mut Sink<W>,
    id: Id<'_>,
    file: &[u8],
) -> Result<(), WriteFault>
    ensures { (no_memory : Bool) × Puts out.old out.new result (frame (value_text
        (result_unless no_memory (id_json id.entry)
        (folds_named desk.now.timeline.present (Some file.now))))) }
{
    let Some(source) = desk.source(file) else {
        return put_null(out, id);
    };
    match function_ranges(alloc, desk.profile().rules, source) {
        Ok(ranges) => put_list(
            out,
            id,
            Folds {
                source,
                rest: ranges.as_slice(),
            },
        ),
        Err(_) => put_refusal(out, id),
    }
}
