//! Questions that are answered after files were read again, where the client does not tell of files
//! that are written.

use crate::disk::{Disk, most_read};
use crate::question::Question;
use crate::refresh::files_asked;
use crate::server::Server;
use crate::written::{put_refusal, put_told};
use cb_tags::{Sink, WriteFault};
use cb_wire::Id;
use std::alloc::Global;
use std::io::Write;

impl Server {
    ghost use Rattle.std.specs.Prelude.{Bool, Ok, map};
    ghost use Rattle.cb_wire.specs.Messages.{id_json};
    ghost use Rattle.cb_lsp.specs.Bodies.{DoesBy};
    ghost use Rattle.cb_lsp.specs.Documents.{Oracle, Reading};
    ghost use Rattle.cb_lsp.specs.Messages.{answered, answered_after, refreshed};
    ghost use Rattle.cb_lsp.specs.Models.{asked_of};
    ghost use Rattle.cb_lsp.specs.steps.Works.{one_event};

    /// Reads a file again, unless its document is open.
    fn refresh<D: Disk, W: Write>(
        &mut self,
        alloc: Global,
        disk: &D,
        out: &mut Sink<W>,
        name: &[u8],
    ) -> Result<(), WriteFault>
        ensures { (no_path no_text : Bool) × (found : Reading) × DoesBy (D.finds disk.now)
            (refreshed (one_event no_path no_text found) self.old name.now) self.new
            out.old out.new result }
    {
        if self.work.documents().is_open(name) {
            return Ok(());
        }
        let path = match self.root.path_of(alloc, name) {
            Ok(path) => path,
            Err(_) => return put_told(out, name, Some("out of memory")),
        };
        let found = disk.read(alloc, path.as_slice(), most_read(self.work.desk()), 0);
        let told = self.work.give_anew(alloc, name, found);
        put_told(out, name, told)
    }

    /// Reads files again, and answers a question.
    fn answer_after<D: Disk, W: Write>(
        &mut self,
        alloc: Global,
        disk: &D,
        out: &mut Sink<W>,
        id: Id<'_>,
        question: Question<'_>,
        names: &[Vec<u8>],
    ) -> Result<(), WriteFault>
        ensures { (o : Oracle) × DoesBy (D.finds disk.now) (answered_after o self.old
            (id_json id.entry) (asked_of question.entry) (map (λ name. name.items) names.now))
            self.new out.old out.new result }
    {
        'names: for name in names {
            self.refresh(alloc, disk, out, name.as_slice())?;
        }
        self.answer(alloc, disk, out, id, question)
    }

    /// Answers a question. Where the client does not tell of files that are written, those that the
    /// answer names are read again before.
    pub(super) fn answer_anew<D: Disk, W: Write>(
        &mut self,
        alloc: Global,
        disk: &D,
        out: &mut Sink<W>,
        id: Id<'_>,
        question: Question<'_>,
    ) -> Result<(), WriteFault>
        ensures { (o : Oracle) × DoesBy (D.finds disk.now)
            (answered o self.old (id_json id.entry) (Ok (asked_of question.entry))) self.new
            out.old out.new result }
    {
        if self.watches {
            return self.answer(alloc, disk, out, id, question);
        }
        self.settle(question);
        match files_asked(alloc, self.forms(), self.work.desk(), question) {
            Ok(names) => self.answer_after(alloc, disk, out, id, question, names.as_slice()),
            Err(_) => put_refusal(out, id),
        }
    }
}
