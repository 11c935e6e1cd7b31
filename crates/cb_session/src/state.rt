//! A session, its runs, and the files that are loaded before one.
ghost use Rattle.std.specs.Prelude.{◌≡◌, Bool, List, ℕ, Some, false, IfOk, IfSome, MatchResult};
ghost use Rattle.std.specs.Prelude.{map};
ghost use Rattle.cb_desk.specs.Models.{step_of};
ghost use Rattle.cb_desk.specs.Step.{want};
ghost use Rattle.cb_tags.specs.Readers.{WhateverFollows};
ghost use Rattle.cb_session.specs.Inputs.{first, ending_of};
ghost use Rattle.cb_session.specs.Models.{request_of, going_of, HasPattern};
ghost use Rattle.cb_session.specs.Operands.{file_of_operand, Prepares, Runs};
ghost use Rattle.cb_session.specs.Requests.{change as change_asked};
ghost use Rattle.cb_session.specs.Serving.{Does, HasFailed, IfFault, Serves, ServesInputs, Tells};
ghost use Rattle.cb_session.specs.Serving.{HandsOn, fault_of};
ghost use Rattle.cb_session.specs.States.{new_state, state_of};
ghost use Rattle.cb_session.specs.Writing.{Puts};
ghost use Rattle.cb_session.specs.steps.Rounds.{LeavesRound, ReadsRound, fault_in};

use crate::input::{Command, Ended, Fault, Going, Input, Intake, Limits};
use crate::reply::{
    put_listing, put_marks, put_move, put_prompt, put_query, put_refusal, put_stack, put_tags,
};
use cb_desk::{Bounds, Change, Desk, Field};
use cb_scan::Profile;
use cb_tags::{Feed, Sink};
use std::alloc::Global;
use std::io::{BufRead, Write};
use std::marker::Model;

// ---- a session

/// A desk, and the commands on it.
#[derive(Drop)]
pub struct Session {
    desk: Desk,
}

impl Model for Session {
    ghost use Rattle.cb_session.specs.States.{State, state_of};

    ghost Value = { State };

    ghost view = { λ s. state_of s.desk };
}

impl Session {
    /// A session within these bounds, with no file and no past. Its files are scanned by the
    /// profile. It takes no memory.
    pub fn new(alloc: Global, bounds: Bounds, profile: Profile) -> Session
        ensures { result ≡ new_state profile bounds }
    {
        Session {
            desk: Desk::new(alloc, bounds, profile),
        }
    }

    /// A session on a desk.
    pub(crate) fn over(desk: Desk) -> Session
        ensures { result ≡ state_of desk }
    {
        Session { desk }
    }

    /// The session's desk.
    pub fn desk(&self) -> &Desk
        ensures { state_of result.now ≡ self.now }
    {
        &self.desk
    }

    /// The session's desk, with nothing of the session left.
    pub fn into_desk(self) -> Desk
        ensures { state_of result ≡ self }
    {
        self.desk
    }

    /// Does what was read at a prompt, and writes the reply. At a fault of the sink the move is
    /// made all the same.
    pub fn one<W: Write>(
        &mut self,
        alloc: Global,
        input: Input<'_>,
        out: &mut Sink<W>,
    ) -> Result<Going, Fault>
        requires { HasPattern (request_of input) }
        ensures does { (out_of_memory : Bool)
            × Does out_of_memory self.old (request_of input.entry)
            self.new out.old out.new result }
        ensures going { IfOk result
            (λ going. going ≡ going_of (ending_of (request_of input.entry))) }
    {
        let going = input.going();
        self.answer(alloc, input, out)?;
        Ok(going)
    }

    /// Does what was read at a prompt, and writes the reply: each input has its line here.
    fn answer<W: Write>(
        &mut self,
        alloc: Global,
        input: Input<'_>,
        out: &mut Sink<W>,
    ) -> Result<(), Fault>
        requires { HasPattern (request_of input) }
        ensures { (out_of_memory : Bool)
            × Does out_of_memory self.old (request_of input.entry)
            self.new out.old out.new result }
    {
        let command = match input {
            Input::Nothing => return Ok(()),
            Input::End => return Ok(()),
            Input::Refused(refusal) => return put_refusal(out, refusal),
            Input::Command(command) => command,
        };
        match command {
            Command::Query(field, pattern) => put_query(out, &mut self.desk, field, pattern),
            Command::Change(change) => self.change(alloc, change, out),
            Command::Rebuild => put_move(out, self.desk.rebuild(alloc)),
            Command::Undo => put_move(out, self.desk.undo()),
            Command::Redo => put_move(out, self.desk.redo()),
            Command::Tags(format) => put_tags(out, &mut self.desk, format),
            Command::Listing => put_listing(out, &mut self.desk),
            Command::Marks => put_marks(out, &self.desk),
            Command::Stack => put_stack(out, &self.desk),
        }
    }

    /// Makes a change, and writes its reply.
    fn change<W: Write>(
        &mut self,
        alloc: Global,
        change: Change<'_>,
        out: &mut Sink<W>,
    ) -> Result<(), Fault>
        ensures { (out_of_memory : Bool)
            × Does out_of_memory self.old (change_asked (step_of change.entry))
            self.new out.old out.new result }
    {
        match change {
            Change::Want(text) => self.want(alloc, text, out),
            _ => put_move(out, self.desk.change(alloc, change)),
        }
    }

    /// Wants a text, and writes the rows of the lines that hold it.
    fn want<W: Write>(&mut self, alloc: Global, text: &[u8], out: &mut Sink<W>) -> Result<(), Fault>
        ensures { (out_of_memory : Bool)
            × Does out_of_memory self.old (change_asked (want text.now))
            self.new out.old out.new result }
    {
        match self.desk.change(alloc, Change::Want(text)) {
            Ok(()) => {}
            Err(refusal) => return put_refusal(out, refusal),
        }
        put_query(out, &mut self.desk, Field::Text, text)
    }

    /// Prompts, reads and replies, until the run ends.
    pub fn serve<R: BufRead, W: Write>(
        &mut self,
        alloc: Global,
        limits: &Limits,
        feed: &mut Feed<R>,
        out: &mut Sink<W>,
    ) -> Ended
        ensures { Serves limits.now.lines limits.now.line self.old self.new feed.old
            feed.new out.old out.new result }
    {
        let ended = self.rounds(alloc, limits, feed, out);
        // The prompt before a read fault was handed on.
        if ended.is_unread() {
            return ended;
        }
        match out.flush() {
            Ok(()) => ended,
            Err(_) => Ended::Fault(Fault::Write),
        }
    }

    fn rounds<R: BufRead, W: Write>(
        &mut self,
        alloc: Global,
        limits: &Limits,
        feed: &mut Feed<R>,
        out: &mut Sink<W>,
    ) -> Ended
        ensures { ServesInputs limits.now.lines limits.now.line self.old self.new feed.old
            feed.new out.old out.new result }
    {
        let mut intake = match Intake::new(alloc) {
            Ok(intake) => intake,
            Err(_) => return Ended::Fault(Fault::Memory),
        };
        'rounds: for _round in 0..limits.lines {
            match self.round(alloc, limits, &mut intake, feed, out) {
                Ok(None) => {}
                Ok(Some(ended)) => return ended,
                Err(fault) => return Ended::Fault(fault),
            }
        }
        Ended::Fault(Fault::ManyLines)
    }

    /// One prompt, one input, one reply; the ending of the run, if it ends.
    fn round<R: BufRead, W: Write>(
        &mut self,
        alloc: Global,
        limits: &Limits,
        intake: &mut Intake,
        feed: &mut Feed<R>,
        out: &mut Sink<W>,
    ) -> Result<Option<Ended>, Fault>
        ensures round { (bytes : List ℕ) → feed.old.bytes ≡ Some bytes
            → (out_of_memory : Bool) × LeavesRound out_of_memory (first limits.now.line bytes)
            self.old self.new feed.new out.old out.new result }
        ensures every_input { WhateverFollows feed.old feed.new (λ bytes left.
            (out_of_memory : Bool) × LeavesRound out_of_memory (first limits.now.line bytes)
            self.old self.new left out.old out.new result) }
        ensures read { ReadsRound limits.now.line self.old self.new feed.old feed.new
            out.old out.new result }
        ensures failed { MatchResult result
            (λ ending. IfSome ending (λ ended. IfFault ended (HasFailed feed.new out.new)))
            (HasFailed feed.new out.new) }
        ensures told { Tells feed.old feed.new out.old out.new (fault_in result) }
    {
        put_prompt(out)?;
        let input = intake.read(alloc, limits, feed)?;
        let ending = input.ending();
        self.answer(alloc, input, out)?;
        Ok(ending)
    }
}

// ---- what is loaded before a run

/// A file that is to be loaded: its name and its bytes.
#[derive(Debug, Drop)]
pub struct Operand {
    pub name: Vec<u8>,
    pub bytes: Vec<u8>,
}

/// Files that are to be loaded, in order.
pub type Operands = Vec<Operand>;

/// A session within these bounds, and by a profile, in which the operands are loaded, each as a
/// change that can be taken back. The first refusal ends it.
pub fn prepare(
    alloc: Global,
    bounds: Bounds,
    profile: Profile,
    operands: Operands,
) -> Result<Session, Ended>
    ensures { Prepares profile bounds (map file_of_operand operands.items) result }
{
    let mut desk = Desk::new(alloc, bounds, profile);
    let mut place = 0u32;
    for operand in operands {
        let Operand { name, bytes } = operand;
        match desk.change(alloc, Change::Load(name.as_slice(), bytes)) {
            Ok(()) => {}
            Err(refusal) => return Err(Ended::Operand(place, refusal)),
        }
        place += 1;
    }
    Ok(Session::over(desk))
}

/// Loads the operands, and then prompts, reads and replies until the run ends.
pub fn run<R: BufRead, W: Write>(
    alloc: Global,
    bounds: Bounds,
    profile: Profile,
    limits: &Limits,
    feed: &mut Feed<R>,
    out: &mut Sink<W>,
    operands: Operands,
) -> Ended
    ensures output { (bytes : List ℕ) → feed.old.bytes ≡ Some bytes
        → Runs profile bounds (map file_of_operand operands.items) limits.now.lines
        limits.now.line bytes feed.new out.old out.new result }
    ensures every_input { WhateverFollows feed.old feed.new (λ bytes left.
        Runs profile bounds (map file_of_operand operands.items) limits.now.lines
        limits.now.line bytes left out.old out.new result) }
    ensures failed { IfFault result (HasFailed feed.new out.new) }
    ensures told { Tells feed.old feed.new out.old out.new (fault_of result) }
    ensures handed_on { HandsOn out.new result }
{
    match prepare(alloc, bounds, profile, operands) {
        Ok(mut session) => session.serve(alloc, limits, feed, out),
        Err(ended) => ended,
    }
}
