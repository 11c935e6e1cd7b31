//! What a session scans, by the meter of its desk. Bytes are counted by hand.
use super::inputs::WIDE;
use super::meters::NINE_LINES;
use cb_desk::Bounds;
use cb_scan::{Profile, Rules};
use cb_session::{Operand, Operands, Session, prepare};
use cb_tags::{Feed, Sink};
use std::alloc::{AllocError, Global};
use std::process::Abort;

/// Two files, of 175 and 17 bytes.
fn operands(alloc: Global) -> Result<Operands, AllocError> {
    let files = [
        (b"a.c".as_slice(), NINE_LINES),
        (b"m.c", b"int Mb(void) {\n}\n"),
    ];
    let mut operands = Vec::new(alloc);
    for (name, bytes) in files {
        operands.push(Operand {
            name: Vec::from_slice(alloc, name)?,
            bytes: Vec::from_slice(alloc, bytes)?,
        })?;
    }
    Ok(operands)
}

/// A session does these commands, and has scanned so many bytes then.
fn scans(rt: &impl Abort, alloc: Global, session: &mut Session, input: &[u8], bytes: u64) {
    let mut written = Vec::new(alloc);
    let mut feed = Feed::new(input);
    let mut sink = Sink::new(&mut written);
    let _ended = session.serve(alloc, &WIDE, &mut feed, &mut sink);
    assert_eq!(rt; session.desk().meter(), bytes);
}

/// Operands are scanned once, `r` scans both files, a reload its bytes, and nothing else a byte.
fn each_command_scans_its_bytes(rt: &impl Abort, alloc: Global, session: &mut Session) {
    assert_eq!(rt; session.desk().meter(), 192);
    scans(rt, alloc, session, b"r\n", 384);
    let questions =
        b"0x\n1add\n2main\n3add\n4a\n5a\n7a\n8a.h\n:tags\n:listing\n:marks\n:stack\nr \n:load\n";
    scans(rt, alloc, session, questions, 384);
    scans(
        rt,
        alloc,
        session,
        b":reload a.c 17\nint Ma(void) {\n}\n",
        401,
    );
    scans(rt, alloc, session, b":undo\n:redo\n", 401);
}

#[test]
fn serve_scans_texts_that_come_in(rt: HostRuntime) -> Result<(), AllocError> {
    let operands = operands(rt.alloc())?;
    match prepare(
        rt.alloc(),
        Bounds::standard(),
        Profile::all_by(Rules::Standard),
        operands,
    ) {
        Ok(mut session) => each_command_scans_its_bytes(&rt, rt.alloc(), &mut session),
        Err(_) => assert!(rt; false, "the operands were refused"),
    }
    Ok(())
}
