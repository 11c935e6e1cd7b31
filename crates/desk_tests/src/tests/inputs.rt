//! Input by bytes and commands, and single rows of output.
use cb_desk::{Bounds, Change, RefRow};
use cb_scan::{Profile, Rules};
use cb_session::{Command, Input, Intake, Limits, Session, put_row};
use cb_tags::{Feed, Sink};
use std::alloc::Global;
use std::process::Abort;

/// Limits that no short run reaches.
pub(super) const WIDE: Limits = Limits {
    line: 1_000_000,
    lines: 1_000,
};

/// Three lines of 5,000 bytes.
const NARROW: Limits = Limits {
    line: 5_000,
    lines: 3,
};

/// The first byte that a run over an input leaves unread.
fn unread(alloc: Global, limits: &Limits, input: &[u8]) -> Option<u8> {
    let mut session = Session::new(alloc, Bounds::standard(), Profile::all_by(Rules::Standard));
    let mut feed = Feed::new(input);
    let mut written = Vec::new(alloc);
    let mut sink = Sink::new(&mut written);
    let _ended = session.serve(alloc, limits, &mut feed, &mut sink);
    match feed.byte() {
        Ok(byte) => byte,
        Err(_) => None,
    }
}

#[test]
fn serve_leaves_what_comes_after_its_end(rt: HostRuntime) {
    assert_eq!(rt; unread(rt.alloc(), &WIDE, b"1f\nq\nz"), Some(b'z'));
    assert_eq!(rt; unread(rt.alloc(), &WIDE, b":load a.c 3\n{}"), None);
    assert_eq!(rt;
        unread(rt.alloc(), &NARROW, b":undo\n1f\n1f\nz"),
        Some(b'z')
    );
}

#[test]
fn put_row_parts_columns_by_single_spaces(rt: HostRuntime) {
    let rows = [
        RefRow {
            file: b"f.c",
            function: b"f",
            line: 1,
            text: b"int f(void) {",
        },
        RefRow {
            file: b"z/g.h",
            function: b"<unknown>",
            line: 1_000_000,
            text: b"",
        },
    ];
    let mut written = Vec::new(rt.alloc());
    let mut sink = Sink::new(&mut written);
    for row in &rows {
        assert!(rt; put_row(&mut sink, row).is_ok());
    }
    assert_eq!(rt;
        written.as_slice(),
        b"f.c f 1 int f(void) {\nz/g.h <unknown> 1000000 \n".as_slice()
    );
}

/// Whether an intake reads a load with its block, and leaves the line after it.
fn reads_a_load(rt: &impl Abort, alloc: Global) -> bool {
    let Ok(mut intake) = Intake::new(alloc) else {
        return false;
    };
    let mut feed = Feed::new(b":load f.c 16\nint f(void) {\n}\n1f\n".as_slice());
    match intake.read(alloc, &WIDE, &mut feed) {
        Ok(Input::Command(Command::Change(Change::Load(name, bytes)))) => {
            assert_eq!(rt; name, b"f.c".as_slice());
            assert_eq!(rt; bytes.as_slice(), b"int f(void) {\n}\n".as_slice());
            true
        }
        Ok(_) => false,
        Err(_) => false,
    }
}

#[test]
fn read_gives_a_load_with_its_block(rt: HostRuntime) {
    assert!(rt; reads_a_load(&rt, rt.alloc()));
}
