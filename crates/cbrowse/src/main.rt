//! The program `cbrowse`: a source browser for C.
#![tactic(auto)]

mod execute;

use cb_tags::Sink;
use std::process::ExitCode;
use std::{env, io};

fn main(rt: HostRuntime) -> ExitCode {
    let mut errors = Sink::new(rt.stderr());
    ExitCode::from(execute::run(
        rt.alloc(),
        &mut execute::Process { rt: &rt },
        env::args(&rt),
        rt.reader(),
        io::writer(&rt),
        &mut errors,
    ))
}
