// The call that the program is: its arguments, and the files and streams of the system, handed on.
use crate::exiting::exit_code;
use std::process::ExitCode;
use std::{env, io};
use system_files::{StdFiles, StdSink};

/// Does what the words behind the program's own name ask for, over the files and streams of the system (`exit_code`).
pub fn serve(rt: HostRuntime) -> ExitCode {
    let alloc = rt.alloc();
    exit_code(
        alloc,
        arguments(&rt),
        &mut StdFiles::new(alloc, rt),
        &mut StdSink::new(rt.stdout()),
        &mut StdSink::new(rt.stderr()),
    )
}

// The words behind the program's own name.
fn arguments<R: env::Env + AllocGlobal>(rt: &R) -> io::Result<Vec<String>> {
    let mut arguments = Vec::new(rt.alloc());
    for argument in env::args(rt)?.skip(1) {
        arguments.push(argument)?;
    }
    Ok(arguments)
}
