//! The program `pdfgen`: a path delay fault test generator whose answers are proved. It is one call of commands, whose `serve`
//! hands the system's words, files and streams to `exit_code`, whose contract has all that is promised.
#![tactic(auto)]

use commands::serve;
use std::process::ExitCode;

fn main(rt: HostRuntime) -> ExitCode {
    serve(rt)
}
