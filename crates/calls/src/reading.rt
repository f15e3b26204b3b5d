// Reading one input. What it spells is asked by the command.
ghost use Rattle.std.specs.Prelude.{◌<◌, IfOk, IfErr};
ghost use Rattle.pd_io.specs.Seen.{files_seen};
ghost use Rattle.calls.specs.Inputs.{FailsToRead, ReadsInput};

use crate::{Ending, Role};
use pd_io::{Files, ReadFault, read_whole};
use std::alloc::Global;

/// Reads the file of this role, of at most `limit` bytes; `None` where it has more. No name's bytes change.
pub fn read_input<F: Files>(
    alloc: Global,
    files: &mut F,
    role: Role,
    name: &str,
    limit: usize,
) -> Result<Option<Vec<u8>>, Ending>
    requires { limit < usize.MAX }
    ensures read { IfOk result (λ read. ReadsInput limit name.now read
        (files_seen F.Files files.old) (files_seen F.Files files.new)) }
    ensures failed { IfErr result (λ ending. FailsToRead role name.now ending
        (files_seen F.Files files.old) (files_seen F.Files files.new)) }
{
    match read_whole(alloc, files, name, limit) {
        Ok(bytes) => Ok(Some(bytes)),
        Err(ReadFault::TooLong) => Ok(None),
        Err(ReadFault::Failed) => Err(Ending::ReadFault(role)),
        Err(ReadFault::NoMemory(refused)) => Err(Ending::NoMemory(refused)),
    }
}
