// An input read whole, within the limit of its role.
ghost use Rattle.std.specs.Prelude.{◌≡◌, IfOk, IfErr};
ghost use Rattle.pd_io.specs.Seen.{files_seen};
ghost use Rattle.commands.specs.Inside.InputJudging.{FailsWithin, ReadsWithin};
ghost use Rattle.commands.specs.InputRefusals.{too_long};
ghost use Rattle.commands.specs.InputRequirements.{limit_of};

use calls::{Cause, Ending, Part, Refusal, Role, read_input};
use pd_base::MOST_BYTES;
use pd_io::Files;
use std::alloc::Global;

/// How many bytes NET, DELAYS, SCAN and LOG may have.
pub const INPUT_LIMIT: usize = 33_554_432;

/// The bytes of the input of this role. One over its limit is refused, and a failed read ends the call.
pub(crate) fn text_from<F: Files>(
    alloc: Global,
    files: &mut F,
    role: Role,
    name: &str,
) -> Result<Vec<u8>, Ending>
    ensures read { IfOk result (λ read. ReadsWithin role name.now read
        (files_seen F.Files files.old) (files_seen F.Files files.new)) }
    ensures failed { IfErr result (λ ending. FailsWithin role name.now ending
        (files_seen F.Files files.old) (files_seen F.Files files.new)) }
{
    match read_input(alloc, files, role, name, limit_of(role))? {
        Some(bytes) => Ok(bytes),
        None => Err(Ending::Refused(too_long(role))),
    }
}

// How many bytes an input of this role may have. No command reads OUT.
fn limit_of(role: Role) -> usize
    ensures { result ≡ limit_of role }
{
    match role {
        Role::Net | Role::Delays | Role::Scan | Role::Log | Role::Out => INPUT_LIMIT,
        Role::Tests | Role::Report | Role::Proofs => MOST_BYTES,
    }
}

// The refusal of an input with more bytes.
fn too_long(role: Role) -> Refusal
    ensures { result ≡ too_long role }
{
    Refusal::new(
        Cause::Size,
        &[Part::Words(b"size: "), Part::Words(role.word())],
    )
}
