// The proofs file, read: its version, and then line by line its proofs. One line is read in proof_line.rt.
ghost use Rattle.std.specs.Prelude.{◌≤◌, ⊤, length, option_map, IfSome};
ghost use Rattle.text_pieces.specs.Reads.{Reads};
ghost use Rattle.pd_base.specs.declared.limits.TheConstants.{MOST_BYTES};
ghost use Rattle.run_files.specs.ProofsReading.{ProofLinesAnswer, ProofsAnswer, version_at_front, version_lent};

use crate::TextFault;
use crate::proof_line::read_proof;
use crate::version::ProofsVersion;
use netlist::Netlist;
use runs::Proof;
use std::alloc::Global;
use text_pieces::{split_line, text_behind};

/// The version of a proofs file, by the number that its first line has (1 under rules One, 2 under rules Two, 3 under linked rules; 4 and 5
/// under these two where trees may split at any line), and the proofs whose file these bytes are: lawful ones of this circuit and version,
/// each in its one spelling. Which rules have this version, and with which links, is the caller's to know. `Malformed` exactly where there
/// are none such, with the first line that lacks its form given the lines before it, unless memory runs out first.
pub fn read_proofs(
    alloc: Global,
    net: &Netlist,
    bytes: &[u8],
) -> Result<(u32, Vec<Proof>), TextFault>
    requires { length bytes.now ≤ MOST_BYTES }
    ensures { ProofsAnswer net.now bytes.now result }
{
    let Some((version, lines)) = read_version(bytes) else {
        return Err(TextFault::Malformed(1));
    };
    let proofs = read_proof_lines(alloc, net, version, lines)?;
    Ok((version.number(), proofs))
}

// The version that the first line tells, and what stands behind it.
fn read_version(bytes: &[u8]) -> Option<(ProofsVersion, &[u8])>
    ensures reads { Reads version_at_front (λ read. ⊤) bytes.now (option_map version_lent result) }
    ensures shorter { IfSome result (λ read. length read.1.now ≤ length bytes.now) }
{
    if let Some(lines) = text_behind(ProofsVersion::First.line(), bytes) {
        return Some((ProofsVersion::First, lines));
    }
    if let Some(lines) = text_behind(ProofsVersion::Second.line(), bytes) {
        return Some((ProofsVersion::Second, lines));
    }
    if let Some(lines) = text_behind(ProofsVersion::Third.line(), bytes) {
        return Some((ProofsVersion::Third, lines));
    }
    if let Some(lines) = text_behind(ProofsVersion::Fourth.line(), bytes) {
        return Some((ProofsVersion::Fourth, lines));
    }
    let lines = text_behind(ProofsVersion::Fifth.line(), bytes)?;
    Some((ProofsVersion::Fifth, lines))
}

// The proofs of the lines behind the first, which tells this version.
fn read_proof_lines(
    alloc: Global,
    net: &Netlist,
    version: ProofsVersion,
    text: &[u8],
) -> Result<Vec<Proof>, TextFault>
    requires { length text.now ≤ MOST_BYTES }
    ensures { ProofLinesAnswer net.now version text.now result }
{
    let mut proofs = Vec::new(alloc);
    let mut rest = text;
    let mut number = 1;
    while !rest.is_empty() {
        let Some((line, behind)) = split_line(rest) else {
            return Err(TextFault::Malformed(number + 1));
        };
        let Some(proof) = read_proof(alloc, net, version, number, line)? else {
            return Err(TextFault::Malformed(number + 1));
        };
        proofs.push(proof)?;
        rest = behind;
        number += 1;
    }
    Ok(proofs)
}
