// A place that bytes go to, in order, as standard output; and all bytes of a text handed to it. `write_all` makes no call for an empty
// text, so only then nothing is said of the count's greatest value.
ghost use Rattle.std.specs.Prelude.{◌≡◌, ℕ, ◌<◌, ◌≤◌, List, ◌++◌, length, Option, IfOk, OnOk, OnErr};
ghost use Rattle.pd_io.specs.declared.fault.FileFault.TheVariants.{Failed};
ghost use Rattle.pd_io.specs.Counts.{HasCause, greatest_count};
ghost use Rattle.pd_io.specs.Telling.{Tells};
ghost use Rattle.pd_io.specs.Folder.{bytes_taken};
ghost use Rattle.pd_io.specs.Whole.{TookPart};

use crate::FileFault;

/// A place that bytes go to, in order. A write that answers `Failed` raises the count of failed writes, which stops at
/// 2^64 - 1; one that answers anything else leaves it.
pub trait Sink {
    /// The bytes taken so far. A sink that tells nothing of them has `None`, always.
    ghost taken: { Self → Option (List ℕ) };

    /// How often a write failed, at most 2^64 - 1.
    ghost faults: { Self → ℕ };

    /// Takes the first of the bytes, at least one, and answers how many. After an error it took none.
    fn write(&mut self, bytes: &[u8]) -> Result<usize, FileFault>
        requires { 0 < length bytes.now }
        ensures within { IfOk result (λ count. (0 < count) × (count ≤ length bytes.now)) }
        ensures told { Tells (taken self.old) (taken self.new) (λ old new.
            new ≡ old ++ bytes_taken result bytes.now) }
        ensures cause { HasCause (faults self.old) (faults self.new) result Failed };
}

/// Hands all bytes to a sink. After an error it took a front of them, and not all. `Failed` comes where a write failed,
/// and `NoMemory` where memory ran out.
pub fn write_all<S: Sink>(sink: &mut S, bytes: &[u8]) -> Result<(), FileFault>
    ensures ok { OnOk result (Tells (S.taken sink.old) (S.taken sink.new) (λ old new.
        new ≡ old ++ bytes.now)) }
    ensures err { OnErr result (Tells (S.taken sink.old) (S.taken sink.new) (TookPart bytes.now)) }
    ensures cause { OnErr result (
        HasCause (S.faults sink.old) (S.faults sink.new) result FileFault.Failed) }
    ensures unchanged { OnOk result (S.faults sink.new ≡ S.faults sink.old) }
    ensures never_falls { S.faults sink.old ≤ S.faults sink.new }
    ensures counted { 0 < length bytes.now → S.faults sink.new ≤ greatest_count }
{
    let mut rest = bytes;
    while !rest.is_empty() {
        let count = sink.write(rest)?;
        rest = &rest[count..];
    }
    Ok(())
}
