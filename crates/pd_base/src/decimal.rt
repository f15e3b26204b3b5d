// Decimal texts of numbers, without sign and without leading zeros.
ghost use Rattle.std.specs.Prelude.{◌≡◌, ◌++◌, decimal, OnOk, OnErr};

use crate::OutOfMemory;
use itoa::Buffer;

/// Appends the decimal text of `n`. Where a growth is refused, `out` holds what it held.
pub fn push_decimal(out: &mut Vec<u8>, n: u64) -> Result<(), OutOfMemory>
    ensures ok { OnOk result (out.new.items ≡ out.old.items ++ decimal n) }
    ensures err { OnErr result (out.new.items ≡ out.old.items) }
{
    out.extend_from_slice(Buffer::new().format(n).as_bytes())?;
    Ok(())
}
