// Named files in memory. Over them stands `Shelf`.
ghost use Rattle.std.specs.Prelude.{◌≡◌, ◌+◌, ◌^◌, ◌<◌, ◌≤◌, ◌++◌, length, take, drop, IfOk, OnOk, OnErr, option_copied};
ghost use Rattle.pd_io.specs.Folder.{bytes_at, put, HoldsNext};
ghost use Rattle.pd_io.specs.Shelf.{contents_of};

use std::alloc::{AllocError, Global};
use std::collections::BTreeMap;

/// The most bytes that one read gives, or one write takes, of files or a sink in memory.
pub const MOST_AT_ONCE: usize = 4096;

/// The bytes under each name.
pub(crate) type NamedFiles = BTreeMap<String, Vec<u8>>;

/// The bytes under a name.
pub(crate) fn bytes_of<'a>(files: &'a NamedFiles, name: &str) -> Option<&'a [u8]>
    ensures { option_copied result ≡ contents_of files.now name.now }
{
    match files.get(name) {
        Some(bytes) => Some(bytes.as_slice()),
        None => None,
    }
}

/// The bytes under a name that stand behind this place. An absent name has none.
pub(crate) fn left_of<'a>(files: &'a NamedFiles, name: &str, place: usize) -> &'a [u8]
    ensures left { result.now ≡ drop place (bytes_at (contents_of files.now) name.now) }
    ensures fits { place + length result.now < 2 ^ 64 }
{
    match bytes_of(files, name) {
        Some(bytes) if place < bytes.len() => &bytes[place..],
        _ => &[],
    }
}

/// Makes a name hold these bytes. If memory runs out, every name keeps its bytes.
pub(crate) fn store(
    files: &mut NamedFiles,
    alloc: Global,
    name: &str,
    bytes: Vec<u8>,
) -> Result<(), AllocError>
    ensures ok { OnOk result (
        contents_of files.new ≡ put (contents_of files.old) name.now bytes.items) }
    ensures err { OnErr result (contents_of files.new ≡ contents_of files.old) }
{
    let name = String::from_str(alloc, name)?;
    files.insert(name, bytes)?;
    Ok(())
}

/// Appends the first of these bytes to those under a name, at least one and at most `MOST_AT_ONCE`, and answers how
/// many. If memory runs out, every name keeps its bytes.
pub(crate) fn append(
    files: &mut NamedFiles,
    alloc: Global,
    name: &str,
    bytes: &[u8],
) -> Result<usize, AllocError>
    requires { 0 < length bytes.now }
    ensures within { IfOk result (λ count. (0 < count) × (count ≤ length bytes.now)) }
    ensures most { IfOk result (λ count. count ≤ MOST_AT_ONCE) }
    ensures ok { IfOk result (λ count.
        contents_of files.new ≡ put (contents_of files.old) name.now
        (bytes_at (contents_of files.old) name.now ++ take count bytes.now)) }
    ensures err { OnErr result (contents_of files.new ≡ contents_of files.old) }
{
    match files.get_mut(name) {
        Some(taken) => take_front(taken, bytes),
        None => {
            let mut start = Vec::new(alloc);
            let count = take_front(&mut start, bytes)?;
            store(files, alloc, name, start)?;
            Ok(count)
        }
    }
}

/// Appends the first of these bytes, at least one and at most `MOST_AT_ONCE`, and answers how many. If memory runs out,
/// it appends none.
pub(crate) fn take_front(taken: &mut Vec<u8>, bytes: &[u8]) -> Result<usize, AllocError>
    requires { 0 < length bytes.now }
    ensures within { IfOk result (λ count. (0 < count) × (count ≤ length bytes.now)) }
    ensures most { IfOk result (λ count. count ≤ MOST_AT_ONCE) }
    ensures ok { IfOk result (λ count. taken.new.items ≡ taken.old.items ++ take count bytes.now) }
    ensures err { OnErr result (taken.new.items ≡ taken.old.items) }
{
    let count = bytes.len().min(MOST_AT_ONCE);
    taken.extend_from_slice(&bytes[..count])?;
    Ok(count)
}

/// Copies the first of these bytes into a buffer, at most `MOST_AT_ONCE`, and none only where there are none.
pub(crate) fn copy_front(buf: &mut [u8], bytes: &[u8]) -> usize
    requires { 0 < length buf.old }
    ensures within { result ≤ length buf.new }
    ensures most { result ≤ MOST_AT_ONCE }
    ensures next { HoldsNext bytes.now result buf.new }
{
    let count = bytes.len().min(buf.len()).min(MOST_AT_ONCE);
    buf[..count].copy_from_slice(&bytes[..count]);
    count
}
