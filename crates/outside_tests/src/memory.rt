// The objects in memory: with ample memory their calls succeed, and exactly those fail that are planned to. What a row tries is
// one function, whose answer the test asserts. Each function makes few values that have to be dropped.
ghost use Rattle.std.specs.Prelude.{◌<◌};

use crate::attempts::{are_copied, ends_reading, ends_writing, fails_to_take, takes, writes};
use pd_base::OutOfMemory;
use pd_io::{FileCall, MOST_AT_ONCE, MemoryFiles, MemorySink, SteadyFiles, SteadySink};
use std::alloc::Global;
use system_files::StdSink;

// The length of a text that takes two writes.
const TWO_WRITES: usize = 5000;

#[test]
fn files_up_to_the_limit_are_read(rt: HostRuntime) {
    let rows = [
        (0usize, 0usize, true),
        (5, 5, true),
        (6, 5, false),
        (MOST_AT_ONCE, MOST_AT_ONCE, true),
        (MOST_AT_ONCE + 1, MOST_AT_ONCE, false),
        (MOST_AT_ONCE + 1, MOST_AT_ONCE + 1, true),
        (9000, 20000, true),
    ];
    for (len, limit, whole) in rows {
        let read = is_read(rt.alloc(), len, limit, whole);
        assert!(rt; is_so(read), "{len} {limit}");
    }
}

// Whether memory was ample, and the answer is yes.
fn is_so(answer: Result<bool, OutOfMemory>) -> bool {
    matches!(answer, Ok(true))
}

// Whether a file of so many bytes is read under a limit, or else is too long.
fn is_read(alloc: Global, len: usize, limit: usize, whole: bool) -> Result<bool, OutOfMemory>
    requires { limit < usize.MAX }
{
    let text = vec![in alloc; 7u8; len]?;
    is_read_as(alloc, text.as_slice(), limit, whole)
}

// The same of a file with this text.
fn is_read_as(alloc: Global, text: &[u8], limit: usize, whole: bool) -> Result<bool, OutOfMemory>
    requires { limit < usize.MAX }
{
    let mut files = files_with(alloc, text)?;
    Ok(ends_reading(alloc, &mut files, text, limit, whole))
}

// Files of which one is there.
fn files_with(alloc: Global, text: &[u8]) -> Result<MemoryFiles, OutOfMemory> {
    let mut files = MemoryFiles::new(alloc);
    files.put("name", text)?;
    Ok(files)
}

#[test]
fn written_files_hold_their_bytes(rt: HostRuntime) {
    for len in [0usize, 1, MOST_AT_ONCE, MOST_AT_ONCE + 1, 9000] {
        assert!(rt; is_so(is_held(rt.alloc(), len)), "{len}");
    }
}

// Whether a file holds the bytes that were written over its old ones, and no other is there.
fn is_held(alloc: Global, len: usize) -> Result<bool, OutOfMemory> {
    let text = vec![in alloc; 8u8; len]?;
    is_held_as(alloc, text.as_slice())
}

// The same of this text.
fn is_held_as(alloc: Global, text: &[u8]) -> Result<bool, OutOfMemory> {
    let mut files = files_with(alloc, b"old")?;
    let written = writes(&mut files, "name", text);
    Ok(written && files.get("name") == Some(text) && files.get("other").is_none())
}

// A call that fails when two writes are written, whether they fail by it, and how many bytes are left.
#[derive(Clone, Copy)]
struct Planned {
    call: FileCall,
    nth: u64,
    fails: bool,
    left: usize,
}

// Such a call.
const fn plan(call: FileCall, nth: u64, fails: bool, left: usize) -> Planned {
    Planned {
        call,
        nth,
        fails,
        left,
    }
}

#[test]
fn a_planned_failure_of_writing_leaves_a_front(rt: HostRuntime) {
    let rows = [
        plan(FileCall::BeginWrite, 1, true, 3),
        plan(FileCall::Write, 1, true, 0),
        plan(FileCall::Write, 2, true, MOST_AT_ONCE),
        plan(FileCall::Finish, 1, true, TWO_WRITES),
        plan(FileCall::Write, 3, false, TWO_WRITES),
    ];
    for planned in rows {
        assert!(rt; is_so(is_left(rt.alloc(), planned)), "{}", planned.left);
    }
}

// Whether writing ends so when a call fails as planned.
fn is_left(alloc: Global, planned: Planned) -> Result<bool, OutOfMemory> {
    let text = vec![in alloc; 7u8; TWO_WRITES]?;
    is_left_of(alloc, text.as_slice(), planned)
}

// The same of this text.
fn is_left_of(alloc: Global, text: &[u8], planned: Planned) -> Result<bool, OutOfMemory> {
    let mut files = files_with(alloc, b"old")?;
    leaves(&mut files, text, planned)
}

// The same of these files.
fn leaves(files: &mut MemoryFiles, text: &[u8], planned: Planned) -> Result<bool, OutOfMemory> {
    files.fail(planned.call, planned.nth)?;
    Ok(ends_writing(files, text, planned.fails) && held(files) == planned.left)
}

// How many bytes the file holds.
fn held(files: &MemoryFiles) -> usize {
    match files.get("name") {
        Some(bytes) => bytes.len(),
        None => 0,
    }
}

#[test]
fn sinks_take_all_bytes(rt: HostRuntime) {
    assert!(rt; is_so(are_taken(rt.alloc())));
}

// Whether sinks take a text of two writes.
fn are_taken(alloc: Global) -> Result<bool, OutOfMemory> {
    let text = vec![in alloc; 7u8; TWO_WRITES]?;
    let text = text.as_slice();
    Ok(is_taken_in_memory(alloc, text)? && is_taken_steadily(alloc, text) && is_taken(alloc, text))
}

// Whether a sink in memory takes a text of two writes, and nothing by the third, which fails as planned.
fn is_taken_in_memory(alloc: Global, text: &[u8]) -> Result<bool, OutOfMemory> {
    let mut sink = MemorySink::new(alloc);
    sink.fail(3)?;
    let taken = takes(&mut sink, text) && sink.bytes() == text;
    Ok(taken && fails_to_take(&mut sink, b"more") && sink.bytes() == text)
}

// Whether a steady sink takes a text.
fn is_taken_steadily(alloc: Global, text: &[u8]) -> bool {
    let mut sink = SteadySink::new(alloc);
    takes(&mut sink, text) && sink.bytes() == text
}

// Whether a sink over bytes of std takes a text.
fn is_taken(alloc: Global, text: &[u8]) -> bool {
    takes(&mut StdSink::new(Vec::new(alloc)), text)
}

#[test]
fn an_absent_name_is_an_empty_steady_file(rt: HostRuntime) {
    assert!(rt; is_so(are_steady(rt.alloc())));
}

// Whether an absent file is read as empty, holds the text of another once this is written to it, and no third one is there.
fn are_steady(alloc: Global) -> Result<bool, OutOfMemory> {
    let mut files = SteadyFiles::new(alloc);
    files.put("name", b"text")?;
    Ok(is_copied(alloc, &mut files))
}

// The same of these files.
fn is_copied(alloc: Global, files: &mut SteadyFiles) -> bool {
    are_copied(alloc, files, "copy", b"text")
        && files.get("copy") == Some(b"text".as_slice())
        && files.get("third").is_none()
}
