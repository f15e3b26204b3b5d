// The files of the system. A test has a working folder of its own, which is empty when it begins. What a test repeats is one
// function, whose answer it asserts. Each function makes few values that have to be dropped.
use crate::attempts::{Attempt, FOLDER, FULL, fails_to_take, reads_no_more, writes_no_more};
use pd_io::Files;
use std::os::fd::AsRawFd;
use std::{fs, io};
use system_files::{StdFiles, StdSink};

// Whether all went well, and the answer is yes.
fn is_so(answer: io::Result<bool>) -> bool {
    matches!(answer, Ok(true))
}

#[test]
fn real_files_are_written_and_read(rt: HostRuntime) {
    assert!(rt; is_so(is_written_and_read(&rt)));
}

// Whether a file is written with 9,000 bytes, read again, and too long for a limit of a byte less.
fn is_written_and_read(rt: &HostRuntime) -> io::Result<bool> {
    let text = vec![in rt.alloc(); 7u8; 9000]?;
    Ok(holds_of_system(rt, Attempt::Again("name", text.as_slice())))
}

// Whether what is said at an attempt holds of the files of the system.
fn holds_of_system(rt: &HostRuntime, attempt: Attempt) -> bool {
    let mut files = StdFiles::new(rt.alloc(), rt);
    attempt.holds(rt.alloc(), &mut files)
}

// A name of 200 bytes, in a folder.
const LONG_NAME: &str =
    "folder/a-name-of-a-file-that-is-quite-as-long-as-the-longest-names-which-tools-make-of-a-whole-hierarchy-of-blocks.u_core.u_execute.u_multiplier.u_stage_three.u_carry_save_adders_of_64_bits.path_delays.tests";

#[test]
fn a_long_file_is_held_under_its_long_name(rt: HostRuntime) {
    assert!(rt; is_so(is_held(&rt)));
}

// Whether a file with a long name is written with 2,000,000 bytes, and read again, also by std.
fn is_held(rt: &HostRuntime) -> io::Result<bool> {
    fs::create_dir(rt, "folder")?;
    let text = b"0123456789".repeat(rt.alloc(), 200_000)?;
    let is_again = holds_of_system(rt, Attempt::Again(LONG_NAME, text.as_slice()));
    Ok(is_again && fs::read(rt, LONG_NAME)?.as_slice() == text.as_slice())
}

#[test]
fn a_longer_old_file_is_cut(rt: HostRuntime) {
    assert!(rt; is_so(is_cut(&rt)));
}

// Whether a file has the text that was written last.
fn is_cut(rt: &HostRuntime) -> io::Result<bool> {
    fs::write(rt, "name", "a longer old text")?;
    Ok(holds_of_system(rt, Attempt::Written("name")) && is_so(is_text(rt)))
}

// Whether the file has this text.
fn is_text(rt: &HostRuntime) -> io::Result<bool> {
    Ok(fs::read_to_string(rt, "name")?.as_str() == "text")
}

#[test]
fn what_the_system_refuses_has_failed(rt: HostRuntime) {
    assert!(rt; holds_of_system(&rt, Attempt::Refused));
    assert!(rt; is_so(fails_to_fill(&rt)));
}

// Whether a sink into the full device fails.
fn fails_to_fill(rt: &HostRuntime) -> io::Result<bool> {
    let mut sink = StdSink::new(fs::create(rt, FULL)?);
    Ok(fails_to_take(&mut sink, b"text"))
}

#[test]
fn a_device_is_written_that_cannot_be_synced(rt: HostRuntime) {
    assert!(rt; holds_of_system(&rt, Attempt::Written("/dev/null")));
}

#[test]
fn a_failed_call_gives_its_descriptor_back(rt: HostRuntime) {
    assert!(rt; is_so(gives_back(&rt)));
}

// Whether files give the free descriptor back by writing and by reading.
fn gives_back(rt: &HostRuntime) -> io::Result<bool> {
    let free = next_descriptor(rt)?;
    let mut files = StdFiles::new(rt.alloc(), rt);
    Ok(gives_back_by_writing(rt, &mut files, free) && gives_back_by_reading(rt, &mut files, free))
}

// Whether a file that is written has the free descriptor until a write fails, and then nothing more is written nor finished.
fn gives_back_by_writing<F: Files>(rt: &HostRuntime, files: &mut F, free: i32) -> bool {
    if files.begin_write(FULL).is_err() {
        return false;
    }
    let taken = is_taken(rt, free);
    let failed = writes_no_more(files);
    let back = is_free(rt, free);
    taken && failed && back && writes_no_more(files) && files.finish().is_err()
}

// Whether a file that is read has the free descriptor until a read fails, and then nothing more is read.
fn gives_back_by_reading<F: Files>(rt: &HostRuntime, files: &mut F, free: i32) -> bool {
    if files.begin_read(FOLDER).is_err() {
        return false;
    }
    let taken = is_taken(rt, free);
    let failed = reads_no_more(files);
    let back = is_free(rt, free);
    taken && failed && back && reads_no_more(files)
}

// Whether the next file that is opened gets another descriptor than this one.
fn is_taken(rt: &HostRuntime, descriptor: i32) -> bool {
    match next_descriptor(rt) {
        Ok(next) => next != descriptor,
        Err(_) => false,
    }
}

// Whether it gets this one.
fn is_free(rt: &HostRuntime, descriptor: i32) -> bool {
    match next_descriptor(rt) {
        Ok(next) => next == descriptor,
        Err(_) => false,
    }
}

// The descriptor that the next file gets that is opened.
fn next_descriptor(rt: &HostRuntime) -> io::Result<i32> {
    Ok(fs::open(rt, FOLDER)?.as_raw_fd())
}
