//! Writers and readers that fail.
use super::{CREW, assert_bytes, assert_is, assert_text, executed, plain};
use batch_cli::{
    ArgFault, Free, Journal, RunFault, ScriptFault, execute, parse_script, read_journal,
    read_script, run_script,
};
use std::alloc::Global;
use std::io;
use std::io::{Read, Write};
use std::panic::Expect;
use std::process::Abort;
use std::sync::Wait;
use std::thread::Threads;

/// Takes three bytes at a time until it has its most, and then fails.
#[derive(Drop)]
struct Disk {
    held: Vec<u8>,
    most: usize,
}

impl Write for Disk {
    fn write(&mut self, bytes: &[u8]) -> io::Result<usize> {
        if self.held.len() >= self.most {
            return Err(io::Error::from(io::ErrorKind::StorageFull));
        }
        let count = bytes.len().min(3);
        self.held.extend_from_slice(&bytes[..count])?;
        Ok(count)
    }

    fn flush(&mut self) -> io::Result<()> {
        Ok(())
    }
}

/// Gives its byte `left` times, and then fails.
#[derive(Drop)]
struct Torn {
    byte: u8,
    left: u8,
}

impl Read for Torn {
    fn read(&mut self, bytes: &mut [u8]) -> io::Result<usize> {
        if self.left == 0 {
            return Err(io::Error::from(io::ErrorKind::BrokenPipe));
        }
        match bytes.first_mut() {
            Some(place) => {
                *place = self.byte;
                self.left = self.left.saturating_sub(1);
                Ok(1)
            }
            None => Ok(0),
        }
    }
}

// A disk with no bytes, and with room for `most`.
fn empty_disk(alloc: Global, most: usize) -> Disk {
    Disk {
        held: Vec::new(alloc),
        most,
    }
}

// A run of one line whose output has room for `most` bytes fails, and fills it.
fn assert_fails_onto<R: AllocGlobal + Abort + Threads + Wait + Sync>(rt: &R, most: usize) {
    let alloc = rt.alloc();
    let (mut out, mut err) = (empty_disk(alloc, most), Vec::new(alloc));
    let (status, journal) = execute(rt, alloc, &plain(), b"0 open 1\n", &mut out, &mut err);
    drop(journal);
    assert_is(rt, (status, out.held.len()), (1, most));
    assert_bytes(rt, &err, "trierun: cannot write output\n");
}

#[test]
fn a_writer_that_fails_fails_the_run(rt: HostRuntime) {
    for most in [0, 3] {
        assert_fails_onto(&rt, most);
    }
}

// The run of two lines whose output has room for `most` bytes, and what it took.
fn run_onto<R: AllocGlobal + Abort + Threads + Wait + Sync>(
    rt: &R,
    most: usize,
) -> (Result<Journal, RunFault>, Vec<u8>) {
    let alloc = rt.alloc();
    let script = parse_script(alloc, b"0 open 1\n0 size 1").expect(rt, "no script");
    let mut out = empty_disk(alloc, most);
    let ran = run_script(rt, alloc, &script, CREW, &mut out, &Free);
    (ran, out.held)
}

// Whatever it takes first of the fifteen bytes, the run fails.
#[test]
fn a_writer_that_fails_at_any_write_fails_the_run(rt: HostRuntime) {
    for most in [0, 3, 6, 9, 12] {
        let (ran, _) = run_onto(&rt, most);
        assert!(rt; matches!(ran, Err(RunFault::Write)), "with room for {most}");
    }
}

#[test]
fn a_writer_that_has_room_gets_all(rt: HostRuntime) {
    let (ran, held) = run_onto(&rt, 100);
    assert_is(&rt, ran.expect(&rt, "no run").len(), 2);
    assert_bytes(&rt, &held, "1 ok\n2 count 0\n");
}

#[test]
fn standard_error_that_fails_changes_no_status(rt: HostRuntime) {
    let alloc = rt.alloc();
    let (mut out, mut err) = (Vec::new(alloc), empty_disk(alloc, 0));
    let (status, _) = execute(&rt, alloc, &plain(), b"0", &mut out, &mut err);
    assert_is(&rt, (status, out.len()), (2, 0));
}

#[test]
fn a_reader_that_fails_fails_the_reading(rt: HostRuntime) {
    let torn = Torn {
        byte: b'#',
        left: 9,
    };
    assert!(rt; read_script(rt.alloc(), torn).is_err());
    let torn = Torn {
        byte: b'{',
        left: 9,
    };
    assert!(rt; read_journal(rt.alloc(), torn).is_err());
}

#[test]
fn no_more_is_read_than_a_script_may_have(rt: HostRuntime) {
    let alloc = rt.alloc();
    let all = read_script(alloc, io::repeat(b'#')).expect(&rt, "no script");
    assert_is(&rt, all.len(), 65_536 * 257 + 1);
    let few = read_script(alloc, b"0 open 1\n".as_slice()).expect(&rt, "no script");
    assert_bytes(&rt, &few, "0 open 1\n");
    let long = read_journal(alloc, io::repeat(b'{').take(16_900_000)).expect(&rt, "no journal");
    assert_is(&rt, long.len(), 16_900_000);
}

#[test]
fn faults_show_as_they_are_printed(rt: HostRuntime) {
    let alloc = rt.alloc();
    let shown = format!(in alloc;
        "{}, {}, {}, {}, {}",
        ScriptFault::Memory,
        RunFault::Memory,
        RunFault::Write,
        ArgFault::Memory,
        ArgFault::AuditJournal
    );
    let wanted =
        "out of memory, out of memory, cannot write output, out of memory, --audit takes no --journal";
    assert_text(&rt, &shown.expect(&rt, "no text"), wanted);
}

#[test]
fn faults_of_words_show_their_texts(rt: HostRuntime) {
    let alloc = rt.alloc();
    let help = String::from_str(alloc, "Usage").expect(&rt, "no text");
    let shown = format!(in alloc; "{}", ArgFault::Help(help)).expect(&rt, "no text");
    assert_text(&rt, &shown, "Usage");
    let shown = format!(in alloc; "{}", ArgFault::NotText).expect(&rt, "no text");
    assert!(rt; shown.as_str().starts_with("error: invalid UTF-8"));
}

#[test]
fn a_script_with_a_fault_is_not_run(rt: HostRuntime) {
    let (status, out, err) = executed(&rt, b"0 open 1\n0 open");
    assert_bytes(&rt, &err, "line 2: missing field\n");
    assert_bytes(&rt, &out, "");
    assert_is(&rt, status, 2);
}
