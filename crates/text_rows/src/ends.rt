use std::alloc::{AllocError, Global};
use std::io;
use std::io::{BufWriter, ErrorKind, Read, Write};
use std::test::Fail;
use tm_io::*;

const SCRIPT: &[u8] = b"tmig 1\nnodes 1\ncpus 1\ntimers 1\nat 10\narm 0 0 global 50 0 0\nend 100\n";

const REPORT: &[u8] = b"arm 10 0 0 global 61\nrun 61 0 0 0 61 done\nend 100\n";

// Fails in every call, but for `write` where that is to take all.
#[derive(Drop)]
struct Broken {
    takes: bool,
}

impl Read for Broken {
    fn read(&mut self, _buf: &mut [u8]) -> io::Result<usize> {
        Err(io::Error::from(ErrorKind::Other))
    }
}

impl Write for Broken {
    fn write(&mut self, buf: &[u8]) -> io::Result<usize> {
        if self.takes {
            return Ok(buf.len());
        }
        Err(io::Error::from(ErrorKind::Other))
    }

    fn flush(&mut self) -> io::Result<()> {
        Err(io::Error::from(ErrorKind::Other))
    }
}

// Fails once, in its first read and in its first write, or in its first flush; never again.
#[derive(Drop)]
struct FailsOnce {
    in_flush: bool,
    failed: bool,
}

impl FailsOnce {
    fn new(in_flush: bool) -> FailsOnce {
        FailsOnce {
            in_flush,
            failed: false,
        }
    }

    fn fails_now(&mut self) -> io::Result<()> {
        if self.failed {
            return Ok(());
        }
        self.failed = true;
        Err(io::Error::from(ErrorKind::Other))
    }
}

impl Read for FailsOnce {
    fn read(&mut self, buf: &mut [u8]) -> io::Result<usize> {
        self.fails_now()?;
        if buf.is_empty() {
            return Ok(0);
        }
        buf[0] = b'x';
        Ok(1)
    }
}

impl Write for FailsOnce {
    fn write(&mut self, buf: &[u8]) -> io::Result<usize> {
        if !self.in_flush {
            self.fails_now()?;
        }
        Ok(buf.len())
    }

    fn flush(&mut self) -> io::Result<()> {
        self.fails_now()
    }
}

fn taken(source: &mut impl Source) -> (Result<usize, IoFault>, [u8; 4]) {
    let mut room = [b'.'; 4];
    let answer = source.take(&mut room);
    (answer, room)
}

fn reads(alloc: Global, source: &mut impl Source, most: usize, want: &[u8]) -> bool {
    match read_all(alloc, source, most) {
        Ok(bytes) => bytes.as_slice() == want,
        Err(_) => false,
    }
}

fn refuses(alloc: Global, source: &mut impl Source, most: usize, want: ReadFault) -> bool {
    match read_all(alloc, source, most) {
        Ok(_) => false,
        Err(fault) => fault == want,
    }
}

fn stops(sink: &mut impl Sink, bytes: &[u8], written: usize, cause: WriteCause) -> bool {
    write_all(sink, bytes) == Err(WriteFault { written, cause })
}

fn script(alloc: Global) -> Result<PlainSource, AllocError> {
    Ok(PlainSource::new(Vec::from_slice(alloc, SCRIPT)?))
}

// The script by 16 bytes a call, so the fifth call gives its last 3 bytes and the sixth none.
fn script_failing_at(alloc: Global, call: u32) -> Result<MemorySource, AllocError> {
    let bytes = Vec::from_slice(alloc, SCRIPT)?;
    Ok(MemorySource::new(bytes, 16, vec![in alloc; call]?))
}

// Many bytes by 9,000 a call, of which call 2 fails.
fn long_source(alloc: Global) -> Result<MemorySource, AllocError> {
    let bytes = vec![in alloc; b'x'; 5000]?;
    Ok(MemorySource::new(bytes, 9000, vec![in alloc; 2]?))
}

#[test]
fn take_fills_the_front_of_the_room(rt: HostRuntime) -> Result<(), Fail> {
    let mut plain = script(rt.alloc())?;
    assert!(rt; taken(&mut plain) == (Ok(4), *b"tmig"));
    assert!(rt; taken(&mut plain) == (Ok(4), *b" 1\nn"));
    let mut reader = StdSource::new(b"abc".as_slice());
    assert!(rt; taken(&mut reader) == (Ok(3), *b"abc."));
    assert!(rt; taken(&mut reader) == (Ok(0), *b"...."));
    Ok(())
}

#[test]
fn reading_ends_with_the_source_or_past_the_most(rt: HostRuntime) -> Result<(), Fail> {
    let alloc = rt.alloc();
    for most in [67, usize::MAX] {
        assert!(rt;
            reads(alloc, &mut script(alloc)?, most, SCRIPT),
            "at {most}"
        );
        assert!(rt;
            reads(alloc, &mut StdSource::new(SCRIPT), most, SCRIPT),
            "at {most}"
        );
    }
    for most in [66, 0] {
        assert!(rt;
            refuses(alloc, &mut script(alloc)?, most, ReadFault::TooLong),
            "at {most}"
        );
    }
    Ok(())
}

#[test]
fn a_read_fails_in_mid_stream(rt: HostRuntime) -> Result<(), Fail> {
    let alloc = rt.alloc();
    for (call, taken) in [(1, 0), (2, 16), (3, 32), (4, 48), (5, 64), (6, 67)] {
        let mut source = script_failing_at(alloc, call)?;
        assert!(rt;
            refuses(alloc, &mut source, 67, ReadFault::Read),
            "at call {call}"
        );
        assert!(rt;
            reads(alloc, &mut source, 67, &SCRIPT[taken..]),
            "at call {call}"
        );
    }
    assert!(rt; reads(alloc, &mut script_failing_at(alloc, 7)?, 67, SCRIPT));
    Ok(())
}

#[test]
fn a_write_fails_in_mid_stream(rt: HostRuntime) -> Result<(), Fail> {
    let alloc = rt.alloc();
    for (call, written) in [(1, 0), (2, 16), (3, 32), (4, 48)] {
        let mut sink = MemorySink::new(alloc, 16, vec![in alloc; call]?);
        assert!(rt;
            stops(&mut sink, REPORT, written, WriteCause::Failed),
            "at call {call}"
        );
        assert!(rt; sink.held() == &REPORT[..written], "at call {call}");
    }
    let mut sink = MemorySink::new(alloc, 16, vec![in alloc; 5]?);
    assert!(rt; write_all(&mut sink, REPORT) == Ok(()));
    assert!(rt; sink.held() == REPORT);
    Ok(())
}

#[test]
fn rooms_and_pieces_have_at_most_4096_bytes(rt: HostRuntime) -> Result<(), Fail> {
    let alloc = rt.alloc();
    let mut source = long_source(alloc)?;
    assert!(rt; refuses(alloc, &mut source, 9000, ReadFault::Read));
    assert!(rt; reads(alloc, &mut source, 9000, &[b'x'; 904]));
    let mut sink = MemorySink::new(alloc, 9000, vec![in alloc; 2]?);
    assert!(rt; stops(&mut sink, &[b'x'; 5000], 4096, WriteCause::Failed));
    Ok(())
}

#[test]
fn a_sink_holds_all_that_was_written(rt: HostRuntime) -> Result<(), Fail> {
    let alloc = rt.alloc();
    let mut sink = PlainSink::new(alloc);
    assert!(rt; sink.put(b"ab") == Ok(2));
    assert!(rt; write_all(&mut sink, b"cde") == Ok(()));
    assert!(rt; sink.held() == b"abcde".as_slice());
    let mut buffered = BufWriter::new(alloc, Vec::new(alloc))?;
    let mut sink = StdSink::new(&mut buffered);
    assert!(rt; write_all(&mut sink, REPORT) == Ok(()));
    assert!(rt; buffered.get_ref().as_slice() == REPORT);
    Ok(())
}

#[test]
fn a_writer_fails_or_takes_nothing(rt: HostRuntime) -> Result<(), Fail> {
    let mut room = [b'.'; 3];
    let mut full = StdSink::new(room.as_mut_slice());
    assert!(rt; stops(&mut full, b"abcde", 3, WriteCause::TookNothing));
    assert!(rt; room == *b"abc");
    for takes in [false, true] {
        let mut broken = StdSink::new(Broken { takes });
        assert!(rt; stops(&mut broken, b"abcde", 0, WriteCause::Failed));
    }
    let mut broken = StdSource::new(Broken { takes: true });
    assert!(rt; refuses(rt.alloc(), &mut broken, 9, ReadFault::Read));
    Ok(())
}

// No clause can say of a reader of std how often it failed.
#[test]
fn a_fault_that_comes_once_is_told_and_not_tried_again(rt: HostRuntime) -> Result<(), Fail> {
    let mut source = StdSource::new(FailsOnce::new(false));
    assert!(rt; taken(&mut source) == (Err(IoFault::Failed), *b"...."));
    assert!(rt; taken(&mut source) == (Ok(1), *b"x..."));
    let mut source = StdSource::new(FailsOnce::new(false));
    assert!(rt; refuses(rt.alloc(), &mut source, 9, ReadFault::Read));
    for in_flush in [false, true] {
        let mut sink = StdSink::new(FailsOnce::new(in_flush));
        assert!(rt; stops(&mut sink, REPORT, 0, WriteCause::Failed));
        assert!(rt; write_all(&mut sink, REPORT) == Ok(()));
    }
    Ok(())
}

#[test]
fn a_full_sink_holds_what_it_had_room_for(rt: HostRuntime) -> Result<(), Fail> {
    let mut sink = FullSink::new(rt.alloc(), 20);
    assert!(rt; stops(&mut sink, REPORT, 20, WriteCause::TookNothing));
    assert!(rt; sink.held() == b"arm 10 0 0 global 61".as_slice());
    assert!(rt; sink.put(b"x") == Ok(0));
    assert!(rt; sink.put(b"") == Ok(0));
    let mut sink = MemorySink::new(rt.alloc(), 0, Vec::new(rt.alloc()));
    assert!(rt; stops(&mut sink, REPORT, 0, WriteCause::TookNothing));
    Ok(())
}
