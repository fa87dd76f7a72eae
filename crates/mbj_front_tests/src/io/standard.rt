use super::{gives, takes};
use mbj_io::{Failed, Source, StdSink, StdSource};
use std::io::{self, ErrorKind, Read, Write};

// A reader and a writer that always fail.
#[derive(Drop)]
struct Broken;

impl Read for Broken {
    fn read(&mut self, _buf: &mut [u8]) -> io::Result<usize> {
        Err(ErrorKind::BrokenPipe.into())
    }
}

impl Write for Broken {
    fn write(&mut self, _buf: &[u8]) -> io::Result<usize> {
        Err(ErrorKind::BrokenPipe.into())
    }

    fn flush(&mut self) -> io::Result<()> {
        Ok(())
    }
}

#[test]
fn a_source_gives_what_its_reader_gives(rt: HostRuntime) {
    let mut source = StdSource::new(b"abc".as_slice());
    let pieces = gives(&mut source, 2, Ok(b"ab")) && gives(&mut source, 2, Ok(b"c"));
    assert!(rt; pieces && gives(&mut source, 2, Ok(b"")) && source.faults() == 0);
}

#[test]
fn each_error_is_counted(rt: HostRuntime) {
    let mut source = StdSource::new(Broken);
    let mut sink = StdSink::new(Broken);
    for count in 1..3 {
        let failed = gives(&mut source, 2, Err(Failed)) && takes(&mut sink, b"a", Err(Failed));
        assert!(rt; failed && source.faults() == count && sink.faults() == count);
    }
}

#[test]
fn a_writer_that_takes_nothing_of_a_piece_fails(rt: HostRuntime) {
    let mut room = [0; 2];
    let mut sink = StdSink::new(&mut room[..]);
    let taken = takes(&mut sink, b"abc", Ok(2)) && takes(&mut sink, b"", Ok(0));
    let calm = sink.faults() == 0;
    assert!(rt; taken && calm && takes(&mut sink, b"c", Err(Failed)) && sink.faults() == 1);
}

#[test]
fn the_standard_input_is_a_source(rt: HostRuntime) {
    let mut source = StdSource::new(rt.stdin());
    let failed = source.read(&mut [0; 16]).is_err();
    assert!(rt; source.faults() == u64::from(failed));
}

#[test]
fn the_standard_output_is_a_sink(rt: HostRuntime) {
    let mut sink = StdSink::new(rt.stdout());
    let taken = takes(&mut sink, b"\n", Ok(1)) && takes(&mut sink, b"", Ok(0));
    assert!(rt; taken && sink.faults() == 0);
}
