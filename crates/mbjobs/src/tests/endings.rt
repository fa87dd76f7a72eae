use super::runs::Host;
use crate::written;
use mbj_io::MemSink;
use std::alloc::Global;
use std::io;
use std::io::Write;

/// A writer whose flush fails or succeeds as it is told.
#[derive(Drop)]
struct Flushed {
    fails: bool,
}

impl Write for Flushed {
    fn write(&mut self, bytes: &[u8]) -> io::Result<usize> {
        Ok(bytes.len())
    }

    fn flush(&mut self) -> io::Result<()> {
        if self.fails {
            return Err(io::ErrorKind::Other.into());
        }
        Ok(())
    }
}

/// Whether the flush fails, the status before it, the status after it, and what is told.
type Row<'a> = (bool, u8, u8, &'a [u8]);

const ROWS: [Row; 4] = [
    (false, 0, 0, b""),
    (true, 0, 4, b"mbjobs: write failed\n"),
    (false, 5, 5, b""),
    (true, 5, 5, b""),
];

fn check<R: Host>(rt: &R, alloc: Global, row: Row) {
    let (fails, before, after, told) = row;
    let mut err = MemSink::new(alloc, 64, 64, &[]).expect(rt, "memory");
    let status = written(&mut Flushed { fails }, &mut err, before);
    assert!(rt; status == after && err.held() == told);
}

#[test]
fn the_last_flush_decides_a_good_status(rt: HostRuntime) {
    for row in ROWS {
        check(&rt, rt.alloc(), row);
    }
}
