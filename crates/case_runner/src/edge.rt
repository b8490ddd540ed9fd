//! The shelf of the system's files and the sink over a writer, of which no contract says what they give and take.

use case_texts::Case;
use case_texts::texts::put_text;
use ports::{Fetch, FileShelf, OutSink, Shelf, Sink};
use std::io::Write;
use std::rt::Files;
use std::{fs, io};

/// Takes at most three bytes a write, and then none, or fails.
#[derive(Drop)]
struct Narrow {
    bytes: Vec<u8>,
    room: usize,
    fails: bool,
}

impl Write for Narrow {
    fn write(&mut self, piece: &[u8]) -> io::Result<usize> {
        let taken = piece.len().min(self.room).min(3);
        if taken == 0 && self.fails {
            return Err(io::Error::from(io::ErrorKind::BrokenPipe));
        }
        self.bytes.extend_from_slice(&piece[..taken])?;
        self.room -= taken;
        Ok(taken)
    }

    fn flush(&mut self) -> io::Result<()> {
        Ok(())
    }
}

/// Reports what comes of eight bytes that are put into a sink with room for so many.
fn put(report: &mut Case<'_>, room: usize, fails: bool) {
    let mut narrow = Narrow {
        bytes: Vec::new(report.alloc()),
        room,
        fails,
    };
    let mut sink = OutSink::new(&mut narrow);
    let is_put = sink.put(b"bound 42").is_ok();
    let faults = sink.faults();
    report.put("room ");
    report.show(&room);
    report.put(": ");
    report.show(&is_put);
    report.put(", ");
    report.show(&faults);
    report.put(" faults, '");
    put_text(report, narrow.bytes.as_slice());
    report.put("'\n");
}

/// Reports as what a file is fetched, by the count of its bytes.
fn fetch<R: Files>(report: &mut Case<'_>, shelf: &mut FileShelf<R>, path: &str) {
    report.put(path);
    match shelf.fetch(path) {
        Ok(bytes) => {
            report.put(": ");
            report.show(&bytes.len());
            report.put(" bytes\n");
        }
        Err(Fetch::Failed) => report.put(": failed\n"),
        Err(Fetch::TooLong) => report.put(": too long\n"),
        Err(Fetch::Memory) => report.put(": no memory\n"),
    }
}

/// Fetches a file that has so many bytes, which is written for that and removed again.
fn fetch_zeros<R: Files + AllocGlobal>(
    rt: &R,
    report: &mut Case<'_>,
    count: usize,
) -> anyhow::Result<()> {
    let bytes: Vec<u8> = vec![in rt.alloc(); 0; count]?;
    fs::write(rt, "zeros", bytes.as_slice())?;
    fetch(report, &mut FileShelf::new(rt.alloc(), rt), "zeros");
    fs::remove_file(rt, "zeros")?;
    Ok(())
}

/// Reports what files and writers come to: a file of ten bytes, one that isn't there, a folder, files of as many bytes
/// as may be and of one more, and writers that take less than is put.
pub fn run(rt: &(impl Files + AllocGlobal), report: &mut Case<'_>) -> anyhow::Result<()> {
    for path in ["ten", "none", "."] {
        fetch(report, &mut FileShelf::new(rt.alloc(), rt), path);
    }
    for count in [0, 65_537, 16_777_216, 16_777_217] {
        fetch_zeros(rt, report, count)?;
    }
    for (room, fails) in [(8, false), (8, true), (7, false), (7, true), (0, true)] {
        put(report, room, fails);
    }
    Ok(())
}
