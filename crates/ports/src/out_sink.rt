ghost use Rattle.std.specs.Prelude.{◌≡◌, ◌<◌, ◌≤◌, None};

use crate::sink::{Put, Sink};
use std::io::Write;
use std::marker::Model;

/// A writer, as standard output is.
#[derive(Drop)]
pub struct OutSink<W> {
    writer: W,
    calls: u64,
    faults: u64,
}

impl<W> Model for OutSink<W> {
    ghost use Rattle.std.specs.Prelude.{None};
    ghost use Rattle.ports.specs.Sink.{SinkState};

    ghost Value = { SinkState };

    ghost view = { λ s. record { content = None; calls = s.calls; faults = s.faults } };
}

impl<W> OutSink<W> {
    /// A sink whose pieces go to this writer. What was written isn't told.
    pub fn new(writer: W) -> Self
        ensures { result ≡ record { content = None; calls = 0; faults = 0 } }
    {
        OutSink {
            writer,
            calls: 0,
            faults: 0,
        }
    }

    /// How often the writer failed.
    pub fn faults(&self) -> u64
        ensures { result ≡ self.now.faults }
    {
        self.faults
    }
}

/// Writes the whole piece and flushes, and answers whether that went well. A write of nothing doesn't.
fn write_whole(writer: &mut impl Write, piece: &[u8]) -> bool {
    let mut rest = piece;
    for _ in 0..u64::MAX {
        if rest.is_empty() {
            return writer.flush().is_ok();
        }
        match writer.write(rest) {
            Ok(0) | Err(_) => return false,
            Ok(count) => rest = &rest[count..],
        }
    }
    false
}

impl<W: Write> Sink for OutSink<W> {
    ghost meaning = { λ s. s };

    fn put(&mut self, piece: &[u8]) -> Result<(), Put> {
        self.calls = self.calls.saturating_add(1);
        if write_whole(&mut self.writer, piece) {
            return Ok(());
        }
        self.faults = self.faults.saturating_add(1);
        Err(Put::Failed)
    }
}
