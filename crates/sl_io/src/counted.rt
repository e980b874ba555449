//! A stream that counts its faults.
use std::io::{self, Read, Write};

/// A reader or a writer that counts its faults: each error that it answers, and each write that
/// takes none of one or more octets. The count stops at 2^64 - 1. An interrupted call is an error
/// like any other. Every call is handed on to the stream, and its answer comes back unchanged: the
/// code shows that, and no clause says it.
#[derive(Drop)]
pub struct Counted<T> {
    stream: T,
    faults: u64,
}

impl<T> Counted<T> {
    ghost use Rattle.std.specs.Prelude.{◌≡◌};
    ghost use Rattle.sl_io.specs.Counted.{stream_of, faults_of};

    /// The stream, with a count of 0.
    pub fn new(stream: T) -> Counted<T>
        ensures stream { stream_of result ≡ stream }
        ensures faults { faults_of result ≡ 0 }
    {
        Counted { stream, faults: 0 }
    }

    /// The count of faults.
    pub fn faults(&self) -> u64
        ensures { result ≡ faults_of self.now }
    {
        self.faults
    }

    /// The stream, without the count.
    pub fn into_inner(self) -> T
        ensures { result ≡ stream_of self }
    {
        let Counted { stream, .. } = self;
        stream
    }
}

impl<R: Read> Read for Counted<R> {
    ghost use Rattle.std.specs.Prelude.{◌≡◌, is_err, if◌then◌else◌};
    ghost use Rattle.std.specs.Io.{ReadsAtMost};
    ghost use Rattle.std.specs.Io.KnownBytes.{ReadConsumes};
    ghost use Rattle.sl_io.specs.Counted.{stream_of, faults_of};
    ghost use Rattle.sl_packet.specs.Sink.{one_more};

    ghost remaining = { λ c. R.remaining (stream_of c) };

    /// Reads from the stream. An error counts as a fault.
    fn read(&mut self, buf: &mut [u8]) -> io::Result<usize>
        ensures bound { ReadsAtMost result buf.new }
        ensures bytes { ReadConsumes (R.remaining (stream_of self.old))
            (R.remaining (stream_of self.new)) result buf.new }
        // An error counts as one fault, and nothing else does.
        ensures count { faults_of self.new ≡ (if is_err result then one_more (faults_of self.old)
            else faults_of self.old) }
    {
        let outcome = self.stream.read(buf);
        if outcome.is_err() {
            self.faults = self.faults.saturating_add(1);
        }
        outcome
    }
}

impl<W: Write> Write for Counted<W> {
    ghost use Rattle.std.specs.Prelude.{◌≡◌, is_err, if◌then◌else◌};
    ghost use Rattle.std.specs.Io.{WritesAtMost};
    ghost use Rattle.std.specs.Io.KnownBytes.{WriteAppends, Keeps};
    ghost use Rattle.sl_io.specs.Counted.{stream_of, faults_of, is_write_fault};
    ghost use Rattle.sl_packet.specs.Sink.{one_more};

    ghost contents = { λ c. W.contents (stream_of c) };

    /// Writes to the stream. An error counts as a fault, and so does a write that takes none of one
    /// or more octets.
    fn write(&mut self, buf: &[u8]) -> io::Result<usize>
        ensures bound { WritesAtMost result buf.now }
        ensures bytes { WriteAppends (W.contents (stream_of self.old))
            (W.contents (stream_of self.new)) result buf.now }
        // An error counts as one fault, and so does a write that takes none of one or more octets.
        ensures count { faults_of self.new ≡ (if is_write_fault result buf.now
            then one_more (faults_of self.old) else faults_of self.old) }
    {
        let outcome = self.stream.write(buf);
        let failed = match &outcome {
            Ok(taken) => *taken == 0 && !buf.is_empty(),
            Err(_) => true,
        };
        if failed {
            self.faults = self.faults.saturating_add(1);
        }
        outcome
    }

    /// Flushes the stream. An error counts as a fault.
    fn flush(&mut self) -> io::Result<()>
        ensures bytes { Keeps (W.contents (stream_of self.old)) (W.contents (stream_of self.new)) }
        // An error counts as one fault, and nothing else does.
        ensures count { faults_of self.new ≡ (if is_err result then one_more (faults_of self.old)
            else faults_of self.old) }
    {
        let outcome = self.stream.flush();
        if outcome.is_err() {
            self.faults = self.faults.saturating_add(1);
        }
        outcome
    }
}
