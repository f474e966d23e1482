//! Readers and writers with the number of their failed calls, and, for a writer, whether it is flushed.
ghost use Rattle.std.specs.Prelude.{◌≡◌, false, is_ok, OnOk};
ghost use Rattle.std.specs.Io.{ReadsAtMost, WritesAtMost};
ghost use Rattle.std.specs.Io.KnownBytes.{Keeps, Appends, ReadConsumes, WriteAppends};

use std::io::{Read, Result, Write};

/// A reader or a writer with the number of its calls that failed.
///
/// Each call is forwarded unchanged, so retries inside one call count as one call.
#[derive(Drop)]
pub struct Counted<D> {
    inner: D,
    /// The number of failed calls, which stays at `u64::MAX` once it is reached.
    failed: u64,
    /// `true` if the last call of the writer was a flush that succeeded.
    flushed: bool,
}

impl<D> Counted<D> {
    ghost use Rattle.naga_streams.specs.Counted.{stream_of, failed_calls, is_flushed, count_after};

    /// Creates a counter for a reader or a writer, with no failed calls.
    pub fn new(inner: D) -> Counted<D>
        ensures stream { stream_of result ≡ inner }
        ensures failed { failed_calls result ≡ 0 }
        ensures flushed { is_flushed result ≡ false }
    {
        Counted {
            inner,
            failed: 0,
            flushed: false,
        }
    }

    /// Returns the number of calls that failed.
    pub fn failed(&self) -> u64
        ensures { result ≡ failed_calls self.now }
    {
        self.failed
    }

    /// Counts a call that returned this outcome.
    fn count<T>(&mut self, outcome: &Result<T>)
        ensures stream { stream_of self.new ≡ stream_of self.old }
        ensures failed { failed_calls self.new ≡ count_after (failed_calls self.old) outcome.now }
        ensures flushed { is_flushed self.new ≡ is_flushed self.old }
    {
        if outcome.is_err() {
            self.failed = self.failed.saturating_add(1);
        }
    }
}

impl<R: Read> Read for Counted<R> {
    ghost use Rattle.naga_streams.specs.Counted.{stream_of, failed_calls, count_after};

    ghost remaining = { λ counted. R.remaining (stream_of counted) };

    fn read(&mut self, buf: &mut [u8]) -> Result<usize>
        ensures bound { ReadsAtMost result buf.new }
        ensures bytes { ReadConsumes (R.remaining (stream_of self.old)) (R.remaining (stream_of self.new))
            result buf.new }
        ensures count { failed_calls self.new ≡ count_after (failed_calls self.old) result }
    {
        let outcome = self.inner.read(buf);
        self.count(&outcome);
        outcome
    }
}

impl<W: Write> Write for Counted<W> {
    ghost use Rattle.naga_streams.specs.Counted.{stream_of, failed_calls, is_flushed, count_after};

    ghost contents = { λ counted. W.contents (stream_of counted) };

    fn write(&mut self, buf: &[u8]) -> Result<usize>
        ensures bound { WritesAtMost result buf.now }
        ensures bytes { WriteAppends (W.contents (stream_of self.old)) (W.contents (stream_of self.new))
            result buf.now }
        ensures count { failed_calls self.new ≡ count_after (failed_calls self.old) result }
        ensures flushed { is_flushed self.new ≡ false }
    {
        self.flushed = false;
        let outcome = self.inner.write(buf);
        self.count(&outcome);
        outcome
    }

    fn flush(&mut self) -> Result<()>
        ensures bytes { Keeps (W.contents (stream_of self.old)) (W.contents (stream_of self.new)) }
        ensures count { failed_calls self.new ≡ count_after (failed_calls self.old) result }
        ensures flushed { is_flushed self.new ≡ is_ok result }
    {
        let outcome = self.inner.flush();
        self.flushed = outcome.is_ok();
        self.count(&outcome);
        outcome
    }

    fn write_all(&mut self, buf: &[u8]) -> Result<()>
        ensures bytes { OnOk result
            (Appends (W.contents (stream_of self.old)) (W.contents (stream_of self.new)) buf.now) }
        ensures count { failed_calls self.new ≡ count_after (failed_calls self.old) result }
        ensures flushed { is_flushed self.new ≡ false }
    {
        self.flushed = false;
        let outcome = self.inner.write_all(buf);
        self.count(&outcome);
        outcome
    }
}
