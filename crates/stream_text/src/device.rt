// Readers and writers that count how often they failed.

ghost use Rattle.std.specs.Prelude.{◌≡◌, ℕ, true, Ok};
ghost use Rattle.std.specs.Io.{ReadsAtMost, WritesAtMost};
ghost use Rattle.std.specs.Io.KnownBytes.{ReadConsumes, WriteAppends, Keeps};
ghost use Rattle.stream_text.specs.Failures.{Rose, after_read, after_write};

use std::io;
use std::io::{Read, Write};

/// What counts how often it failed: a reader its reads that failed, a writer its writes that failed
/// or took 0 bytes. Once the count is 2^64 - 1 it stays there, and each call counts as one in which
/// it rose.
pub trait Device {
    ghost count: { Self → ℕ };

    /// How often it failed so far.
    fn failures(&self) -> u64
        ensures { result ≡ count self.now };
}

/// Whether the device has failed more often than so many times, as far as it counts.
pub fn has_failed<D: Device>(device: &D, failures: u64) -> bool
    ensures { result ≡ true → Rose failures (D.count device.now) }
{
    let after = device.failures();
    failures < after || after == u64::MAX
}

impl<D: Device> Device for &mut D {
    ghost count = { λ d. D.count d.now };

    fn failures(&self) -> u64 {
        (**self).failures()
    }
}

/// A reader or a writer, and how often it failed.
#[derive(Drop)]
pub struct Counted<T> {
    inner: T,
    failures: u64,
}

impl<T> Counted<T> {
    ghost use Rattle.stream_text.specs.CountedView.{counted_inner, counted_failures};

    /// What reads and writes as `inner` does; it has not failed yet.
    pub fn new(inner: T) -> Counted<T>
        ensures inner { counted_inner result ≡ inner }
        ensures none { counted_failures result ≡ 0 }
    {
        Counted { inner, failures: 0 }
    }

    /// The reader or writer itself.
    pub fn into_inner(self) -> T
    where
        T: Drop,
        ensures { result ≡ counted_inner self }
    {
        self.inner
    }
}

impl<T> Device for Counted<T> {
    ghost count = { λ c. c.failures };

    fn failures(&self) -> u64 {
        self.failures
    }
}

impl<T: Read> Read for Counted<T> {
    ghost use Rattle.stream_text.specs.CountedView.{counted_inner, counted_failures};

    ghost remaining = { λ c. T.remaining c.inner };

    fn read(&mut self, buf: &mut [u8]) -> io::Result<usize>
        ensures bound { ReadsAtMost result buf.new }
        ensures bytes { ReadConsumes (T.remaining (counted_inner self.old))
            (T.remaining (counted_inner self.new)) result buf.new }
        ensures counted { counted_failures self.new
            ≡ after_read (counted_failures self.old) result }
    {
        let answer = self.inner.read(buf);
        if answer.is_err() {
            self.failures = self.failures.saturating_add(1);
        }
        answer
    }
}

impl<T: Write> Write for Counted<T> {
    ghost use Rattle.stream_text.specs.CountedView.{counted_inner, counted_failures};

    ghost contents = { λ c. T.contents c.inner };

    #[inline(always)]
    fn write(&mut self, buf: &[u8]) -> io::Result<usize>
        ensures bound { WritesAtMost result buf.now }
        ensures bytes { WriteAppends (T.contents (counted_inner self.old))
            (T.contents (counted_inner self.new)) result buf.now }
        ensures counted { counted_failures self.new
            ≡ after_write (counted_failures self.old) result }
    {
        match self.inner.write(buf) {
            Ok(taken) => {
                if taken == 0 {
                    self.failures = self.failures.saturating_add(1);
                }
                Ok(taken)
            }
            Err(error) => {
                self.failures = self.failures.saturating_add(1);
                Err(error)
            }
        }
    }

    fn flush(&mut self) -> io::Result<()>
        ensures bytes { Keeps (T.contents (counted_inner self.old))
            (T.contents (counted_inner self.new)) }
        ensures counted { counted_failures self.new ≡ counted_failures self.old }
    {
        self.inner.flush()
    }
}
