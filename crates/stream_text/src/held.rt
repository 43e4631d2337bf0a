// Output that is held back: a writer behind room for much, which it gets before more input is asked
// for. So who feeds a line sees its answer, and a piped file goes through in large pieces.

ghost use Rattle.std.specs.Io.{WritesAtMost};

use sample_core::Memory;
use std::alloc::Global;
use std::cell::RefCell;
use std::io::{self, BufWriter, Error, ErrorKind, Read, Write};

/// The most bytes that are held back.
pub const ROOM: usize = 65_536;

/// A writer that is yet to get some of its output, and whether it has refused any.
#[derive(Drop)]
pub struct Held<W: Write + Drop> {
    writer: BufWriter<W>,
    failed: bool,
}

impl<W: Write + Drop> Held<W> {
    ghost use Rattle.std.specs.Prelude.{◌≡◌, [], IfOk, false};
    ghost use Rattle.stream_text.specs.HeldView.{held_back, held_failed, held_writer};

    /// The writer, of whose output nothing is held back. `Memory`: there is no room to hold any.
    pub fn new(alloc: Global, writer: W) -> Result<Held<W>, Memory>
        ensures writer { IfOk result (λ held. held_writer held ≡ writer) }
        ensures empty { IfOk result (λ held. held_back held ≡ []) }
        ensures unfailed { IfOk result (λ held. held_failed held ≡ false) }
    {
        match BufWriter::with_capacity(alloc, ROOM, writer) {
            Ok(writer) => Ok(Held {
                writer,
                failed: false,
            }),
            Err(_) => Err(Memory),
        }
    }

    /// Whether the writer has refused output.
    pub fn has_failed(&self) -> bool
        ensures { result ≡ held_failed self.now }
    {
        self.failed
    }
}

/// What it was given is what the writer has, and behind it what is held back.
impl<W: Write + Drop> Write for Held<W> {
    ghost use Rattle.std.specs.Prelude.{◌≡◌, [], OnOk};
    ghost use Rattle.std.specs.Io.KnownBytes.{Keeps, WriteAppends};
    ghost use Rattle.stream_text.specs.HeldView.{NotesFailure, held_back, held_contents, held_failed};

    ghost contents = { held_contents W.contents };

    #[inline(always)]
    fn write(&mut self, buf: &[u8]) -> io::Result<usize>
        ensures bound { WritesAtMost result buf.now }
        ensures bytes { WriteAppends (held_contents W.contents self.old)
            (held_contents W.contents self.new) result buf.now }
        ensures failed { NotesFailure result (held_failed self.old) (held_failed self.new) }
    {
        match self.writer.write(buf) {
            Ok(taken) => Ok(taken),
            Err(error) => {
                self.failed = true;
                Err(error)
            }
        }
    }

    fn flush(&mut self) -> io::Result<()>
        ensures bytes { Keeps (held_contents W.contents self.old)
            (held_contents W.contents self.new) }
        ensures given { OnOk result (held_back self.new ≡ []) }
        ensures failed { NotesFailure result (held_failed self.old) (held_failed self.new) }
    {
        match self.writer.flush() {
            Ok(()) => Ok(()),
            Err(error) => {
                self.failed = true;
                Err(error)
            }
        }
    }
}

/// A reader that, before it asks its source for bytes, gives a writer the output that is held back.
#[derive(Drop)]
pub struct Asking<'a, R, W: Write + Drop> {
    source: R,
    output: &'a RefCell<Held<W>>,
}

impl<'a, R, W: Write + Drop> Asking<'a, R, W> {
    ghost use Rattle.std.specs.Prelude.{◌≡◌};
    ghost use Rattle.stream_text.specs.HeldView.{asking_source};

    /// The source, beside that output.
    pub fn new(source: R, output: &'a RefCell<Held<W>>) -> Asking<'a, R, W>
        ensures { asking_source result ≡ source }
    {
        Asking { source, output }
    }
}

/// It reads what its source gives.
impl<R: Read, W: Write + Drop> Read for Asking<'_, R, W> {
    ghost remaining = { λ asking. R.remaining asking.source };

    fn read(&mut self, buf: &mut [u8]) -> io::Result<usize> {
        give(self.output)?;
        self.source.read(buf)
    }
}

/// A writer to output that is held back. Nothing is told of what a cell holds, so nothing of what it
/// was given; what it calls is told.
#[derive(Drop)]
pub struct Printer<'a, W: Write + Drop> {
    output: &'a RefCell<Held<W>>,
}

impl<'a, W: Write + Drop> Printer<'a, W> {
    /// A writer to that output.
    pub fn new(output: &'a RefCell<Held<W>>) -> Printer<'a, W> {
        Printer { output }
    }
}

impl<W: Write + Drop> Write for Printer<'_, W> {
    ghost use Rattle.std.specs.Prelude.{None};

    ghost contents = { λ printer. None };

    #[inline(always)]
    fn write(&mut self, buf: &[u8]) -> io::Result<usize> {
        match self.output.try_borrow_mut() {
            Ok(mut output) => output.write(buf),
            Err(_) => Err(Error::from(ErrorKind::Other)),
        }
    }

    fn flush(&mut self) -> io::Result<()> {
        give(self.output)
    }
}

/// Gives the writer all output that is held back.
fn give<W: Write + Drop>(output: &RefCell<Held<W>>) -> io::Result<()> {
    match output.try_borrow_mut() {
        Ok(mut output) => output.flush(),
        Err(_) => Err(Error::from(ErrorKind::Other)),
    }
}

/// Gives the writer all output that is held back. Answers whether it has taken all output so far.
pub fn is_given<W: Write + Drop>(output: &RefCell<Held<W>>) -> bool {
    let given = give(output).is_ok();
    match output.try_borrow() {
        Ok(output) => given && !output.has_failed(),
        Err(_) => false,
    }
}
