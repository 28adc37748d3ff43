//! A reader or a writer that notes the outcomes of its calls.

ghost use Rattle.std.specs.Prelude.{◌≡◌};
ghost use Rattle.std.specs.Io.{ReadsAtMost, WritesAtMost};
ghost use Rattle.std.specs.Io.KnownBytes.{ReadConsumes, WriteAppends, Keeps};
ghost use Rattle.program_io.specs.Ends.{watched_end, watched_notes, watched_resets};
ghost use Rattle.program_io.specs.Notes.{counted, no_notes, noted_moved, noted_end, noted_failed, noted_error, noted_read, noted_write, noted_flush};

use std::io;
use std::io::{ErrorKind, Read, Write};

/// The number of interrupted calls in a row that ends a reading or a writing.
pub const PATIENCE: u64 = 1_048_576;

/// The outcomes of the calls of a [`Watched`] since its last reset.
#[derive(Clone, Copy)]
pub struct Notes {
    /// Whether a call failed. A write of no byte and an interrupted flush count as failed; an interrupted read or write does not.
    pub failed: bool,
    /// Whether the last call was a read that found the end, because it gave no byte, or a flush that succeeded.
    pub ended: bool,
    /// The number of interrupted calls in a row up to the last call, at most the greatest `u64`.
    pub interrupted: u64,
    /// The number of bytes that were read or written, at most the greatest `u64`.
    pub moved: u64,
}

impl Notes {
    /// No call yet.
    fn none() -> Notes
        ensures { result ≡ no_notes }
    {
        Notes {
            failed: false,
            ended: false,
            interrupted: 0,
            moved: 0,
        }
    }

    /// The notes after a call that moved `count` bytes.
    fn after_moving(self, count: usize) -> Notes
        ensures { result ≡ noted_moved self count }
    {
        Notes {
            failed: self.failed,
            ended: false,
            interrupted: 0,
            moved: self.moved.saturating_add(count as u64),
        }
    }

    /// The notes after a read that found the end, or a flush that succeeded.
    fn after_end(self) -> Notes
        ensures { result ≡ noted_end self }
    {
        Notes {
            failed: self.failed,
            ended: true,
            interrupted: 0,
            moved: self.moved,
        }
    }

    /// The notes after a call that failed.
    fn after_failure(self) -> Notes
        ensures { result ≡ noted_failed self }
    {
        Notes {
            failed: true,
            ended: false,
            interrupted: 0,
            moved: self.moved,
        }
    }

    /// The notes after a read or a write that returned an error of this kind.
    fn after_error(self, kind: ErrorKind) -> Notes
        ensures { result ≡ noted_error self kind }
    {
        match kind {
            ErrorKind::Interrupted => Notes {
                failed: self.failed,
                ended: false,
                interrupted: self.interrupted.saturating_add(1),
                moved: self.moved,
            },
            _ => self.after_failure(),
        }
    }
}

/// A reader or a writer with notes on its calls. Only its own calls change the notes.
#[derive(Drop)]
pub struct Watched<E> {
    end: E,
    notes: Notes,
    /// How often the notes were cleared, at most the greatest `u64`.
    resets: u64,
}

impl<E> Watched<E> {
    /// Watches `end`. No call is noted yet.
    pub fn new(end: E) -> Watched<E>
        ensures end { watched_end result ≡ end }
        ensures notes { watched_notes result ≡ no_notes }
    {
        Watched {
            end,
            notes: Notes::none(),
            resets: 0,
        }
    }

    /// The reader or writer that is watched.
    pub fn end(&self) -> &E
        ensures { result.now ≡ watched_end self.now }
    {
        &self.end
    }

    /// The outcomes of the calls since the last reset.
    pub fn notes(&self) -> Notes
        ensures { result ≡ watched_notes self.now }
    {
        self.notes
    }

    /// How often the notes were cleared, at most the greatest `u64`. If it grew, the notes are about later calls only.
    pub fn resets(&self) -> u64
        ensures { result ≡ watched_resets self.now }
    {
        self.resets
    }

    /// Clears the notes.
    pub fn reset(&mut self)
        ensures end { watched_end self.new ≡ watched_end self.old }
        ensures notes { watched_notes self.new ≡ no_notes }
        ensures resets { watched_resets self.new ≡ counted (watched_resets self.old) 1 }
    {
        self.notes = Notes::none();
        self.resets = self.resets.saturating_add(1);
    }
}

impl<R: Read> Read for Watched<R> {
    ghost remaining = { λ watched. R.remaining (watched_end watched) };

    fn read(&mut self, buf: &mut [u8]) -> io::Result<usize>
        ensures bound { ReadsAtMost result buf.new }
        ensures bytes { ReadConsumes (R.remaining (watched_end self.old))
            (R.remaining (watched_end self.new)) result buf.new }
        ensures notes { watched_notes self.new ≡ noted_read (watched_notes self.old) result }
        ensures resets { watched_resets self.new ≡ watched_resets self.old }
    {
        let result = self.end.read(buf);
        self.notes = match &result {
            Ok(0) => self.notes.after_end(),
            Ok(count) => self.notes.after_moving(*count),
            Err(error) => self.notes.after_error(error.kind()),
        };
        result
    }
}

impl<W: Write> Write for Watched<W> {
    ghost contents = { λ watched. W.contents (watched_end watched) };

    fn write(&mut self, buf: &[u8]) -> io::Result<usize>
        ensures bound { WritesAtMost result buf.now }
        ensures bytes { WriteAppends (W.contents (watched_end self.old))
            (W.contents (watched_end self.new)) result buf.now }
        ensures notes { watched_notes self.new ≡ noted_write (watched_notes self.old) result }
        ensures resets { watched_resets self.new ≡ watched_resets self.old }
    {
        let result = self.end.write(buf);
        self.notes = match &result {
            Ok(0) => self.notes.after_failure(),
            Ok(count) => self.notes.after_moving(*count),
            Err(error) => self.notes.after_error(error.kind()),
        };
        result
    }

    fn flush(&mut self) -> io::Result<()>
        ensures bytes { Keeps (W.contents (watched_end self.old))
            (W.contents (watched_end self.new)) }
        ensures notes { watched_notes self.new ≡ noted_flush (watched_notes self.old) result }
        ensures resets { watched_resets self.new ≡ watched_resets self.old }
    {
        let result = self.end.flush();
        self.notes = match &result {
            Ok(()) => self.notes.after_end(),
            Err(_) => self.notes.after_failure(),
        };
        result
    }
}
