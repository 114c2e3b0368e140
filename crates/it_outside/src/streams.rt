//! Readers and writers whose calls a contract can name. The contracts of std's `Read` and `Write` say which bytes a call moves, and
//! not when it fails; so each implementor of these implements the traits here by a plain call, and the adapters use the traits here.
ghost use Rattle.std.specs.Prelude.{ℕ, List, Option, Result, ⊤};
ghost use Rattle.std.specs.Io.{ReadsAtMost, WritesAtMost};
ghost use Rattle.std.specs.Io.KnownBytes.{Keeps, ReadConsumes, WriteAppends};
ghost use Rattle.std.specs.declared.io.Error.{Error};

use std::io;
use std::io::{Read, Write};

/// A reader.
pub trait Reader {
    /// The bytes that reads will give, where they are known.
    ghost remaining: { Self → Option (List ℕ) };

    /// A read in the first state may have this outcome and leave this buffer and the second state.
    ghost Reads: { Self → Result ℕ Error → List ℕ → Self → Type 0 };

    /// One call of `Read::read`.
    fn read_once(&mut self, buf: &mut [u8]) -> io::Result<usize>
        ensures bound { ReadsAtMost result buf.new }
        ensures bytes { ReadConsumes (remaining self.old) (remaining self.new) result buf.new }
        ensures call { Reads self.old result buf.new self.new };
}

impl<R: Read> Reader for R {
    ghost remaining = { R.remaining };

    ghost Reads = { λ old outcome buf new. ReadConsumes (R.remaining old) (R.remaining new) outcome buf };

    fn read_once(&mut self, buf: &mut [u8]) -> io::Result<usize> {
        self.read(buf)
    }
}

/// A writer.
pub trait Writer {
    /// The bytes that the writer holds, where they are known.
    ghost contents: { Self → Option (List ℕ) };

    /// A write of this piece in the first state may have this outcome and leave the second state.
    ghost Writes: { Self → List ℕ → Result ℕ Error → Self → Type 0 };

    /// A flush in the first state may have this outcome and leave the second state.
    ghost Flushes: { Self → Result ⊤ Error → Self → Type 0 };

    /// One call of `Write::write`.
    fn write_once(&mut self, piece: &[u8]) -> io::Result<usize>
        ensures bound { WritesAtMost result piece.now }
        ensures bytes { WriteAppends (contents self.old) (contents self.new) result piece.now }
        ensures call { Writes self.old piece.now result self.new };

    /// One call of `Write::flush`.
    fn flush_once(&mut self) -> io::Result<()>
        ensures bytes { Keeps (contents self.old) (contents self.new) }
        ensures call { Flushes self.old result self.new };
}

impl<W: Write> Writer for W {
    ghost contents = { W.contents };

    ghost Writes = { λ old piece outcome new. WriteAppends (W.contents old) (W.contents new) outcome piece };

    ghost Flushes = { λ old outcome new. Keeps (W.contents old) (W.contents new) };

    fn write_once(&mut self, piece: &[u8]) -> io::Result<usize> {
        self.write(piece)
    }

    fn flush_once(&mut self) -> io::Result<()> {
        self.flush()
    }
}
