//! Tests over readers and writers that are counted, or that fail. `tests/rows/naga_shape` has the
//! lines of the program, and what it makes of them.
ghost use Rattle.std.specs.Prelude.{None};

use crate::line::{ShapeFault, shape};
use crate::program::run;
use naga_proc::{Rule, ShapeError};
use naga_streams::Counted;
use std::alloc::Global;
use std::io::{self, Error, ErrorKind, Read, Write};

/// The outcome of `shape`, and how many calls of the reader and of the writer failed.
#[derive(Clone, Copy)]
struct Outcome {
    answered: Result<(), ShapeFault>,
    failed: (u64, u64),
}

/// Calls `shape` over a reader and a writer. The other proofs need nothing of its contract.
fn close<R: Read + Drop, W: Write + Drop>(
    alloc: Global,
    input: R,
    output: W,
    rule: Rule,
) -> Outcome {
    let mut input = Counted::new(input);
    let mut output = Counted::new(output);
    let answered = shape(alloc, &mut input, &mut output, rule);
    let failed = (input.failed(), output.failed());
    Outcome { answered, failed }
}

/// A reader that fails at the read `fails_at`, if there is one.
#[derive(Drop)]
struct Pieces<'a> {
    bytes: &'a [u8],
    fails_at: Option<usize>,
    reads: usize,
    // The maximum over all reads of the number of bytes returned before the read plus the number requested by it.
    asked: usize,
    given: usize,
}

impl<'a> Pieces<'a> {
    fn new(bytes: &'a [u8], fails_at: Option<usize>) -> Pieces<'a> {
        Pieces {
            bytes,
            fails_at,
            reads: 0,
            asked: 0,
            given: 0,
        }
    }
}

impl Read for Pieces<'_> {
    ghost remaining = { λ _. None };

    fn read(&mut self, buf: &mut [u8]) -> io::Result<usize> {
        if self.fails_at == Some(self.reads) {
            return Err(Error::from(ErrorKind::Other));
        }
        self.reads = self.reads.saturating_add(1);
        self.asked = self.asked.max(self.given.saturating_add(buf.len()));
        let len = self.bytes.len().min(buf.len());
        let (piece, rest) = self.bytes.split_at(len);
        buf[..len].copy_from_slice(piece);
        self.bytes = rest;
        self.given = self.given.saturating_add(len);
        Ok(len)
    }
}

/// Returns whether a line of `len` plain statements has an answer if and only if `has_answer` is `true`, and takes few
/// reads, which request exactly the bytes up to the 65,537th.
fn takes_few_reads(alloc: Global, len: usize, has_answer: bool) -> bool {
    let Ok(text) = "p".repeat(alloc, len) else {
        return false;
    };
    let mut pieces = Pieces::new(text.as_bytes(), None);
    let outcome = close(alloc, &mut pieces, Vec::new(alloc), Rule::New);
    outcome.answered.is_ok() == has_answer && pieces.reads <= 18 && pieces.asked == 65_537
}

/// Returns whether the failure of this read is the error of the line and is counted once, and nothing is written.
fn fails_by_input(alloc: Global, failed_read: usize) -> bool {
    let mut output = Vec::new(alloc);
    let pieces = Pieces::new(b"p", Some(failed_read));
    let outcome = close(alloc, pieces, &mut output, Rule::New);
    outcome.answered == Err(ShapeFault::Input) && outcome.failed == (1, 0) && output.is_empty()
}

#[test]
fn reads_are_few_and_the_first_that_fails_ends_it(rt: HostRuntime) {
    assert!(rt; takes_few_reads(rt.alloc(), 65_536, true));
    assert!(rt; takes_few_reads(rt.alloc(), 100_000, false));
    assert!(rt; fails_by_input(rt.alloc(), 0));
    assert!(rt; fails_by_input(rt.alloc(), 1));
}

/// A writer whose writes succeed if `writes` is `true`, and whose flushes succeed if `flushes` is `true`.
#[derive(Drop)]
struct Broken {
    writes: bool,
    flushes: bool,
}

impl Write for Broken {
    ghost contents = { λ _. None };

    fn write(&mut self, buf: &[u8]) -> io::Result<usize> {
        if self.writes {
            Ok(buf.len())
        } else {
            Err(Error::from(ErrorKind::Other))
        }
    }

    fn flush(&mut self) -> io::Result<()> {
        if self.flushes {
            Ok(())
        } else {
            Err(Error::from(ErrorKind::Other))
        }
    }
}

/// What of a writer succeeds: writes and flushes.
const BROKEN: &[(bool, bool)] = &[(false, true), (true, false), (false, false)];

/// Returns whether an input has this error over a writer that fails, with `failed` failed calls of the writer.
fn fails_over(alloc: Global, broken: Broken, input: &[u8], fault: ShapeFault, failed: u64) -> bool {
    let outcome = close(alloc, input, broken, Rule::New);
    outcome.answered == Err(fault) && outcome.failed == (0, failed)
}

/// Returns whether a writer that fails is the fault of a line that has an answer, and not of one that has none.
fn is_output_fault(alloc: Global, writes: bool, flushes: bool) -> bool {
    let bad = ShapeFault::Shape(ShapeError::BadText { at: 0 });
    fails_over(
        alloc,
        Broken { writes, flushes },
        b"p\n",
        ShapeFault::Output,
        1,
    ) && fails_over(alloc, Broken { writes, flushes }, b"x\n", bad, 0)
}

#[test]
fn a_write_or_a_flush_that_fails_ends_it(rt: HostRuntime) {
    for (writes, flushes) in BROKEN {
        assert!(rt; is_output_fault(rt.alloc(), *writes, *flushes));
    }
}

#[test]
fn calls_are_handed_on_and_counted(rt: HostRuntime) {
    let mut output = Vec::new(rt.alloc());
    let mut counted = Counted::new(&mut output);
    assert!(rt; counted.write(b"ab").is_ok() && counted.failed() == 0);
    assert!(rt; output.as_slice() == b"ab".as_slice());
    let broken = Broken {
        writes: false,
        flushes: false,
    };
    let mut counted = Counted::new(broken);
    assert!(rt; counted.write(b"a").is_err() && counted.failed() == 1);
    assert!(rt; counted.flush().is_err() && counted.failed() == 2);
}

/// Returns whether the program fails without an error message if that cannot be written.
fn fails_silently(alloc: Global) -> bool {
    let mut errors = Broken {
        writes: false,
        flushes: true,
    };
    let mut written = Vec::new(alloc);
    let mut input = Counted::new(b"x".as_slice());
    let mut output = Counted::new(&mut written);
    let ended = run(
        alloc,
        Ok(Vec::new(alloc)),
        &mut input,
        &mut output,
        &mut errors,
    );
    ended.is_err() && written.is_empty()
}

#[test]
fn an_error_may_not_be_written(rt: HostRuntime) {
    assert!(rt; fails_silently(rt.alloc()));
}

/// Tests in which allocations fail while lines are answered.
mod refusals {
    use super::*;

    /// Returns whether this line is written for an input, or an allocation fails and nothing is written.
    fn gives_or_wants_memory(alloc: Global, rule: Rule, input: &str, want: &str) -> bool {
        // The output does not allocate, so only allocations of `shape` fail.
        let mut room = [0u8; 16];
        let mut output: &mut [u8] = &mut room;
        let outcome = close(alloc, input.as_bytes(), &mut output, rule);
        let written = 16 - output.len().min(16);
        match outcome.answered {
            Ok(()) => written == want.len(),
            Err(fault) => fault == ShapeFault::Shape(ShapeError::Memory) && written == 0,
        }
    }

    /// Lines, and what is written for them by both rules.
    const LINES: &[(&str, &str, &str)] = &[
        ("", "r\n", "r\n"),
        ("i{k}{}\nx", "i{k}{r}\n", "i{k}{r}\n"),
        ("s([s()])", "s([s()])\n", "s([s()r])r\n"),
    ];

    /// Whichever allocation fails, the same line is written, or the error is out of memory and nothing is written.
    #[test]
    fn a_line_is_written_whole_or_not_at_all(rt: HostRuntime) {
        for (input, old, new) in LINES {
            assert!(rt;
                gives_or_wants_memory(rt.alloc(), Rule::Old, input, old),
                "{input}"
            );
            assert!(rt;
                gives_or_wants_memory(rt.alloc(), Rule::New, input, new),
                "{input}"
            );
        }
    }
}
