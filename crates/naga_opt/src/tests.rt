//! Tests over readers and writers that fail. `tests/rows/naga_opt` has the texts and arguments of the program, and what
//! it makes of them.
ghost use Rattle.std.specs.Prelude.{None};

use crate::arguments::command_of;
use crate::program::{Ended, Status, run};
use crate::report::ProgramFault;
use naga_streams::Counted;
use std::alloc::{AllocError, Global};
use std::io::{self, Error, ErrorKind, Read, Write};

/// A module without declarations, as naga writes it.
const EMPTY: &str =
    r#"{"types":[],"special_types":{"ray_desc":null,"ray_intersection":null,"ray_vertex_return":null,"external_texture_params":null,"external_texture_transfer_function":null,"predeclared_types":{}},"constants":[],"overrides":[],"global_variables":[],"global_expressions":[],"functions":[],"entry_points":[],"diagnostic_filters":[],"diagnostic_filter_leaf":null,"doc_comments":null}"#;

/// How a run of the program ended, and how many calls failed: of the reader, of the writer, and of that of errors.
#[derive(Clone, Copy)]
struct Outcome {
    ended: Ended,
    failed: (u64, u64, u64),
}

/// Returns the arguments of a run that has this one, or none if it is empty.
fn arguments_of(alloc: Global, argument: &str) -> Result<Vec<String>, AllocError> {
    let mut given = Vec::new(alloc);
    if !argument.is_empty() {
        given.push(argument.to_string(alloc)?)?;
    }
    Ok(given)
}

/// Runs the program with this argument, or with none if it is empty.
fn run_over<R: Read + Drop, W: Write + Drop, E: Write + Drop>(
    alloc: Global,
    argument: &str,
    input: R,
    output: W,
    errors: E,
) -> Outcome {
    let mut input = Counted::new(input);
    let mut output = Counted::new(output);
    let mut errors = Counted::new(errors);
    let given = arguments_of(alloc, argument).map_err(|_| ProgramFault::Memory);
    let command = command_of(alloc, given);
    let ended = run(alloc, &command, &mut input, &mut output, &mut errors);
    let failed = (input.failed(), output.failed(), errors.failed());
    Outcome { ended, failed }
}

/// Returns whether a run ended like this, and this many calls of the reader, the writer and that of errors failed.
fn is(outcome: Outcome, status: Status, is_said: bool, failed: (u64, u64, u64)) -> bool {
    outcome.ended == Ended { status, is_said } && outcome.failed == failed
}

/// A reader that fails at its first read, or at its second one.
#[derive(Drop)]
struct BrokenReader {
    begins: bool,
}

impl Read for BrokenReader {
    ghost remaining = { λ _. None };

    fn read(&mut self, buf: &mut [u8]) -> io::Result<usize> {
        if self.begins && !buf.is_empty() {
            self.begins = false;
            buf[0] = b'{';
            return Ok(1);
        }
        Err(Error::from(ErrorKind::Other))
    }
}

/// A writer whose writes succeed if `writes` is `true`, and whose flushes fail.
#[derive(Drop)]
struct BrokenWriter {
    writes: bool,
}

impl Write for BrokenWriter {
    ghost contents = { λ _. None };

    fn write(&mut self, buf: &[u8]) -> io::Result<usize> {
        if self.writes {
            Ok(buf.len())
        } else {
            Err(Error::from(ErrorKind::Other))
        }
    }

    fn flush(&mut self) -> io::Result<()> {
        Err(Error::from(ErrorKind::Other))
    }
}

/// Returns whether the program reports that its input failed, and writes nothing else.
fn reports_input(alloc: Global, begins: bool) -> bool {
    let (mut written, mut said) = (Vec::new(alloc), Vec::new(alloc));
    let outcome = run_over(alloc, "", BrokenReader { begins }, &mut written, &mut said);
    is(outcome, Status::Failed, true, (1, 0, 0))
        && written.is_empty()
        && said.as_slice() == b"naga_opt: cannot read standard input: other error\n".as_slice()
}

/// Returns whether the program reports that its output failed.
fn reports_output(alloc: Global, argument: &str, writes: bool) -> bool {
    let mut said = Vec::new(alloc);
    let output = BrokenWriter { writes };
    let outcome = run_over(alloc, argument, EMPTY.as_bytes(), output, &mut said);
    is(outcome, Status::Failed, true, (0, 1, 0))
        && said.as_slice() == b"naga_opt: cannot write standard output: other error\n".as_slice()
}

/// Returns whether the program fails without an error message if that cannot be written.
fn fails_silently(alloc: Global, argument: &str, status: Status) -> bool {
    let mut written = Vec::new(alloc);
    let errors = BrokenWriter { writes: false };
    let outcome = run_over(alloc, argument, b"x".as_slice(), &mut written, errors);
    is(outcome, status, false, (0, 0, 1)) && written.is_empty()
}

/// Returns whether the program answers, and does not fail if what is to be said of the answer cannot be written.
fn answers_silently(alloc: Global, argument: &str, is_said: bool) -> bool {
    let mut written = Vec::new(alloc);
    let errors = BrokenWriter { writes: false };
    let outcome = run_over(alloc, argument, EMPTY.as_bytes(), &mut written, errors);
    is(
        outcome,
        Status::Answered,
        is_said,
        (0, 0, u64::from(!is_said)),
    ) && written.strip_suffix(b"\n".as_slice()) == Some(EMPTY.as_bytes())
}

#[test]
fn streams_of_the_answer_may_fail(rt: HostRuntime) {
    assert!(rt; reports_input(rt.alloc(), false));
    assert!(rt; reports_input(rt.alloc(), true));
    assert!(rt; reports_output(rt.alloc(), "", false));
    assert!(rt; reports_output(rt.alloc(), "", true));
    assert!(rt; reports_output(rt.alloc(), "--version", true));
}

#[test]
fn errors_may_not_be_written(rt: HostRuntime) {
    assert!(rt; answers_silently(rt.alloc(), "", true));
    assert!(rt; answers_silently(rt.alloc(), "--stats", false));
    assert!(rt; fails_silently(rt.alloc(), "", Status::Failed));
    assert!(rt; fails_silently(rt.alloc(), "--new", Status::WrongArguments));
}
