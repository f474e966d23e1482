//! The exported functions.
ghost use Rattle.std.specs.Prelude.{◌≡◌, Result, String};
ghost use Rattle.std.specs.declared.alloc.Global.{Global};
ghost use Rattle.naga_look.specs.declared.shown.Shown.{Shown};
ghost use Rattle.naga_capi.specs.Answer.{Answers, AnswersCheck, Checks, Gives, Runs, Shows};
ghost use Rattle.naga_capi.specs.declared.failure.Failure.{Failure};

use crate::answer::{check, run, show};
use crate::buffer::write_whole;
use crate::failure::end_with;
use crate::given::{Answer, give};
use std::alloc::Global;

/// The version of the functions that this library exports.
const VERSION: u32 = 3;

/// Runs passes on the module whose JSON is `text`, in the order in which `passes` names them, separated by commas.
/// Writes the JSON of the new module into the first bytes of `out`, and returns its length.
///
/// The passes are `cull`, `close`, `close-naga`, `compact`, `compact-keep-unused` and `restrict`, as those of the program
/// `naga_opt`.
///
/// If the length is greater than that of `out`, nothing is written. So a call with an empty `out` returns the length
/// that is needed, and a second one with that number of bytes writes the JSON. Bytes of `out` behind the JSON are unchanged.
///
/// A negative number is the code of a [`Fault`](crate::Fault). Then `out` is unchanged, and the message of the fault is
/// written into the first bytes of `message`, cut after the last whole character that fits. It is the message that the
/// program prints, without the program's name. Bytes of `message` behind it are unchanged, and all of them if the number
/// is not negative. The call has no other effect, and may be made by several threads at once.
///
/// | Code | Fault |
/// |---|---|
/// | -1 | no pass has a name in the list |
/// | -2 | the text or the list is not UTF-8 |
/// | -3 | the text is not JSON, or its lists and objects are nested more than 127 deep |
/// | -4 | the JSON is not what naga writes for a module, or two types are equal |
/// | -5 | a handle of the module is not valid |
/// | -6 | the new module has no JSON, or one that is nested too deep |
/// | -7 | an allocation failed |
/// | -9 | the accesses of a function cannot be clamped |
///
/// The list comes first: if it has a fault, the text is not looked at.
///
/// `include/naga_opt.h` has the declaration in C, and `bindings/rust/src/calls.rs` the one in Rust.
///
/// The caller must ensure that no pointer is null, even if its length is 0; that the bytes at `text` and `passes` can be
/// read, and those at `out` and `message` read and written, as many as the lengths say; that those two overlap neither
/// each other nor the others; that no other thread writes any of them during the call; and that each length is at most
/// `PTRDIFF_MAX`. The call allocates, so it must not be made in a signal handler or in the forked child of a process
/// with threads. The functions of the header accept null pointers where the length is 0.
///
/// Differs from naga: naga has no such function.
#[unsafe(no_mangle)]
pub extern "C" fn naga_opt_run(
    alloc: Global,
    text: &[u8],
    passes: &[u8],
    out: &mut [u8],
    message: &mut [u8],
) -> isize
    ensures { (outcome : Result (String Global) Failure) × Runs text.now passes.now outcome
        × Answers outcome result out.old out.new message.old message.new }
{
    match run(alloc, text, passes) {
        Ok(written) => write_whole(written.as_str(), out),
        Err(failure) => end_with(alloc, failure, message),
    }
}

/// Runs passes as [`naga_opt_run`] does, and gives the JSON of the new module to the caller. Writes where it is, and its
/// length, into `answer`, and returns the length.
///
/// The memory of the JSON is then the caller's, who frees it by `free`, or by `naga_opt_free` of the header. The JSON of
/// a module is never empty.
///
/// A negative number is the code of a [`Fault`](crate::Fault), whose message is written as [`naga_opt_run`] writes it.
/// Then `answer` is unchanged, and there is nothing to free.
///
/// The caller must ensure the same as for [`naga_opt_run`], and that `answer` can be read and written and overlaps none
/// of the others. Before the call it must have a pointer that is not null, and a length of bytes at it that can be read,
/// such as 0. This text is not freed. `naga_opt_run_new` of the header sets it to an empty one.
///
/// Differs from naga: naga has no such function.
#[unsafe(no_mangle)]
pub extern "C" fn naga_opt_run_new(
    alloc: Global,
    text: &[u8],
    passes: &[u8],
    answer: &mut Answer,
    message: &mut [u8],
) -> isize
    ensures { (outcome : Result (String Global) Failure) × Runs text.now passes.now outcome
        × Gives outcome result answer.old answer.new message.old message.new }
{
    let outcome = run(alloc, text, passes);
    match outcome {
        Ok(written) => give(written, answer),
        Err(failure) => end_with(alloc, failure, message),
    }
}

/// Checks the module whose JSON is `text` as [`report`](naga_look::report) does: that each jump is allowed where it is,
/// that each value that is used was computed, and that each value is used at its type.
///
/// Writes the report into the first bytes of `out`, and the number of faults into `faults`. Returns the length of the
/// report, whether or not there are faults.
///
/// It is the report that `naga_opt --check` prints: a line for each fault, or `no faults`, and then the lines of a summary.
/// What is written if `out` is too short, the codes with their messages, and what the caller must ensure are as for
/// [`naga_opt_run`]. `faults` is written also if `out` is too short, and is unchanged after a code. The caller must
/// ensure that it can be read and written, and overlaps none of the others.
///
/// Differs from naga: naga has no such function.
#[unsafe(no_mangle)]
pub extern "C" fn naga_opt_check(
    alloc: Global,
    text: &[u8],
    out: &mut [u8],
    faults: &mut usize,
    message: &mut [u8],
) -> isize
    ensures { (outcome : Result Shown Failure) × Checks text.now outcome
        × AnswersCheck outcome result out.old out.new message.old message.new faults.old faults.new }
{
    match check(alloc, text) {
        Ok(shown) => {
            *faults = shown.faults;
            write_whole(shown.text.as_str(), out)
        }
        Err(failure) => end_with(alloc, failure, message),
    }
}

/// Writes the module whose JSON is `text` as readable text into the first bytes of `out`, and returns its length.
///
/// It is the text that `naga_opt --text` prints. What is written if `out` is too short, the codes with their messages,
/// and what the caller must ensure are as for [`naga_opt_run`].
///
/// Differs from naga: naga has no such function.
#[unsafe(no_mangle)]
pub extern "C" fn naga_opt_text(
    alloc: Global,
    text: &[u8],
    out: &mut [u8],
    message: &mut [u8],
) -> isize
    ensures { (outcome : Result (String Global) Failure) × Shows text.now outcome
        × Answers outcome result out.old out.new message.old message.new }
{
    match show(alloc, text) {
        Ok(shown) => write_whole(shown.as_str(), out),
        Err(failure) => end_with(alloc, failure, message),
    }
}

/// Returns the version of the functions that this library exports, which the header has as `NAGA_OPT_VERSION`.
///
/// The number grows with each function that is new or has other parameters. A later version may have more codes and
/// passes under the same number.
///
/// Differs from naga: naga has no such function.
#[unsafe(no_mangle)]
pub extern "C" fn naga_opt_version() -> u32
    ensures { result ≡ 3 }
{
    VERSION
}
