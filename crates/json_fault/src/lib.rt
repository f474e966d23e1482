//! The first fault of a text that is not JSON: the byte with which no JSON goes on, and what was expected there.
//!
//! [`find_text_fault`] reads a text a byte at a time, with a stack of the lists and objects around the byte. It returns
//! `None` if the text is JSON (RFC 8259) whose lists and objects are nested at most 127 deep, and else a [`TextFault`].
//! What is before the fault begins such a text, and with the byte at fault it does not. If the fault is that the text
//! ends, the whole text begins one. So a text has one fault, and the bytes after it play no part.
//!
//! What was expected is an [`Expected`]: the first of these that applies.
//!
//! 1. At a byte order mark at the start: that there is none.
//! 2. At a byte that is a mistake by itself: what must not be there. This is a control character in a string, the
//!    second half of a surrogate pair without its first half, a digit after a 0 with which a number begins, or the
//!    bracket of a list or an object that is nested more than 127 deep.
//! 3. Else: what the text has to go on with, as a key after a comma in an object.
//!
//! For example, `[1,]` is not JSON:
//!
//! ```rust
//! let fault = find_text_fault(alloc, "[1,]")?;
//! ```
//!
//! The offset of its fault is 3, and expected is [`Expected::Value`]. The fault is displayed as
//! `invalid JSON at byte 3: expected a value`. [`TextFault::write_reason`] writes it without the byte, for a caller
//! that writes a line and a column in its place.
//!
//! A parser need not keep track of a place for this. A text that it rejects is read once more, and a text that it
//! accepts costs nothing.
//!
//! Proved: that there is a fault exactly if the text is not such JSON, where it is, that what was expected is right,
//! rule 1, and the messages. Only tested: rules 2 and 3 where both are right.
#![tactic(auto)]

mod after;
mod automaton;
mod expectation;
mod expected;
mod fault;
mod find;
mod mode;
mod numbers;
mod strings;
mod values;

pub use expected::Expected;
pub use fault::TextFault;
pub use find::find_text_fault;
