//! Texts of the notation. `tests/rows/naga_shape` has more texts.
use naga_notation::{ShapeError, read_block, write_block};
use std::alloc::{AllocError, Global};

/// Returns whether a text is read, and the same text is written for its block.
fn is_kept(alloc: Global, text: &str) -> bool {
    let mut written = String::new(alloc);
    match read_block(alloc, text.as_bytes()) {
        Ok(block) => write_block(&mut written, &block).is_ok() && written.as_str() == text,
        Err(_) => false,
    }
}

#[test]
fn texts_are_read_and_written(rt: HostRuntime) {
    assert!(rt; is_kept(rt.alloc(), "s(d[]d[p>][{bk}])w{c}{i{r}{}}l{}{}"));
    assert!(rt; read_block(rt.alloc(), b"i{}").err() == Some(ShapeError::BadText { at: 3 }));
}

/// Allocations that fail while texts are read and written.
mod refusals {
    use super::*;

    const TEXTS: &[&str] = &["", "i{k}{}", "w{p}{}l{c}{b}", "s(d[]d[>][{}])", "s([s()])"];

    /// Returns whether a text is read, and its block is written after the text that is already there. If allocation
    /// fails, the error must be `Memory`, or that text must still be at the start.
    fn is_read_and_written(alloc: Global, text: &str) -> bool {
        let Ok(mut written) = String::from_str(alloc, "before ") else {
            return true;
        };
        match read_block(alloc, text.as_bytes()) {
            Ok(block) => match write_block(&mut written, &block) {
                Ok(()) => written.as_str().strip_prefix("before ") == Some(text),
                Err(AllocError) => written.as_str().starts_with("before "),
            },
            Err(error) => error == ShapeError::Memory,
        }
    }

    #[test]
    fn a_text_is_read_and_written_or_wants_memory(rt: HostRuntime) {
        for text in TEXTS {
            assert!(rt; is_read_and_written(rt.alloc(), text), "{text}");
        }
    }
}
