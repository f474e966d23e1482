//! A static library for C programs and Cargo projects. It runs passes on a module that is given in the JSON that
//! naga 30.0.1 writes under its features `serialize` and `deserialize`, checks it, and writes it as readable text.
//!
//! [`naga_opt_run`], [`naga_opt_run_new`], [`naga_opt_check`], [`naga_opt_text`] and [`naga_opt_version`] are the only
//! functions that it exports. `include/naga_opt.h` declares them for C and C++, and the Cargo package `bindings/rust`
//! calls them.
//!
//! To build it, run `rt lib` in this folder. Link `out/libnaga_capi.a`, and after it `c/liblibc_c.a` of Rattle's kit,
//! through which it calls `malloc`, `realloc` and `free` of the program. `tests/dist` makes one archive of both.
//!
//! It is proved that [`naga_opt_run_new`] gives its caller a text that can be read from then on, at the pointer and of the
//! length that it writes. Only tested: that `free` of the program frees the memory of this text.
#![tactic(auto)]

mod answer;
mod buffer;
mod export;
mod failure;
mod fault;
mod given;
#[cfg(test)]
mod tests;

pub use export::{naga_opt_check, naga_opt_run, naga_opt_run_new, naga_opt_text, naga_opt_version};
pub use failure::Failure;
pub use fault::Fault;
pub use given::Answer;
