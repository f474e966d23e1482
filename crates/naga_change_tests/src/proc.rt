//! Tests of `naga_proc`, grouped by what they call.
mod building;
mod flattening;
mod modules;
mod notation;
mod terminator;
