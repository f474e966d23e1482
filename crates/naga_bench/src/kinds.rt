//! Workloads on literals and on the tables of kinds.
use crate::fault::Fault;
use crate::item::mixed;
use crate::sample::{Sample, now, since};
use naga_ir::{Literal, MathFunction, Scalar};

/// The operation that is timed on literals or on the tables of kinds.
#[derive(Clone, Copy)]
pub enum KindWork {
    Literals,
    Tables,
}

impl KindWork {
    /// Returns the name of the workload.
    pub fn name(self) -> &'static str {
        match self {
            KindWork::Literals => "literal_new",
            KindWork::Tables => "kind_tables",
        }
    }
}

/// Times creating literals, or looking up functions in their table.
pub fn on_kinds(rt: &HostRuntime, size: u32, work: KindWork) -> Result<Sample, Fault> {
    let start = now(rt);
    let sum = match work {
        KindWork::Literals => widths(size),
        KindWork::Tables => arguments(size),
    };
    let time = since(rt, start);
    Sample::of(size, Ok(sum), 0, time)
}

/// Returns a checksum of the widths of literals of four scalars, created from small numbers.
fn widths(size: u32) -> u64 {
    let scalars = [Scalar::F32, Scalar::I32, Scalar::U64, Scalar::F16];
    let mut sum = 0;
    for number in 0..size {
        let scalar = scalars[number as usize % 4];
        if let Some(literal) = Literal::new((number % 256) as u8, scalar) {
            sum = mixed(sum, literal.width() as u64);
        }
    }
    sum
}

/// Returns a checksum of the numbers of arguments of four functions.
fn arguments(size: u32) -> u64 {
    let functions = [
        MathFunction::Abs,
        MathFunction::Clamp,
        MathFunction::Pow,
        MathFunction::InsertBits,
    ];
    let mut sum = 0;
    for number in 0..size {
        sum = mixed(sum, functions[number as usize % 4].argument_count() as u64);
    }
    sum
}
