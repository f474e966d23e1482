//! Texts and lists, which are allocated explicitly.
use anyhow::Result;
use naga_proc::ir::Literal;
use std::alloc::Global;

/// Creates a list of literals and two texts. Everything that may allocate takes `alloc` as an argument or has stored
/// it, and returns a `Result`.
pub fn show_texts(rt: &impl Print, alloc: Global) -> Result<()> {
    let half = Literal::F32(0.5f32.to_bits());
    let literals = vec![in alloc; half, Literal::U32(3)]?;
    let told = format!(in alloc; "{literals:?}")?;
    let width = half.width().to_string(alloc)?;
    println!(rt; "Literals: {told}. The first has {width} bytes.")?;
    Ok(())
}
