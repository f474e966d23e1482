//! Workloads on the values of constant expressions.
ghost use Rattle.naga_ir.specs.Constant.{IsClosedOver};

use crate::fault::Fault;
use crate::item::{mixed, span};
use crate::sample::{Sample, now, since};
use naga_arena::{Arena, Handle, UniqueArena};
use naga_ir::{Constant, Expression, GlobalCtx, Literal, Type};

/// Times reading the values of global expressions, half of which refer to a constant.
pub fn on_constants(rt: &HostRuntime, size: u32) -> Result<Sample, Fault> {
    let mut constants = Arena::new(rt.alloc());
    let mut global_expressions = Arena::new(rt.alloc());
    declare(&mut constants, &mut global_expressions, size)?;
    let types = UniqueArena::new(rt.alloc());
    let overrides = Arena::new(rt.alloc());
    let ctx = GlobalCtx {
        types: &types,
        constants: &constants,
        overrides: &overrides,
        global_expressions: &global_expressions,
    };
    on_context(rt, size, ctx)
}

/// Declares half as many constants as `size`. The `init` of each is a literal, which is followed by an expression that
/// refers to the constant. No call looks up the type of a constant, so no type is declared.
fn declare(
    constants: &mut Arena<Constant>,
    expressions: &mut Arena<Expression>,
    size: u32,
) -> Result<(), Fault> {
    let ty = Handle::<Type>::from_usize(0).unwrap();
    for number in 0..size / 2 {
        let literal = Expression::Literal(Literal::U32(number));
        let init = expressions.append(literal, span(number))?;
        let constant = Constant {
            name: None,
            ty,
            init,
        };
        let named = constants.append(constant, span(number))?;
        expressions.append(Expression::Constant(named), span(number))?;
    }
    Ok(())
}

/// Times reading the values of the global expressions. The caller of `get_const_val` must ensure that the context
/// contains everything that is looked up, so this is tested first.
fn on_context(rt: &HostRuntime, size: u32, ctx: GlobalCtx<'_>) -> Result<Sample, Fault> {
    if !ctx.is_closed_over(ctx.global_expressions) {
        return Err(Fault::SetUp);
    }
    let start = now(rt);
    let sum = values(ctx);
    let time = since(rt, start);
    Sample::of(size, Ok(sum), 0, time)
}

/// Returns a checksum of the values of the global expressions.
fn values(ctx: GlobalCtx<'_>) -> u64
    requires { IsClosedOver ctx ctx.global_expressions.now }
{
    let mut sum = 0;
    for (handle, _) in ctx.global_expressions.iter() {
        if let Ok(value) = ctx.get_const_val::<u32>(handle) {
            sum = mixed(sum, value as u64);
        }
    }
    sum
}
