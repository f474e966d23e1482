//! Closing the bodies of all functions and entry points of a module, each body given in its notation.
use naga_arena::Span;
use naga_ir::{EntryPoint, Function, Module, ShaderStage};
use naga_proc::{Rule, close_module, read_block, reserve_module_returns, write_block};
use std::alloc::{AllocError, Global};

/// The bodies of a module with two functions and an entry point.
#[derive(Clone, Copy)]
struct Bodies {
    /// The body of both functions.
    called: &'static str,
    /// The body of the entry point.
    entered: &'static str,
}

/// Returns a function with this body, or `None` if an allocation fails.
fn function(alloc: Global, body: &str) -> Option<Function> {
    let mut function = Function::new(alloc);
    function.body = read_block(alloc, body.as_bytes()).ok()?;
    Some(function)
}

/// Returns an entry point with this body, or `None` if an allocation fails.
fn entry_point(alloc: Global, body: &str) -> Option<EntryPoint> {
    Some(EntryPoint {
        name: String::new(alloc),
        stage: ShaderStage::Compute,
        early_depth_test: None,
        workgroup_size: [1, 1, 1],
        workgroup_size_overrides: None,
        function: function(alloc, body)?,
        mesh_info: None,
        task_payload: None,
        incoming_ray_payload: None,
    })
}

/// Returns a module with these bodies, or `None` if an allocation fails.
fn module(alloc: Global, bodies: &Bodies) -> Option<Module> {
    let mut module = Module::new(alloc);
    for _ in 0..2 {
        let called = function(alloc, bodies.called)?;
        module.functions.append(called, Span::UNDEFINED).ok()?;
    }
    let entered = entry_point(alloc, bodies.entered)?;
    module.entry_points.push(entered).ok()?;
    Some(module)
}

/// Returns whether a function has this body, or `None` if an allocation fails.
fn has_body(alloc: Global, function: &Function, body: &str) -> Option<bool> {
    let mut text = String::new(alloc);
    write_block(&mut text, &function.body).ok()?;
    Some(text.as_str() == body)
}

/// Returns whether all functions of a module have this body, or `None` if an allocation fails.
fn functions_have_body(alloc: Global, module: &Module, body: &str) -> Option<bool> {
    for (_, function) in module.functions.iter() {
        if !has_body(alloc, function, body)? {
            return Some(false);
        }
    }
    Some(module.functions.len() == 2)
}

/// Returns whether a module has these bodies, or `None` if an allocation fails.
fn has_bodies(alloc: Global, module: &Module, bodies: &Bodies) -> Option<bool> {
    let Some(entry_point) = module.entry_points.first() else {
        return Some(false);
    };
    if !has_body(alloc, &entry_point.function, bodies.entered)? {
        return Some(false);
    }
    functions_have_body(alloc, module, bodies.called)
}

/// Bodies that all get returns.
const OPEN: Bodies = Bodies {
    called: "i{}{k}",
    entered: "{s([>]d[b])}",
};

/// What they close to by the new rule.
const CLOSED: Bodies = Bodies {
    called: "i{r}{k}",
    entered: "{s([>]d[b])r}",
};

/// What they close to by the old rule.
const CLOSED_OLD: Bodies = Bodies {
    called: "i{r}{k}",
    entered: "{s([>]d[b])}",
};

/// Returns whether closing the module by a rule closes all bodies, or changes none if an allocation fails. Returns
/// `None` if another allocation fails.
fn closes_all_or_none(alloc: Global, rule: Rule, closed: &Bodies) -> Option<bool> {
    let mut module = module(alloc, &OPEN)?;
    match close_module(&mut module, rule) {
        Ok(()) => has_bodies(alloc, &module, closed),
        Err(AllocError) => has_bodies(alloc, &module, &OPEN),
    }
}

/// Returns whether reserving space changes no body, and closing the module then cannot fail. Returns `None` if another
/// allocation fails.
fn closes_after_reserving(alloc: Global) -> Option<bool> {
    let mut module = module(alloc, &OPEN)?;
    let reserved = reserve_module_returns(&mut module, Rule::New);
    if !has_bodies(alloc, &module, &OPEN)? {
        return Some(false);
    }
    if reserved.is_err() {
        return None;
    }
    if close_module(&mut module, Rule::New).is_err() {
        return Some(false);
    }
    has_bodies(alloc, &module, &CLOSED)
}

#[test]
fn each_body_is_closed(rt: HostRuntime) {
    assert!(rt; closes_all_or_none(rt.alloc(), Rule::New, &CLOSED) == Some(true));
    assert!(rt; closes_all_or_none(rt.alloc(), Rule::Old, &CLOSED_OLD) == Some(true));
    assert!(rt; closes_after_reserving(rt.alloc()) == Some(true));
}

/// Allocations that fail while modules are closed, or while space is reserved for that.
mod refusals {
    use super::*;

    #[test]
    fn all_bodies_are_closed_or_none(rt: HostRuntime) {
        assert!(rt; closes_all_or_none(rt.alloc(), Rule::New, &CLOSED) != Some(false));
        assert!(rt; closes_all_or_none(rt.alloc(), Rule::Old, &CLOSED_OLD) != Some(false));
    }

    #[test]
    fn closing_cannot_fail_after_reserving(rt: HostRuntime) {
        assert!(rt; closes_after_reserving(rt.alloc()) != Some(false));
    }
}
