//! The references of the parts of entry points.
ghost use Rattle.std.specs.Prelude.{◌≡◌, ◌++◌, ◌∷◌, [], option_to_list};
ghost use Rattle.std.specs.Option.{option_map};
ghost use Rattle.naga_valid.specs.declared.reference.Reference.TheVariants as reference_to;
ghost use Rattle.naga_valid.specs.Visits.{IsWalk};

use super::Refers;
use super::operands::{global, none, optional, pair, single};
use crate::reference::Reference;
use crate::visitor::Visitor;
use naga_arena::Handle;
use naga_ir::{Expression, GlobalVariable, MeshStageInfo};
use std::ops::ControlFlow;

/// A variable that an entry point passes to another stage, or that a ray passes to it, if there is one.
impl Refers for Option<Handle<GlobalVariable>> {
    ghost use Rattle.std.specs.Prelude.{option_to_list};
    ghost use Rattle.std.specs.Option.{option_map};
    ghost use Rattle.naga_valid.specs.declared.reference.Reference.TheVariants as reference_to;

    ghost references = { λ handle. option_to_list (option_map reference_to.GlobalVariable handle) };

    fn visit_references<V: Visitor>(&self, visitor: &mut V) -> ControlFlow<V::Break> {
        match self {
            Some(handle) => single(visitor, Reference::GlobalVariable(*handle)),
            None => none(visitor),
        }
    }
}

/// The global expressions that replace the sizes of a workgroup.
impl Refers for [Option<Handle<Expression>>; 3] {
    ghost use Rattle.naga_valid.specs.Places.{global_overrides};

    ghost references = { global_overrides };

    fn visit_references<V: Visitor>(&self, visitor: &mut V) -> ControlFlow<V::Break> {
        for expression in self {
            match optional(visitor, global(*expression)) {
                ControlFlow::Continue(()) => {}
                ControlFlow::Break(stop) => return ControlFlow::Break(stop),
            }
        }
        ControlFlow::Continue(())
    }
}

impl Refers for MeshStageInfo {
    ghost use Rattle.naga_valid.specs.Declarations.{references_of_mesh_info};

    ghost references = { references_of_mesh_info };

    fn visit_references<V: Visitor>(&self, visitor: &mut V) -> ControlFlow<V::Break> {
        match optional(visitor, global(self.max_vertices_override)) {
            ControlFlow::Continue(()) => visit_output(self, visitor),
            ControlFlow::Break(stop) => ControlFlow::Break(stop),
        }
    }
}

/// Visits the references of the information about a mesh stage after the number of vertices.
fn visit_output<V: Visitor>(info: &MeshStageInfo, visitor: &mut V) -> ControlFlow<V::Break>
    ensures { IsWalk V.visits visitor.old (option_to_list (option_map reference_to.GlobalExpression info.now.max_primitives_override)
        ++ reference_to.«Type» info.now.vertex_output_type ∷ reference_to.«Type» info.now.primitive_output_type
        ∷ reference_to.GlobalVariable info.now.output_variable ∷ []) result visitor.new }
{
    match optional(visitor, global(info.max_primitives_override)) {
        ControlFlow::Continue(()) => visit_output_types(info, visitor),
        ControlFlow::Break(stop) => ControlFlow::Break(stop),
    }
}

/// Visits the types and the variable that a mesh stage outputs.
fn visit_output_types<V: Visitor>(info: &MeshStageInfo, visitor: &mut V) -> ControlFlow<V::Break>
    ensures { IsWalk V.visits visitor.old (reference_to.«Type» info.now.vertex_output_type
        ∷ reference_to.«Type» info.now.primitive_output_type ∷ reference_to.GlobalVariable info.now.output_variable ∷ [])
        result visitor.new }
{
    match visitor.visit(Reference::Type(info.vertex_output_type)) {
        ControlFlow::Continue(()) => pair(
            visitor,
            Reference::Type(info.primitive_output_type),
            Reference::GlobalVariable(info.output_variable),
        ),
        ControlFlow::Break(stop) => ControlFlow::Break(stop),
    }
}
