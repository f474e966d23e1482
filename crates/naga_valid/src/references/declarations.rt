//! The references of the declarations of a module.
ghost use Rattle.std.specs.Prelude.{◌≡◌};
ghost use Rattle.std.specs.Option.{option_map};
ghost use Rattle.naga_valid.specs.declared.reference.Reference.TheVariants as reference_to;
ghost use Rattle.naga_valid.specs.Declarations.{pending_of};

use super::Refers;
use super::operands::{each_present, global, none, optional_operand, pair, single, single_and};
use crate::reference::Reference;
use crate::visitor::Visitor;
use naga_arena::Handle;
use naga_ir::{
    ArraySize, Constant, DiagnosticFilterNode, Expression, FunctionArgument, FunctionResult,
    GlobalVariable, LocalVariable, Override, SpecialTypes, Type, TypeInner,
};
use std::ops::ControlFlow;

impl Refers for Type {
    ghost use Rattle.naga_valid.specs.Declarations.{references_of_type};

    ghost references = { references_of_type };

    // One line for each variant.
    #[rattlefmt::skip]
    fn visit_references<V: Visitor>(&self, visitor: &mut V) -> ControlFlow<V::Break> {
        match &self.inner {
            TypeInner::Scalar(_) => none(visitor),
            TypeInner::Vector { .. } => none(visitor),
            TypeInner::Matrix { .. } => none(visitor),
            TypeInner::CooperativeMatrix { .. } => none(visitor),
            TypeInner::Atomic(_) => none(visitor),
            TypeInner::Pointer { base, .. } => single(visitor, Reference::Type(*base)),
            TypeInner::ValuePointer { .. } => none(visitor),
            TypeInner::Array { base, size, .. } => single_and(visitor, Reference::Type(*base), pending(size)),
            TypeInner::Struct { members, .. } => visitor.visit_each(members),
            TypeInner::Image { .. } => none(visitor),
            TypeInner::Sampler { .. } => none(visitor),
            TypeInner::AccelerationStructure { .. } => none(visitor),
            TypeInner::RayQuery { .. } => none(visitor),
            TypeInner::BindingArray { base, size } => single_and(visitor, Reference::Type(*base), pending(size)),
        }
    }
}

/// Returns the override of a size, if the size is that of an override.
fn pending(size: &ArraySize) -> Option<Reference>
    ensures { result ≡ option_map reference_to.Override (pending_of size.now) }
{
    match size {
        ArraySize::Constant(_) | ArraySize::Dynamic => None,
        ArraySize::Pending(handle) => Some(Reference::Override(*handle)),
    }
}

impl Refers for Constant {
    ghost use Rattle.naga_valid.specs.Declarations.{references_of_constant};

    ghost references = { references_of_constant };

    fn visit_references<V: Visitor>(&self, visitor: &mut V) -> ControlFlow<V::Break> {
        pair(
            visitor,
            Reference::Type(self.ty),
            Reference::GlobalExpression(self.init),
        )
    }
}

impl Refers for Override {
    ghost use Rattle.naga_valid.specs.Declarations.{references_of_override};

    ghost references = { references_of_override };

    fn visit_references<V: Visitor>(&self, visitor: &mut V) -> ControlFlow<V::Break> {
        single_and(visitor, Reference::Type(self.ty), global(self.init))
    }
}

impl Refers for GlobalVariable {
    ghost use Rattle.naga_valid.specs.Declarations.{references_of_global_variable};

    ghost references = { references_of_global_variable };

    fn visit_references<V: Visitor>(&self, visitor: &mut V) -> ControlFlow<V::Break> {
        single_and(visitor, Reference::Type(self.ty), global(self.init))
    }
}

impl Refers for LocalVariable {
    ghost use Rattle.naga_valid.specs.Declarations.{references_of_local_variable};

    ghost references = { references_of_local_variable };

    fn visit_references<V: Visitor>(&self, visitor: &mut V) -> ControlFlow<V::Break> {
        match visitor.visit(Reference::Type(self.ty)) {
            ControlFlow::Continue(()) => optional_operand(visitor, self.init),
            ControlFlow::Break(stop) => ControlFlow::Break(stop),
        }
    }
}

/// The parent of a diagnostic filter, if it has one.
impl Refers for DiagnosticFilterNode {
    ghost use Rattle.naga_valid.specs.Declarations.{references_of_filter};

    ghost references = { references_of_filter };

    fn visit_references<V: Visitor>(&self, visitor: &mut V) -> ControlFlow<V::Break> {
        self.parent.visit_references(visitor)
    }
}

/// The innermost diagnostic filter, if there is one.
impl Refers for Option<Handle<DiagnosticFilterNode>> {
    ghost use Rattle.naga_valid.specs.Declarations.{references_of_leaf};

    ghost references = { references_of_leaf };

    fn visit_references<V: Visitor>(&self, visitor: &mut V) -> ControlFlow<V::Break> {
        match self {
            Some(leaf) => single(visitor, Reference::DiagnosticFilter(*leaf)),
            None => none(visitor),
        }
    }
}

/// The types of the arguments of a function.
impl Refers for Vec<FunctionArgument> {
    ghost use Rattle.std.specs.Prelude.{map};
    ghost use Rattle.naga_valid.specs.declared.reference.Reference.TheVariants as reference_to;

    ghost references = { λ arguments. map (λ argument. reference_to.«Type» argument.ty) arguments.items };

    fn visit_references<V: Visitor>(&self, visitor: &mut V) -> ControlFlow<V::Break> {
        visitor.visit_each(self.as_slice())
    }
}

/// The type of the result of a function, if it has a result.
impl Refers for Option<FunctionResult> {
    ghost use Rattle.std.specs.Prelude.{option_to_list};
    ghost use Rattle.std.specs.Option.{option_map};
    ghost use Rattle.naga_valid.specs.declared.reference.Reference.TheVariants as reference_to;

    ghost references = { λ outcome. option_to_list (option_map (λ outcome. reference_to.«Type» outcome.ty) outcome) };

    fn visit_references<V: Visitor>(&self, visitor: &mut V) -> ControlFlow<V::Break> {
        match self {
            Some(outcome) => single(visitor, Reference::Type(outcome.ty)),
            None => none(visitor),
        }
    }
}

/// The special types of a module, without the predeclared ones.
impl Refers for SpecialTypes {
    ghost use Rattle.naga_valid.specs.Places.{references_of_fixed_types};

    ghost references = { references_of_fixed_types };

    fn visit_references<V: Visitor>(&self, visitor: &mut V) -> ControlFlow<V::Break> {
        let types = [
            self.ray_desc,
            self.ray_intersection,
            self.ray_vertex_return,
            self.external_texture_params,
            self.external_texture_transfer_function,
        ];
        each_present(visitor, &types)
    }
}
