//! What a checked function accesses is a part of the value that it accesses.
ghost use Rattle.naga_ir.specs.declared.module.Function.{Function};
ghost use Rattle.naga_ir.specs.declared.module.Module.{Module};
ghost use Rattle.naga_typing.specs.TypedModel.{IsStateOf, has_type_in, interpretation, itself};
ghost use Rattle.naga_bounds.specs.Laws.{IsSizeIn};
ghost use Rattle.naga_bounds.specs.Modules.{typed_in};
ghost use Rattle.naga_bounds.specs.PartsModel.{HasPart, index_of, unsigned_index_of};
ghost use Rattle.naga_bounds.specs.Respects.{HasElements, LengthsStay, RespectsIndices};
ghost use Rattle.naga_bounds.specs.TypedAccesses.{AccessedPartsAreThere, TypesHaveParts};

/// Which values have which types and which parts, and in which states the body of a function may be. A law that is
/// generic over these holds for each choice of them.
pub trait ValueParts<Value, State> {
    ghost use Rattle.std.specs.Prelude.{ℕ};
    ghost use Rattle.naga_ir.specs.declared.module.Function as function;
    ghost use Rattle.naga_typing.specs.Forms.{Form};

    // The value has this type.
    ghost has_type: { Value → Form → Type 0 };

    // The value, or what it points to in this state, has a part with this number.
    ghost has_part: { Value → ℕ → State → Type 0 };

    // The body of the function may be in this state.
    ghost invariant: { function.Function → State → Type 0 };
}

/// In a function of a module that passes the checks of handles, of types, of uses and of accesses, each part that is
/// accessed is there in the value that is accessed, if values have the parts that their types say.
///
/// The check of accesses alone compares indices with the types of expressions. That the values have these types follows
/// from the check of types: without it, a pointer to a short array may be passed where a pointer to a longer one is
/// declared.
pub fn accessed_parts_are_there<Thing, Value, State, T: ValueParts<Value, State>>()
    ensures { AccessedPartsAreThere Thing Value State T.has_type T.invariant T.has_part }
{}

/// In the interpretation of `types_are_respected_somewhere` of naga_typing, values have the parts that their types say. It
/// also respects indices, arrays have elements in it, and they keep their lengths.
pub fn types_have_parts_somewhere()
    ensures parts { (whole : Module) (inside : Function)
        → TypesHaveParts itself (interpretation whole) index_of (has_type_in whole) HasPart whole inside
        (IsStateOf whole inside) }
    ensures indices { (whole : Module)
        → RespectsIndices itself (interpretation whole) index_of unsigned_index_of }
    ensures elements { (whole : Module) (inside : Function)
        → HasElements itself (interpretation whole) index_of (IsSizeIn (typed_in whole inside)) }
    ensures lengths { (whole : Module) → LengthsStay itself (interpretation whole) index_of }
{}
