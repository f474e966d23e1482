//! Laws of types.
ghost use Rattle.naga_typifier.specs.Plain.{TypesStay};

/// The type of an expression, if it need not be declared, contains no list, so that [`TypeResolution::copied`] copies
/// it.
///
/// [`TypeResolution::copied`]: crate::TypeResolution::copied
pub fn types_are_copied()
    ensures { TypesStay }
{}
