//! What names have in common.
ghost use Rattle.naga_namer.specs.ModuleNames.{KeysDiffer, ModuleNamesAreNames, ModuleNamesAvoidPrefixes, ModuleNamesDiffer, PlainModulesStay};
ghost use Rattle.naga_namer.specs.Scopes.{NamesAreFree, NamesAreIdentifiers, NamesAvoidPrefixes, NamesDiffer, PlainNamesStay};

/// The names that labels get one after another, in one scope, all differ.
pub fn names_differ()
    ensures { NamesDiffer }
{}

/// Each name is an identifier.
pub fn names_are_identifiers()
    ensures { NamesAreIdentifiers }
{}

/// No name is a reserved word.
pub fn names_are_free()
    ensures { NamesAreFree }
{}

/// No name begins with a reserved prefix, if no prefix begins as `gen` does, or is its beginning.
pub fn names_avoid_prefixes()
    ensures { NamesAvoidPrefixes }
{}

/// A label is kept that is an identifier, ends neither in `_` nor in a digit, is not reserved and has no reserved
/// prefix, if no earlier label had it as its base.
pub fn plain_names_stay()
    ensures { PlainNamesStay }
{}

/// If the labels in each scope of a module can all be kept, each key has its label as its name.
pub fn plain_modules_stay()
    ensures { PlainModulesStay }
{}

/// The keys of a module differ.
pub fn keys_differ()
    ensures { KeysDiffer }
{}

/// Two names of a module in one scope differ: of two members of a structure, or of two other declarations.
pub fn module_names_differ()
    ensures { ModuleNamesDiffer }
{}

/// Each name of a module is an identifier, and none is a reserved word.
pub fn module_names_are_names()
    ensures { ModuleNamesAreNames }
{}

/// No name of a module begins with a reserved prefix, if no prefix begins as `gen` does, or is its beginning.
pub fn module_names_avoid_prefixes()
    ensures { ModuleNamesAvoidPrefixes }
{}
