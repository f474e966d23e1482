//! Names for all that a module declares.
ghost use Rattle.indexmap.specs.IndexMap.{insert_all};
ghost use Rattle.std.specs.HashMap.{get};
ghost use Rattle.std.specs.Prelude.{if◌then◌else◌, ℕ, nat_eq, ◌≡◌, ◌∷◌, ◌++◌, [], List, OnOk, IfOk, Option, Some, None, codes, string_bytes};
ghost use Rattle.naga_arena.specs.Arena.{values};
ghost use Rattle.naga_namer.specs.Declarations.{argument_declarations, body_declarations, constant_declarations, declarations_of_types, entry_point_declarations, function_declarations, global_declarations, local_declarations, member_declarations, member_scopes, members_of_structure, name_of_type, other_declarations, output_label, override_declarations, stage_after, stage_of_result, type_declarations, unnamed_type_label};
ghost use Rattle.naga_namer.specs.ModuleNames.{AddsNames, AddsScopes, NamesModule};
ghost use Rattle.naga_namer.specs.Names.{label_or, unused};
ghost use Rattle.naga_namer.specs.Namers.{naming};

use crate::name_key::{BodyKey, NameKey};
use crate::namer::Namer;
use indexmap::IndexMap;
use naga_arena::{Arena, Handle, UniqueArena};
use naga_ir::{
    Constant, EntryPoint, Function, FunctionArgument, GlobalVariable, LocalVariable, Module,
    Override, StructMember, Type, TypeInner,
};
use naga_kinds::ShaderStage;
use std::alloc::{AllocError, Global};
use std::collections::HashMap;

/// A key and its name.
type Entry = (NameKey, String);

/// Names all that a module declares. The namer has given no names.
pub(crate) fn name_module(
    alloc: Global,
    namer: &mut Namer<'_>,
    module: &Module,
) -> Result<IndexMap<NameKey, String>, AllocError>
    requires { (naming namer.old).counts ≡ unused }
    ensures named { IfOk result (λ names. NamesModule (naming namer.old).reserved «module».now names.entries
        (naming namer.new).counts) }
    ensures reserved { OnOk result ((naming namer.new).reserved ≡ (naming namer.old).reserved) }
{
    let mut types = Vec::new(alloc);
    name_types(alloc, namer, &mut types, module)?;
    let mut others = Vec::new(alloc);
    name_others(alloc, namer, &mut others, types.as_slice(), module)?;
    let mut members = Vec::new(alloc);
    name_all_members(namer, &mut members, &module.types)?;
    let names = by_key(alloc, types, others, members)?;
    Ok(names)
}

/// Names a declaration.
fn add(
    namer: &mut Namer<'_>,
    entries: &mut Vec<Entry>,
    key: NameKey,
    label: &str,
) -> Result<(), AllocError>
    ensures { OnOk result (AddsNames (naming namer.old) entries.old.items ((key, label.now) ∷ []) (naming namer.new) entries.new.items) }
{
    let name = namer.call(label)?;
    entries.push((key, name))?;
    Ok(())
}

/// Names a declaration whose label is another one if it has none.
fn add_or(
    namer: &mut Namer<'_>,
    entries: &mut Vec<Entry>,
    key: NameKey,
    label: &Option<String>,
    fallback: &str,
) -> Result<(), AllocError>
    ensures { OnOk result (AddsNames (naming namer.old) entries.old.items ((key, label_or fallback.now label.now) ∷ [])
        (naming namer.new) entries.new.items) }
{
    match label {
        Some(given) => add(namer, entries, key, given.as_str()),
        None => add(namer, entries, key, fallback),
    }
}

/// Names arguments.
fn name_arguments(
    namer: &mut Namer<'_>,
    entries: &mut Vec<Entry>,
    owner: &BodyKey,
    arguments: &[FunctionArgument],
) -> Result<(), AllocError>
    ensures { OnOk result (AddsNames (naming namer.old) entries.old.items (argument_declarations owner.now arguments.now)
        (naming namer.new) entries.new.items) }
{
    'each: for (index, argument) in arguments.iter().enumerate() {
        add_or(
            namer,
            entries,
            owner.argument(index),
            &argument.name,
            "param",
        )?;
    }
    Ok(())
}

/// Names local variables.
fn name_locals(
    namer: &mut Namer<'_>,
    entries: &mut Vec<Entry>,
    owner: &BodyKey,
    locals: &Arena<LocalVariable>,
) -> Result<(), AllocError>
    ensures { OnOk result (AddsNames (naming namer.old) entries.old.items (local_declarations owner.now (values locals.now))
        (naming namer.new) entries.new.items) }
{
    'each: for index in 0..locals.len() {
        let handle = Handle::<LocalVariable>::at(index);
        add_or(
            namer,
            entries,
            owner.local(handle),
            &locals[handle].name,
            "local",
        )?;
    }
    Ok(())
}

/// Names a function or an entry point, its arguments and its local variables.
fn name_body(
    namer: &mut Namer<'_>,
    entries: &mut Vec<Entry>,
    owner: &BodyKey,
    label: &str,
    function: &Function,
) -> Result<(), AllocError>
    ensures { OnOk result (AddsNames (naming namer.old) entries.old.items (body_declarations owner.now label.now function.now)
        (naming namer.new) entries.new.items) }
{
    add(namer, entries, owner.key(), label)?;
    name_arguments(namer, entries, owner, function.arguments.as_slice())?;
    name_locals(namer, entries, owner, &function.local_variables)?;
    Ok(())
}

/// Names the types.
fn name_types(
    alloc: Global,
    namer: &mut Namer<'_>,
    entries: &mut Vec<Entry>,
    module: &Module,
) -> Result<(), AllocError>
    ensures { OnOk result (AddsNames (naming namer.old) entries.old.items (type_declarations «module».now)
        (naming namer.new) entries.new.items) }
{
    let stages = stages_of_results(alloc, module.entry_points.as_slice())?;
    name_each_type(namer, entries, &stages, &module.types)?;
    Ok(())
}

/// Names types, each with the stage of an entry point that returns it, if there is one.
fn name_each_type(
    namer: &mut Namer<'_>,
    entries: &mut Vec<Entry>,
    stages: &HashMap<usize, ShaderStage>,
    types: &UniqueArena<Type>,
) -> Result<(), AllocError>
    ensures { OnOk result (AddsNames (naming namer.old) entries.old.items
        (declarations_of_types (get nat_eq stages.now) (values types.now)) (naming namer.new) entries.new.items) }
{
    'each: for index in 0..types.len() {
        let ty = Handle::<Type>::at(index);
        let value = &types[ty];
        let fallback = unnamed_type_label(stage_of(stages, index), &value.inner);
        add_or(namer, entries, NameKey::Type(ty), &value.name, fallback)?;
    }
    Ok(())
}

/// Returns the stage of the last entry point that returns a type, by the index of the type.
fn stages_of_results(
    alloc: Global,
    entries: &[EntryPoint],
) -> Result<HashMap<usize, ShaderStage>, AllocError>
    ensures { IfOk result (λ stages. (ty : ℕ) → get nat_eq stages ty ≡ stage_of_result entries.now ty) }
{
    let mut stages = HashMap::new(alloc);
    'each: for index in 0..entries.len() {
        let entry = &entries[index];
        add_stage(&mut stages, entry)?;
    }
    Ok(stages)
}

/// Inserts the stage of an entry point, by the index of the type that it returns.
fn add_stage(stages: &mut HashMap<usize, ShaderStage>, entry: &EntryPoint) -> Result<(), AllocError>
    ensures { OnOk result ((ty : ℕ) → get nat_eq stages.new ty
        ≡ stage_after (get nat_eq stages.old) entry.now ty) }
{
    match &entry.function.result {
        Some(returned) => insert_stage(stages, returned.ty, entry.stage),
        None => Ok(()),
    }
}

/// Inserts the stage of a type, by the index of the type.
fn insert_stage(
    stages: &mut HashMap<usize, ShaderStage>,
    ty: Handle<Type>,
    stage: ShaderStage,
) -> Result<(), AllocError>
    ensures { OnOk result ((other : ℕ) → get nat_eq stages.new other
        ≡ (if nat_eq ty other then Some stage else get nat_eq stages.old other)) }
{
    stages.insert(ty.index(), stage)?;
    Ok(())
}

/// Returns the stage of a type, if there is one.
fn stage_of(stages: &HashMap<usize, ShaderStage>, ty: usize) -> Option<ShaderStage>
    ensures { result ≡ get nat_eq stages.now ty }
{
    stages.get(&ty).copied()
}

/// Returns the label of a type that has no name, from the stage of an entry point that returns it.
fn unnamed_type_label(stage: Option<ShaderStage>, inner: &TypeInner) -> &'static str
    ensures { result.now ≡ unnamed_type_label stage inner.now }
{
    match (stage, inner) {
        (Some(stage), TypeInner::Struct { .. }) => output_label(stage),
        _ => "type",
    }
}

/// Returns the label of a structure that has no name and that an entry point returns.
fn output_label(stage: ShaderStage) -> &'static str
    ensures { result.now ≡ output_label stage }
{
    match stage {
        ShaderStage::Vertex => "VertexOutput",
        ShaderStage::Fragment => "FragmentOutput",
        ShaderStage::Compute => "ComputeOutput",
        _ => "type",
    }
}

/// Names all that is in the scope of the module, except the types, whose names are given.
fn name_others(
    alloc: Global,
    namer: &mut Namer<'_>,
    entries: &mut Vec<Entry>,
    types: &[Entry],
    module: &Module,
) -> Result<(), AllocError>
    ensures { OnOk result (AddsNames (naming namer.old) entries.old.items (other_declarations types.now «module».now)
        (naming namer.new) entries.new.items) }
{
    name_entry_points(namer, entries, module.entry_points.as_slice())?;
    name_functions(namer, entries, &module.functions)?;
    name_globals(namer, entries, &module.global_variables)?;
    name_constants(alloc, namer, entries, types, &module.constants)?;
    name_overrides(alloc, namer, entries, types, &module.overrides)?;
    Ok(())
}

/// Names entry points.
fn name_entry_points(
    namer: &mut Namer<'_>,
    entries: &mut Vec<Entry>,
    entry_points: &[EntryPoint],
) -> Result<(), AllocError>
    ensures { OnOk result (AddsNames (naming namer.old) entries.old.items (entry_point_declarations entry_points.now)
        (naming namer.new) entries.new.items) }
{
    'each: for (index, entry) in entry_points.iter().enumerate() {
        let owner = BodyKey::EntryPoint(index);
        name_body(namer, entries, &owner, entry.name.as_str(), &entry.function)?;
    }
    Ok(())
}

/// Names functions.
fn name_functions(
    namer: &mut Namer<'_>,
    entries: &mut Vec<Entry>,
    functions: &Arena<Function>,
) -> Result<(), AllocError>
    ensures { OnOk result (AddsNames (naming namer.old) entries.old.items (function_declarations (values functions.now))
        (naming namer.new) entries.new.items) }
{
    'each: for index in 0..functions.len() {
        let handle = Handle::<Function>::at(index);
        let function = &functions[handle];
        let owner = BodyKey::Function(handle);
        let label = label_or(&function.name, "function");
        name_body(namer, entries, &owner, label, function)?;
    }
    Ok(())
}

/// Returns a label, or the given one if there is none.
fn label_or<'m>(label: &'m Option<String>, fallback: &'m str) -> &'m str
    ensures { result.now ≡ label_or fallback.now label.now }
{
    match label {
        Some(given) => given.as_str(),
        None => fallback,
    }
}

/// Names global variables.
fn name_globals(
    namer: &mut Namer<'_>,
    entries: &mut Vec<Entry>,
    globals: &Arena<GlobalVariable>,
) -> Result<(), AllocError>
    ensures { OnOk result (AddsNames (naming namer.old) entries.old.items (global_declarations (values globals.now))
        (naming namer.new) entries.new.items) }
{
    'each: for index in 0..globals.len() {
        let handle = Handle::<GlobalVariable>::at(index);
        let global = &globals[handle];
        add_or(
            namer,
            entries,
            NameKey::GlobalVariable(handle),
            &global.name,
            "global",
        )?;
    }
    Ok(())
}

/// Names constants.
fn name_constants(
    alloc: Global,
    namer: &mut Namer<'_>,
    entries: &mut Vec<Entry>,
    types: &[Entry],
    constants: &Arena<Constant>,
) -> Result<(), AllocError>
    ensures { OnOk result (AddsNames (naming namer.old) entries.old.items
        (constant_declarations types.now (values constants.now)) (naming namer.new) entries.new.items) }
{
    'each: for index in 0..constants.len() {
        let handle = Handle::<Constant>::at(index);
        let constant = &constants[handle];
        let ty = name_of_type(types, constant.ty);
        let key = NameKey::Constant(handle);
        add_described(alloc, namer, entries, key, &constant.name, "const_", ty)?;
    }
    Ok(())
}

/// Names overrides.
fn name_overrides(
    alloc: Global,
    namer: &mut Namer<'_>,
    entries: &mut Vec<Entry>,
    types: &[Entry],
    overrides: &Arena<Override>,
) -> Result<(), AllocError>
    ensures { OnOk result (AddsNames (naming namer.old) entries.old.items
        (override_declarations types.now (values overrides.now)) (naming namer.new) entries.new.items) }
{
    'each: for index in 0..overrides.len() {
        let handle = Handle::<Override>::at(index);
        let value = &overrides[handle];
        let ty = name_of_type(types, value.ty);
        let key = NameKey::Override(handle);
        add_described(alloc, namer, entries, key, &value.name, "override_", ty)?;
    }
    Ok(())
}

/// Returns the name of a type, or the empty text if it has none.
fn name_of_type(types: &[Entry], ty: Handle<Type>) -> &str
    ensures { result.now ≡ name_of_type types.now ty }
{
    match types.get(ty.index()) {
        Some(entry) => entry.1.as_str(),
        None => "",
    }
}

/// Names a declaration whose label, if it has none, is a prefix and a text.
fn add_described(
    alloc: Global,
    namer: &mut Namer<'_>,
    entries: &mut Vec<Entry>,
    key: NameKey,
    label: &Option<String>,
    prefix: &str,
    text: &str,
) -> Result<(), AllocError>
    ensures { OnOk result (AddsNames (naming namer.old) entries.old.items
        ((key, label_or (prefix.now ++ text.now) label.now) ∷ []) (naming namer.new) entries.new.items) }
{
    match label {
        Some(given) => add(namer, entries, key, given.as_str()),
        None => add_prefixed(alloc, namer, entries, key, prefix, text),
    }
}

/// Names a declaration whose label is a prefix and a text.
fn add_prefixed(
    alloc: Global,
    namer: &mut Namer<'_>,
    entries: &mut Vec<Entry>,
    key: NameKey,
    prefix: &str,
    text: &str,
) -> Result<(), AllocError>
    ensures { OnOk result (AddsNames (naming namer.old) entries.old.items ((key, prefix.now ++ text.now) ∷ [])
        (naming namer.new) entries.new.items) }
{
    let label = prefixed(alloc, prefix, text)?;
    add(namer, entries, key, label.as_str())?;
    Ok(())
}

/// Returns a prefix and a text.
fn prefixed(alloc: Global, prefix: &str, text: &str) -> Result<String, AllocError>
    ensures { IfOk result (λ label. string_bytes label ≡ prefix.now ++ text.now) }
{
    format!(in alloc; "{prefix}{text}")
}

/// Names the members of all structures, each in a scope of its own.
fn name_all_members(
    namer: &Namer<'_>,
    entries: &mut Vec<Entry>,
    types: &UniqueArena<Type>,
) -> Result<(), AllocError>
    ensures { OnOk result (AddsScopes (naming namer.now).reserved entries.old.items (member_scopes (values types.now))
        entries.new.items) }
{
    'each: for index in 0..types.len() {
        let ty = Handle::<Type>::at(index);
        let mut scope = namer.namespace();
        name_members(&mut scope, entries, ty, &types[ty].inner)?;
    }
    Ok(())
}

/// Names the members of a type, if it is a structure.
fn name_members(
    namer: &mut Namer<'_>,
    entries: &mut Vec<Entry>,
    ty: Handle<Type>,
    inner: &TypeInner,
) -> Result<(), AllocError>
    ensures { OnOk result (AddsNames (naming namer.old) entries.old.items (member_declarations ty inner.now)
        (naming namer.new) entries.new.items) }
{
    match inner {
        TypeInner::Struct { members, .. } => {
            name_each_member(namer, entries, ty, members.as_slice())
        }
        _ => Ok(()),
    }
}

/// Names the members of a structure.
fn name_each_member(
    namer: &mut Namer<'_>,
    entries: &mut Vec<Entry>,
    ty: Handle<Type>,
    members: &[StructMember],
) -> Result<(), AllocError>
    ensures { OnOk result (AddsNames (naming namer.old) entries.old.items (members_of_structure ty members.now)
        (naming namer.new) entries.new.items) }
{
    'each: for (index, member) in members.iter().enumerate() {
        let key = NameKey::StructMember(ty, index);
        add_or(namer, entries, key, &member.name, "member")?;
    }
    Ok(())
}

/// Returns the names by their keys. A key has one name.
fn by_key(
    alloc: Global,
    types: Vec<Entry>,
    others: Vec<Entry>,
    members: Vec<Entry>,
) -> Result<IndexMap<NameKey, String>, AllocError>
    ensures { IfOk result (λ names. let eq = ⟦<NameKey as PartialEq>⟧.eq in
        names.entries ≡ insert_all eq (insert_all eq (insert_all eq [] types.items) others.items) members.items) }
{
    let count = types
        .len()
        .saturating_add(others.len())
        .saturating_add(members.len());
    let mut names = IndexMap::with_capacity(alloc, count)?;
    insert_entries(&mut names, types)?;
    insert_entries(&mut names, others)?;
    insert_entries(&mut names, members)?;
    Ok(names)
}

/// Inserts entries, one after another.
fn insert_entries(
    names: &mut IndexMap<NameKey, String>,
    entries: Vec<Entry>,
) -> Result<(), AllocError>
    ensures { OnOk result (names.new.entries
        ≡ insert_all ⟦<NameKey as PartialEq>⟧.eq names.old.entries entries.items) }
{
    names.extend(entries)?;
    Ok(())
}
