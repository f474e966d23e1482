//! Modules.
ghost use Rattle.indexmap.specs.IndexMap.{IsEmpty};
ghost use Rattle.json.specs.Json.{Json};
ghost use Rattle.json.specs.Print.{print};
ghost use Rattle.json.specs.Tree.{depth, json_tokens};
ghost use Rattle.std.specs.Prelude.{◌≡◌, ◌≢◌, ◌≤◌, ◌++◌, option_map, string_bytes, IfErr, IfOk, IsTrue, OnErr, OnOk};
ghost use Rattle.naga_json.specs.DocComments.{comments_value, doc_comments_codec};
ghost use Rattle.naga_json.specs.Module.{module_form, module_value};
ghost use Rattle.naga_json.specs.Objects.{optional_json};
ghost use Rattle.naga_json_write.specs.Appends.{append_json, Appends};
ghost use Rattle.naga_json_write.specs.Finite.{is_finite_module};
ghost use Rattle.naga_json_write.specs.Module.{HasNoMemberComments, IsModuleJson, IsReason, IsWritable};
ghost use Rattle.naga_json_write.specs.Writes.{AppendsSome, Refuses};
ghost use Rattle.naga_json.specs.declared.nesting.TheConstants.{MAX_NESTING};
ghost use Rattle.naga_json_write.specs.declared.write_error.WriteError.TheVariants.{Memory, MemberComments, NotFinite, PredeclaredTypes, TooDeep};

use super::doc_comments::write_doc_comments;
use super::finite::is_finite_module;
use super::objects::{try_write_field, write_field};
use super::special_types::write_special_types;
use crate::write_error::{TryWriteError, WriteError};
use crate::writer::Writer;
use naga_ir::{DocComments, Module};
use std::alloc::{AllocError, Global};

/// Appends doc comments, or null if there are none. Those on members of structures are left out.
fn write_optional_comments(
    out: &mut Writer,
    comments: &Option<Box<DocComments>>,
) -> Result<(), AllocError>
    ensures before { out.new.before ≡ out.old.before }
    ensures tokens { Appends result out.old out.new
        (optional_json doc_comments_codec.encode (option_map (λ held. comments_value held.value) comments.now)) }
{
    match comments {
        Some(comments) => write_doc_comments(out, comments),
        None => out.null(),
    }
}

/// Appends the fields of a module. Types of the results of built-in functions and comments on members of structures are
/// left out.
///
/// Fails if a literal is a NaN or an infinity, or if an allocation fails.
fn write_fields(out: &mut Writer, module: &Module) -> Result<(), TryWriteError>
    ensures before { out.new.before ≡ out.old.before }
    ensures written { AppendsSome (module_form.Writes (module_value «module».now)) result out.old out.new }
    ensures refused { Refuses (module_form.Writes (module_value «module».now)) result }
{
    out.begin_object()?;
    write_field(out, "types", &module.types)?;
    out.key("special_types")?;
    write_special_types(out, &module.special_types)?;
    write_field(out, "constants", &module.constants)?;
    write_field(out, "overrides", &module.overrides)?;
    write_field(out, "global_variables", &module.global_variables)?;
    try_write_field(out, "global_expressions", &module.global_expressions)?;
    try_write_field(out, "functions", &module.functions)?;
    try_write_field(out, "entry_points", &module.entry_points)?;
    write_field(out, "diagnostic_filters", &module.diagnostic_filters)?;
    write_field(
        out,
        "diagnostic_filter_leaf",
        &module.diagnostic_filter_leaf,
    )?;
    out.key("doc_comments")?;
    write_optional_comments(out, &module.doc_comments)?;
    Ok(out.end_object()?)
}

/// Returns an error if the module has types of the results of built-in functions.
fn check_predeclared_types(module: &Module) -> Result<(), WriteError>
    ensures none { OnOk result (IsEmpty «module».now.special_types.predeclared_types) }
    ensures some { IfErr result (λ error. (error ≡ PredeclaredTypes)
        × ¬ IsEmpty «module».now.special_types.predeclared_types) }
{
    if module.special_types.predeclared_types.is_empty() {
        Ok(())
    } else {
        Err(WriteError::PredeclaredTypes)
    }
}

/// Returns an error if the module has comments on members of structures.
fn check_member_comments(module: &Module) -> Result<(), WriteError>
    ensures none { OnOk result (HasNoMemberComments «module».now.doc_comments) }
    ensures some { IfErr result (λ error. (error ≡ MemberComments)
        × ¬ HasNoMemberComments «module».now.doc_comments) }
{
    match &module.doc_comments {
        Some(comments) => {
            if comments.struct_members.is_empty() {
                Ok(())
            } else {
                Err(WriteError::MemberComments)
            }
        }
        None => Ok(()),
    }
}

/// Returns an error if a literal of the module is a NaN or an infinity.
fn check_literals(module: &Module) -> Result<(), WriteError>
    ensures finite { OnOk result (IsTrue (is_finite_module «module».now)) }
    ensures not_finite { IfErr result (λ error. (error ≡ NotFinite)
        × ¬ IsTrue (is_finite_module «module».now)) }
{
    if is_finite_module(module) {
        Ok(())
    } else {
        Err(WriteError::NotFinite)
    }
}

/// Returns an error if the module has types of the results of built-in functions, comments on members of structures, or
/// a literal that is a NaN or an infinity.
fn check_module(module: &Module) -> Result<(), WriteError>
    ensures writable { OnOk result (IsWritable «module».now) }
    ensures reason { IfErr result (IsReason «module».now) }
{
    check_predeclared_types(module)?;
    check_member_comments(module)?;
    check_literals(module)?;
    Ok(())
}

/// Appends a module.
///
/// Fails if the module has no JSON, or if an allocation fails.
fn write_parts(out: &mut Writer, module: &Module) -> Result<(), WriteError>
    ensures before { out.new.before ≡ out.old.before }
    ensures written { OnOk result ((j : Json)
        × IsModuleJson «module».now j × (out.new.tokens ≡ append_json out.old.tokens j)) }
    ensures reason { IfErr result (IsReason «module».now) }
{
    check_module(module)?;
    write_fields(out, module)?;
    Ok(())
}

/// Returns the JSON of a module.
///
/// Fails if the module has no JSON that can be read, or if an allocation fails.
fn module_text(alloc: Global, module: &Module) -> Result<String, WriteError>
    ensures written { IfOk result (λ text. (j : Json) × IsModuleJson «module».now j
        × (string_bytes text ≡ print (json_tokens j)) × (depth j ≤ MAX_NESTING)) }
    ensures reason { IfErr result (IsReason «module».now) }
{
    let mut out = Writer::new(Vec::new(alloc));
    write_parts(&mut out, module)?;
    if !out.is_shallow() {
        return Err(WriteError::TooDeep);
    }
    let Ok(text) = String::from_utf8(out.into_inner()) else {
        unreachable!();
    };
    Ok(text)
}

/// Appends a text, of which no copy is made if there is nothing before it.
fn append(out: &mut String, text: String) -> Result<(), AllocError>
    ensures appended { OnOk result (string_bytes out.new ≡ string_bytes out.old ++ string_bytes text) }
    ensures unchanged { OnErr result (string_bytes out.new ≡ string_bytes out.old) }
{
    if out.as_str().is_empty() {
        *out = text;
        Ok(())
    } else {
        out.push_str(text.as_str())
    }
}

/// Appends the JSON of a module to a text, byte for byte as serde_json writes it for naga's types.
///
/// The spans of the module and the capacities of its lists are not written.
///
/// Returns `Err` if the module has types of the results of built-in functions, if it has comments on members of
/// structures, if a literal is a NaN or an infinity, if the JSON is nested more than 127 deep, so that naga does not read
/// it, or if an allocation fails. The text is unchanged then. The first three are found before anything is allocated.
///
/// Differs from naga: naga writes a NaN and an infinity as null, which it does not read, and text that is nested too deep
/// for it to read.
pub fn write_module(out: &mut String, module: &Module) -> Result<(), WriteError>
    ensures written { OnOk result ((j : Json) × IsModuleJson «module».now j
        × (string_bytes out.new ≡ string_bytes out.old ++ print (json_tokens j)) × (depth j ≤ MAX_NESTING)) }
    ensures refused { IfErr result (λ error. error ≢ Memory → error ≢ TooDeep
        → (j : Json) → ¬ IsModuleJson «module».now j) }
    ensures reason { IfErr result (IsReason «module».now) }
    ensures unchanged { OnErr result (string_bytes out.new ≡ string_bytes out.old) }
{
    let text = module_text(*out.allocator(), module)?;
    append(out, text)?;
    Ok(())
}
