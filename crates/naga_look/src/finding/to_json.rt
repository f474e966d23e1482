//! The JSON of findings.
ghost use Rattle.std.specs.Prelude.{◌≡◌, ◌++◌, ◌∷◌, [], IfOk, OnOk, codes, string_bytes};
ghost use Rattle.std.specs.Fmt.{decimal};
ghost use Rattle.json.specs.Json.{number, string};
ghost use Rattle.json.specs.Print.{print};
ghost use Rattle.json.specs.Token.{key};
ghost use Rattle.json.specs.Tree.{json_tokens};
ghost use Rattle.naga_json.specs.Objects.{optional_json};
ghost use Rattle.naga_json_write.specs.Appends.{append_fields, append_json};
ghost use Rattle.naga_json_write.specs.Encoding.{direct};
ghost use Rattle.naga_look.specs.FindingsJson.{body_index, declared_index, finding_json, findings_json, handle_json, kind_word, owner_fields, owner_index, owner_word, rest_fields};

use super::{Finding, FindingKind, FindingOwner};
use naga_arena::Handle;
use naga_flow::BodyOwner;
use naga_ir::Expression;
use naga_json_write::{ToJson, Writer};
use naga_text::Text;
use naga_typing::Initialized;
use std::alloc::{AllocError, Global};

/// Returns findings as a JSON array of objects, without spaces.
///
/// An object has these members, in this order: `kind` is `fault`, `layout`, `emit`, `return` or `access`; `owner`
/// is `global expression`, `constant`, `override`, `global variable`, `local variable`, `type`, `function` or
/// `entry point`; `index` is its position; `name`, `path` and `message` are strings, and `expression` is the index of an expression. What there
/// is not is null.
///
/// Returns `Err` if allocation fails.
///
/// Differs from naga: naga has no such function.
pub fn findings_json(alloc: Global, found: &Vec<Finding>) -> Result<String, AllocError>
    ensures { IfOk result (λ text. string_bytes text ≡ print (json_tokens (findings_json found.now.items))) }
{
    let mut out = Writer::new(Vec::new(alloc));
    found.write(&mut out)?;
    let Ok(text) = String::from_utf8(out.into_inner()) else {
        unreachable!();
    };
    Ok(text)
}

impl ToJson for Finding {
    ghost encoding = { direct finding_json };

    fn write(&self, out: &mut Writer) -> Result<(), AllocError> {
        out.begin_object()?;
        write_owner(out, self)?;
        write_rest(out, self)?;
        out.end_object()
    }
}

/// Appends the kind of a finding, and what it is in.
fn write_owner(out: &mut Writer, finding: &Finding) -> Result<(), AllocError>
    ensures before { out.new.before ≡ out.old.before }
    ensures tokens { OnOk result (out.new.tokens ≡ append_fields out.old.tokens (owner_fields finding.now)) }
{
    write_string(out, "kind", word_of_kind(finding.kind))?;
    write_string(out, "owner", word_of_owner(finding.owner))?;
    write_number(out, "index", index_of_owner(finding.owner))?;
    write_optional_text(out, "name", &finding.name)
}

/// Appends where a finding is, and what is found.
fn write_rest(out: &mut Writer, finding: &Finding) -> Result<(), AllocError>
    ensures before { out.new.before ≡ out.old.before }
    ensures tokens { OnOk result (out.new.tokens ≡ append_fields out.old.tokens (rest_fields finding.now)) }
{
    write_optional_text(out, "path", &finding.path)?;
    write_expression(out, &finding.expression)?;
    write_string(out, "message", finding.message.as_str())
}

/// Appends a member that is a string.
fn write_string(out: &mut Writer, name: &str, text: &str) -> Result<(), AllocError>
    ensures before { out.new.before ≡ out.old.before }
    ensures tokens { OnOk result (out.new.tokens
        ≡ append_json (out.old.tokens ++ key name.now ∷ []) (string text.now)) }
{
    out.key(name)?;
    out.string(text)
}

/// Appends a member that is a number.
fn write_number(out: &mut Writer, name: &str, value: u64) -> Result<(), AllocError>
    ensures before { out.new.before ≡ out.old.before }
    ensures tokens { OnOk result (out.new.tokens
        ≡ append_json (out.old.tokens ++ key name.now ∷ []) (number (decimal value))) }
{
    out.key(name)?;
    out.u64(value)
}

/// Appends a member that is a string, or null if there is none.
fn write_optional_text(out: &mut Writer, name: &str, text: &Option<Text>) -> Result<(), AllocError>
    ensures before { out.new.before ≡ out.old.before }
    ensures tokens { OnOk result (out.new.tokens
        ≡ append_json (out.old.tokens ++ key name.now ∷ []) (optional_json string text.now)) }
{
    out.key(name)?;
    match text {
        Some(text) => out.string(text.as_str()),
        None => out.null(),
    }
}

/// Appends the member with the index of the expression, or null if there is none.
fn write_expression(
    out: &mut Writer,
    expression: &Option<Handle<Expression>>,
) -> Result<(), AllocError>
    ensures before { out.new.before ≡ out.old.before }
    ensures tokens { OnOk result (out.new.tokens
        ≡ append_json (out.old.tokens ++ key (codes "expression") ∷ []) (optional_json handle_json expression.now)) }
{
    out.key("expression")?;
    match expression {
        Some(handle) => out.u64(handle.index() as u64),
        None => out.null(),
    }
}

/// Returns the word of a kind.
fn word_of_kind(kind: FindingKind) -> &'static str
    ensures { result.now ≡ kind_word kind }
{
    match kind {
        FindingKind::Fault => "fault",
        FindingKind::Layout => "layout",
        FindingKind::Emit => "emit",
        FindingKind::Return => "return",
        FindingKind::Access => "access",
    }
}

/// Returns the words of what a finding is in.
fn word_of_owner(owner: FindingOwner) -> &'static str
    ensures { result.now ≡ owner_word owner }
{
    match owner {
        FindingOwner::GlobalExpression(_) => "global expression",
        FindingOwner::Declaration(Initialized::Constant(_)) => "constant",
        FindingOwner::Declaration(Initialized::Override(_)) => "override",
        FindingOwner::Declaration(Initialized::GlobalVariable(_)) => "global variable",
        FindingOwner::Declaration(Initialized::LocalVariable(_)) => "local variable",
        FindingOwner::Type(_) => "type",
        FindingOwner::Body(BodyOwner::Function(_)) => "function",
        FindingOwner::Body(BodyOwner::EntryPoint(_)) => "entry point",
    }
}

/// Returns the position of what a finding is in.
fn index_of_owner(owner: FindingOwner) -> u64
    ensures { result ≡ owner_index owner }
{
    match owner {
        FindingOwner::GlobalExpression(handle) => handle.index() as u64,
        FindingOwner::Declaration(declared) => index_of_declared(declared),
        FindingOwner::Type(handle) => handle.index() as u64,
        FindingOwner::Body(body) => index_of_body(body),
    }
}

/// Returns the index of a declaration.
fn index_of_declared(declared: Initialized) -> u64
    ensures { result ≡ declared_index declared }
{
    match declared {
        Initialized::Constant(handle) => handle.index() as u64,
        Initialized::Override(handle) => handle.index() as u64,
        Initialized::GlobalVariable(handle) => handle.index() as u64,
        Initialized::LocalVariable(handle) => handle.index() as u64,
    }
}

/// Returns the position of a function or of an entry point.
fn index_of_body(body: BodyOwner) -> u64
    ensures { result ≡ body_index body }
{
    match body {
        BodyOwner::Function(handle) => handle.index() as u64,
        BodyOwner::EntryPoint(position) => position as u64,
    }
}
