//! The texts of the expressions of a function, or of a module, by handle.
ghost use Rattle.std.specs.Prelude.{◌≡◌, IfOk, MatchResult, Ok, Err};
ghost use Rattle.naga_arena.specs.Arena.{values};
ghost use Rattle.naga_wgsl.specs.ExpressionTexts.{expression_text, expression_texts, operand_shape, shape_at};
ghost use Rattle.naga_wgsl.specs.Forms.{form_text};
ghost use Rattle.naga_wgsl.specs.TypeTexts.{text_at};

use crate::form::write_form;
use crate::scope::{Scope, Shape};
use crate::type_texts::text_at;
use crate::write_error::{Cause, WriteError};
use naga_arena::{Arena, Handle};
use naga_ir::Expression;
use naga_text::Text;
use std::alloc::{AllocError, Global};
use std::marker::Model;

/// The texts of the expressions of a function, or of a module, in the order of their handles, each with the cause in its
/// place if it has none.
///
/// In contracts, it is the list of these.
#[derive(Drop)]
pub struct ExpressionTexts {
    texts: Vec<Result<Text, Cause>>,
}

impl Model for ExpressionTexts {
    ghost use Rattle.std.specs.Prelude.{ℕ, List, Result};
    ghost use Rattle.naga_wgsl.specs.declared.write_error.Cause.{Cause as CauseValue};

    ghost Value = { List (Result (List ℕ) CauseValue) };

    ghost view = { λ t. t.texts.items };
}

impl ExpressionTexts {
    /// Returns the texts of expressions, from their shapes and their names, in the order of their handles.
    ///
    /// An expression that has a name, which a line of the text gives to its value, is written by the name. All others are
    /// written out; the text of one that is used more than once is longer for each use. The shape of a pointer is that of what
    /// it points to.
    ///
    /// Returns `Err` if allocation fails.
    pub fn new(
        alloc: Global,
        scope: &Scope<'_>,
        shapes: &[Shape],
        names: &[Option<String>],
        expressions: &Arena<Expression>,
    ) -> Result<Self, AllocError>
        ensures { IfOk result (λ texts. texts ≡ expression_texts scope.now shapes.now names.now (values expressions.now)) }
    {
        let mut texts = Vec::new(alloc);
        'each: for index in 0..expressions.len() {
            let expression = &expressions[Handle::<Expression>::at(index)];
            let made = expression_text(
                alloc,
                scope,
                texts.as_slice(),
                shapes,
                names,
                index,
                expression,
            )?;
            texts.push(made)?;
        }
        Ok(ExpressionTexts { texts })
    }

    /// Returns the texts, in the order of their handles.
    pub fn as_slice(&self) -> &[Result<Text, Cause>]
        ensures { result.now ≡ self.now }
    {
        self.texts.as_slice()
    }

    /// Returns the text of an expression, or why it has none: `Cause::Order` if the expression is not among these.
    pub fn get(&self, handle: Handle<Expression>) -> Result<&str, Cause>
        ensures { MatchResult result (λ text. text_at self.now handle ≡ Ok text.now) (λ cause. text_at self.now handle ≡ Err cause) }
    {
        text_at(self.texts.as_slice(), handle.index())
    }
}

/// Returns the text of an expression, from those of the expressions before it, or why it has none. Returns `Err` if
/// allocation fails.
fn expression_text(
    alloc: Global,
    scope: &Scope<'_>,
    known: &[Result<Text, Cause>],
    shapes: &[Shape],
    names: &[Option<String>],
    index: usize,
    expression: &Expression,
) -> Result<Result<Text, Cause>, AllocError>
    ensures { IfOk result (λ made. made ≡ expression_text scope.now shapes.now names.now known.now index expression.now) }
{
    match names.get(index) {
        Some(Some(name)) => {
            let mut text = Text::new(alloc);
            text.push(name.as_str())?;
            Ok(Ok(text))
        }
        _ => form_text(
            alloc,
            scope,
            known,
            operand_shape(shapes, expression),
            expression,
        ),
    }
}

/// Returns the text of an expression that has no name, or why it has none. Returns `Err` if allocation fails.
fn form_text(
    alloc: Global,
    scope: &Scope<'_>,
    known: &[Result<Text, Cause>],
    shape: Shape,
    expression: &Expression,
) -> Result<Result<Text, Cause>, AllocError>
    ensures { IfOk result (λ made. made ≡ form_text scope.now known.now shape expression.now) }
{
    let mut text = Text::new(alloc);
    match write_form(&mut text, scope, known, shape, expression) {
        Ok(()) => Ok(Ok(text)),
        Err(WriteError::Inexpressible(cause)) => Ok(Err(cause)),
        Err(WriteError::Memory) => Err(AllocError),
    }
}

/// Returns the shape of the operand on whose type the text of an expression depends.
fn operand_shape(shapes: &[Shape], expression: &Expression) -> Shape
    ensures { result ≡ operand_shape shapes.now expression.now }
{
    match expression {
        Expression::AccessIndex { base, .. } => shape_at(shapes, *base),
        Expression::Load { pointer } => shape_at(shapes, *pointer),
        Expression::As { expr, .. } => shape_at(shapes, *expr),
        _ => Shape::Other,
    }
}

/// Returns the shape of an operand.
fn shape_at(shapes: &[Shape], operand: Handle<Expression>) -> Shape
    ensures { result ≡ shape_at shapes.now operand }
{
    match shapes.get(operand.index()) {
        Some(shape) => *shape,
        None => Shape::Other,
    }
}
