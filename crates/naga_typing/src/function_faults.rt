//! The faults of a function.
ghost use Rattle.std.specs.Prelude.{◌≡◌, ◌≤◌, ◌<◌, ◌-◌, ◌∷◌, ◌++◌, [], IfOk, MatchResult, None, OnOk, Some, length, take};
ghost use Rattle.naga_arena.specs.Arena.{values};
ghost use Rattle.naga_arena.specs.Limits.{max_len};
ghost use Rattle.naga_ir.specs.View.{cases_of, node_of, tree_of};
ghost use Rattle.naga_typifier.specs.Typing.{IsStopped, typing};
ghost use Rattle.naga_typing.specs.FunctionFaults.{AddsFaults, AreFirstFaults, WalksOver, expression_parts, of_expression, of_statement, of_variable, variable_parts};
ghost use Rattle.naga_typing.specs.Initials.{locals_of};
ghost use Rattle.naga_typing.specs.Statements.{statements, statements_inside, statements_of_cases};
ghost use Rattle.naga_typing.specs.TypedFunctions.{context_of, signature_of};

use crate::initial::{DeclarationKind, Initialized};
use crate::invalid_types::{TypeFault, ValueFault};
use crate::mismatch::TypeMismatch;
use crate::requirement::Requirement;
use crate::stage::unmet;
use crate::typed_function::TypedFunction;
use naga_arena::{Handle, Span};
use naga_ir::{Block, Control, Expression, Function, LocalVariable, Module, Statement, SwitchCase};
use naga_typifier::{GrowError, ResolveContext, ResolveError, Typifier};
use std::alloc::{AllocError, Global};

/// Returns the faults of the types of a function of a module, up to `limit`.
///
/// There is a fault for each expression with an operand that is not what is required, for each variable whose initial
/// value has not the type declared, and for each statement with a requirement that is not met. Each names the first such
/// requirement. The faults of expressions come first, in the order of handles, then those of variables, and then those
/// of statements, each before those of the statements inside it.
///
/// If an expression has no type, its fault is the last one, since no types are known behind it: neither the expressions
/// after it nor the variables and the statements are checked.
///
/// There are none if and only if [`check_types_of_function`](crate::check_types_of_function) finds none. If there are as
/// many as `limit`, there may be more.
///
/// Returns `Err` if allocation fails. The time is linear in the number of expressions and statements.
///
/// Differs from naga: naga has no such function.
pub fn faults_of_function(
    alloc: Global,
    module: &Module,
    function: &Function,
    limit: usize,
) -> Result<Vec<TypeFault>, AllocError>
    ensures { IfOk result (λ faults. AreFirstFaults «module».now function.now limit faults.items) }
{
    let ctx = ResolveContext::with_function(module, function);
    let mut types = Typifier::new(alloc);
    let outcome = types.grow(&function.expressions, &ctx);
    let known = &types;
    let typed = TypedFunction {
        module,
        function,
        known,
    };
    faults_of_typed(alloc, &typed, limit, &outcome)
}

/// Returns the faults of a function, for whose expressions a typifier grows with this outcome.
fn faults_of_typed(
    alloc: Global,
    typed: &TypedFunction<'_>,
    limit: usize,
    outcome: &Result<(), GrowError>,
) -> Result<Vec<TypeFault>, AllocError>
    requires { MatchResult outcome.now
        (λ _. typing (context_of typed.now) [] (values typed.now.function.now.expressions) ≡ (typed.now.known.now, None))
        (λ error. IsStopped (context_of typed.now) [] (values typed.now.function.now.expressions) error
        typed.now.known.now) }
    ensures { IfOk result (λ faults. AreFirstFaults typed.now.«module».now typed.now.function.now limit faults.items) }
{
    match outcome {
        Ok(()) => faults_of_parts(alloc, typed, limit),
        Err(GrowError::Memory) => Err(AllocError),
        Err(GrowError::NoType { expression, error }) => {
            faults_up_to(alloc, typed, limit, *expression, *error)
        }
    }
}

/// Returns the faults of a function of which each expression has a type.
fn faults_of_parts(
    alloc: Global,
    typed: &TypedFunction<'_>,
    limit: usize,
) -> Result<Vec<TypeFault>, AllocError>
    requires { typing (context_of typed.now) [] (values typed.now.function.now.expressions)
        ≡ (typed.now.known.now, None) }
    ensures { IfOk result (λ faults. AreFirstFaults typed.now.«module».now typed.now.function.now limit faults.items) }
{
    let mut faults = Vec::new(alloc);
    typed.push_operands(&mut faults, limit, typed.function.expressions.len())?;
    typed.push_variables(&mut faults, limit)?;
    typed.push_block(&mut faults, limit, &typed.function.body, 0)?;
    Ok(faults)
}

/// Returns the faults of a function of which this expression is the first that has no type.
fn faults_up_to(
    alloc: Global,
    typed: &TypedFunction<'_>,
    limit: usize,
    expression: Handle<Expression>,
    error: ResolveError,
) -> Result<Vec<TypeFault>, AllocError>
    requires at { expression ≡ length typed.now.known.now }
    requires stopped { typing (context_of typed.now) [] (values typed.now.function.now.expressions)
        ≡ (typed.now.known.now, Some error) }
    ensures { IfOk result (λ faults. AreFirstFaults typed.now.«module».now typed.now.function.now limit faults.items) }
{
    let mut faults = Vec::new(alloc);
    typed.push_operands(&mut faults, limit, expression.index())?;
    let fault = TypeFault::Value(ValueFault::NoType { expression, error });
    push(&mut faults, limit, fault)?;
    Ok(faults)
}

/// Appends a fault, unless there are as many as `limit`.
fn push(faults: &mut Vec<TypeFault>, limit: usize, fault: TypeFault) -> Result<(), AllocError>
    ensures { OnOk result (faults.new.items
        ≡ faults.old.items ++ take (limit - length faults.old.items) (fault ∷ [])) }
{
    if faults.len() >= limit {
        return Ok(());
    }
    faults.extend_from_slice(&[fault])
}

impl TypedFunction<'_> {
    /// Appends the faults of this number of expressions at the beginning.
    fn push_operands(
        &self,
        faults: &mut Vec<TypeFault>,
        limit: usize,
        count: usize,
    ) -> Result<(), AllocError>
        requires within { count ≤ length self.now.function.now.expressions }
        requires fits { count ≤ max_len }
        ensures { OnOk result (AddsFaults self.now limit
            (take count (expression_parts (context_of self.now) (signature_of self.now) self.now.known.now
            (values self.now.function.now.expressions))) faults.old.items faults.new.items) }
    {
        'expressions: for index in 0..count {
            let handle = Handle::<Expression>::at(index);
            self.push_operand(faults, limit, handle, &self.function.expressions[handle])?;
        }
        Ok(())
    }

    /// Appends the fault of an expression, if it has one.
    fn push_operand(
        &self,
        faults: &mut Vec<TypeFault>,
        limit: usize,
        handle: Handle<Expression>,
        expression: &Expression,
    ) -> Result<(), AllocError>
        ensures { OnOk result (AddsFaults self.now limit
            (of_expression (context_of self.now) (signature_of self.now) self.now.known.now (handle, expression.now) ∷ [])
            faults.old.items faults.new.items) }
    {
        let Err(requirement) = self.check_expression(expression) else {
            return Ok(());
        };
        let unmet = unmet(self, requirement);
        let expression = handle;
        push(
            faults,
            limit,
            TypeFault::Value(ValueFault::Operand { expression, unmet }),
        )
    }

    /// Appends the faults of the initial values of the variables.
    fn push_variables(&self, faults: &mut Vec<TypeFault>, limit: usize) -> Result<(), AllocError>
        ensures { OnOk result (AddsFaults self.now limit
            (variable_parts (context_of self.now) (signature_of self.now) self.now.known.now
            (locals_of self.now.function.now)) faults.old.items faults.new.items) }
    {
        'variables: for position in 0..self.count_of(DeclarationKind::LocalVariable) {
            let slot = self.initial(DeclarationKind::LocalVariable, position);
            self.push_variable(faults, limit, position, &slot)?;
        }
        Ok(())
    }

    /// Appends the fault of the variable with this index, if its initial value is not what it requires.
    fn push_variable(
        &self,
        faults: &mut Vec<TypeFault>,
        limit: usize,
        position: usize,
        slot: &Option<Requirement>,
    ) -> Result<(), AllocError>
        requires { position < max_len }
        ensures { OnOk result (AddsFaults self.now limit
            (of_variable (context_of self.now) (signature_of self.now) self.now.known.now (position, slot.now) ∷ [])
            faults.old.items faults.new.items) }
    {
        let Some(requirement) = self.unmet(slot) else {
            return Ok(());
        };
        let unmet = unmet(self, requirement);
        let declared = Initialized::LocalVariable(Handle::<LocalVariable>::at(position));
        push(
            faults,
            limit,
            TypeFault::Value(ValueFault::Initial { declared, unmet }),
        )
    }

    /// Appends the faults of the statements of a block, of which the first has this number. Returns the number of the
    /// statement that is read next.
    #[cycle(push)]
    fn push_block(
        &self,
        faults: &mut Vec<TypeFault>,
        limit: usize,
        block: &Block,
        number: u64,
    ) -> Result<u64, AllocError>
        ensures { IfOk result (WalksOver self.now limit (statements (tree_of block.now)) number
            faults.old.items faults.new.items) }
    {
        let mut met = number;
        'statements: for (statement, span) in block.span_iter() {
            met = self.push_statement(faults, limit, statement, *span, met)?;
        }
        Ok(met)
    }

    /// Appends the faults of a statement with this number and of the statements inside it.
    #[cycle(push)]
    fn push_statement(
        &self,
        faults: &mut Vec<TypeFault>,
        limit: usize,
        statement: &Statement,
        span: Span,
        number: u64,
    ) -> Result<u64, AllocError>
        ensures { IfOk result (WalksOver self.now limit
            ((node_of statement.now, span) ∷ statements_inside (node_of statement.now)) number
            faults.old.items faults.new.items) }
    {
        self.push_mismatch(faults, limit, statement, span, number)?;
        let next = number.saturating_add(1);
        match statement.control() {
            Control::Block(inner) => self.push_block(faults, limit, inner, next),
            Control::If { accept, reject, .. } => {
                let after = self.push_block(faults, limit, accept, next)?;
                self.push_block(faults, limit, reject, after)
            }
            Control::Switch { cases, .. } => self.push_cases(faults, limit, cases, next),
            Control::Loop {
                body,
                continuing,
                ..
            } => {
                let after = self.push_block(faults, limit, body, next)?;
                self.push_block(faults, limit, continuing, after)
            }
            Control::Plain
            | Control::Break
            | Control::Continue
            | Control::Return { .. }
            | Control::Kill => Ok(next),
        }
    }

    /// Appends the faults of the statements of the cases of a switch.
    #[cycle(push)]
    fn push_cases(
        &self,
        faults: &mut Vec<TypeFault>,
        limit: usize,
        cases: &[SwitchCase],
        number: u64,
    ) -> Result<u64, AllocError>
        ensures { IfOk result (WalksOver self.now limit (statements_of_cases (cases_of cases.now)) number
            faults.old.items faults.new.items) }
    {
        let mut met = number;
        'cases: for case in cases {
            met = self.push_block(faults, limit, &case.body, met)?;
        }
        Ok(met)
    }

    /// Appends the fault of a statement with this number, if it has one, whatever the statements inside it require.
    fn push_mismatch(
        &self,
        faults: &mut Vec<TypeFault>,
        limit: usize,
        statement: &Statement,
        span: Span,
        number: u64,
    ) -> Result<(), AllocError>
        ensures { OnOk result (AddsFaults self.now limit
            (of_statement (context_of self.now) (signature_of self.now) self.now.known.now
            (number, (node_of statement.now, span)) ∷ []) faults.old.items faults.new.items) }
    {
        let Err(requirement) = self.check_statement(statement) else {
            return Ok(());
        };
        let found = self.found(&requirement);
        let mismatch = TypeMismatch {
            statement: number,
            span,
            requirement,
        };
        push(faults, limit, TypeFault::Mismatch { mismatch, found })
    }
}
