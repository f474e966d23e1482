//! The check of one statement.
ghost use Rattle.std.specs.Prelude.{◌≡◌, [], ◌∷◌, MatchOption};
ghost use Rattle.naga_ir.specs.Tree.{return};
ghost use Rattle.naga_ir.specs.View.{cases_of, node_of};
ghost use Rattle.naga_ir.specs.declared.statement.Statement.TheVariants as statement;
ghost use Rattle.naga_typing.specs.Checks.{Checks};
ghost use Rattle.naga_typing.specs.Expressions.{of};
ghost use Rattle.naga_typing.specs.Statements.{atomic_result, collected, combined, compared, gather_index, of_arguments, of_atomic, of_call, of_cases, of_combined, of_image, of_image_atomic, of_jump, of_kind, of_ray_query, of_switch, of_type, of_type_if, required, required_by};
ghost use Rattle.naga_kinds.specs.declared.scalar.TheConstants.Scalar.{U32};
ghost use Rattle.naga_typing.specs.TypedFunctions.{FitsIn};
ghost use Rattle.naga_typing.specs.declared.requirement.Kind.TheVariants as kind;
ghost use Rattle.naga_typing.specs.declared.requirement.Scalars.TheVariants as scalars;
ghost use Rattle.naga_typing.specs.declared.requirement.Source.TheVariants as source;

use crate::requirement::{
    Expected, Kind, Requirement, Scalars, Source, integer, integer_if, of_kind, of_type,
    of_type_if, selects,
};
use crate::typed_function::TypedFunction;
use naga_arena::Handle;
use naga_ir::{
    AtomicFunction, CooperativeData, Expression, Function, GatherMode, RayPipelineFunction,
    RayQueryFunction, Scalar, Statement, SubgroupOperation, SwitchCase,
};

impl TypedFunction<'_> {
    /// Checks what a statement requires, whatever the statements inside it require.
    ///
    /// Returns the first requirement that is not met.
    pub(crate) fn check_statement(&self, statement: &Statement) -> Result<(), Requirement>
        ensures { Checks (FitsIn self.now) (required_by (node_of statement.now)) result }
    {
        match statement {
            Statement::Emit(_)
            | Statement::Block(_)
            | Statement::Break
            | Statement::Continue
            | Statement::Kill => Ok(()),
            Statement::If { condition, .. } => {
                self.check_type(Source::Scalar(Scalar::BOOL), *condition)
            }
            Statement::Switch { selector, cases } => {
                self.check_switch(*selector, cases.as_slice())
            }
            Statement::Loop { break_if, .. } => {
                self.check_type_if(Source::Scalar(Scalar::BOOL), *break_if)
            }
            Statement::Return { value } => self.check_return(*value),
            _ => self.check_plain(statement),
        }
    }

    /// Checks requirements in order, and returns the first that is not met.
    pub(crate) fn check(&self, slots: &[Option<Requirement>]) -> Result<(), Requirement>
        ensures { Checks (FitsIn self.now) slots.now result }
    {
        'slots: for slot in slots {
            if let Some(unmet) = self.unmet(slot) {
                return Err(unmet);
            }
        }
        Ok(())
    }

    /// Checks a requirement.
    pub(crate) fn check_one(&self, slot: Option<Requirement>) -> Result<(), Requirement>
        ensures { Checks (FitsIn self.now) (slot ∷ []) result }
    {
        match self.unmet(&slot) {
            Some(unmet) => Err(unmet),
            None => Ok(()),
        }
    }

    /// Checks two requirements in order, and returns the first that is not met.
    pub(crate) fn check_both(
        &self,
        first: Option<Requirement>,
        second: Option<Requirement>,
    ) -> Result<(), Requirement>
        ensures { Checks (FitsIn self.now) (first ∷ (second ∷ [])) result }
    {
        match self.check_one(first) {
            Ok(()) => self.check_one(second),
            Err(unmet) => Err(unmet),
        }
    }

    /// Checks that an operand is what is expected.
    pub(crate) fn check_expected(
        &self,
        expected: Expected,
        operand: Handle<Expression>,
    ) -> Result<(), Requirement>
        ensures { Checks (FitsIn self.now) (of expected operand ∷ []) result }
    {
        if self.is_expected(operand, &expected) {
            return Ok(());
        }
        Err(Requirement::Operand { operand, expected })
    }

    /// Checks that an operand is of this kind.
    pub(crate) fn check_kind(
        &self,
        operand: Handle<Expression>,
        kind: Kind,
    ) -> Result<(), Requirement>
        ensures { Checks (FitsIn self.now) (of_kind operand kind ∷ []) result }
    {
        if self.is_kind(operand, kind) {
            return Ok(());
        }
        Err(Requirement::Operand {
            operand,
            expected: Expected::Kind(kind),
        })
    }

    /// Checks that an operand is of this kind, and that another one is what is expected.
    pub(crate) fn check_kind_and(
        &self,
        operand: Handle<Expression>,
        kind: Kind,
        expected: Expected,
        other: Handle<Expression>,
    ) -> Result<(), Requirement>
        ensures { Checks (FitsIn self.now) (of_kind operand kind ∷ (of expected other ∷ [])) result }
    {
        match self.check_kind(operand, kind) {
            Ok(()) => self.check_expected(expected, other),
            Err(unmet) => Err(unmet),
        }
    }

    /// Checks that an operand has the type that comes from this source.
    pub(crate) fn check_type(
        &self,
        source: Source,
        operand: Handle<Expression>,
    ) -> Result<(), Requirement>
        ensures { Checks (FitsIn self.now) (of_type source operand ∷ []) result }
    {
        self.check_expected(Expected::Type(source), operand)
    }

    /// Checks that an operand that may be absent has the type that comes from this source.
    fn check_type_if(
        &self,
        source: Source,
        operand: Option<Handle<Expression>>,
    ) -> Result<(), Requirement>
        ensures { Checks (FitsIn self.now) (of_type_if source operand ∷ []) result }
    {
        match operand {
            Some(operand) => self.check_type(source, operand),
            None => Ok(()),
        }
    }

    /// Checks that an operand is a pointer of this kind, and a value of the type that is loaded from it.
    fn check_loaded(
        &self,
        pointer: Handle<Expression>,
        kind: Kind,
        value: Handle<Expression>,
    ) -> Result<(), Requirement>
        ensures { Checks (FitsIn self.now)
            (of_kind pointer kind ∷ (of_type (source.Loaded pointer) value ∷ [])) result }
    {
        self.check_kind_and(
            pointer,
            kind,
            Expected::Type(Source::Loaded(pointer)),
            value,
        )
    }

    /// Checks the index from which a value is gathered, if there is one, and the value.
    fn check_gather(
        &self,
        index: Option<Handle<Expression>>,
        argument: Handle<Expression>,
        outcome: Handle<Expression>,
    ) -> Result<(), Requirement>
        ensures { Checks (FitsIn self.now) (of_type_if (source.Scalar U32) index
            ∷ (of_type (source.Same outcome) argument ∷ (of_kind argument (kind.Components scalars.Any) ∷ []))) result }
    {
        self.check(&[
            of_type_if(Source::Scalar(Scalar::U32), index),
            of_type(Source::Same(outcome), argument),
            of_kind(argument, Kind::Components(Scalars::Any)),
        ])
    }

    /// Returns a requirement if there is one and it is not met.
    pub(crate) fn unmet(&self, slot: &Option<Requirement>) -> Option<Requirement>
        ensures { MatchOption result (FitsIn self.now slot.now)
            (λ unmet. (slot.now ≡ Some unmet) × ¬ FitsIn self.now slot.now) }
    {
        let Some(requirement) = slot else {
            return None;
        };
        if self.meets(requirement) {
            return None;
        }
        Some(*requirement)
    }

    /// Checks the selector of a switch.
    fn check_switch(
        &self,
        selector: Handle<Expression>,
        cases: &[SwitchCase],
    ) -> Result<(), Requirement>
        ensures { Checks (FitsIn self.now) (of_switch selector (cases_of cases.now)) result }
    {
        if let Some(unmet) = self.unmet(&integer(selector)) {
            return Err(unmet);
        }
        self.check_cases(selector, cases)
    }

    /// Checks that a selector has the types of the values of cases.
    fn check_cases(
        &self,
        selector: Handle<Expression>,
        cases: &[SwitchCase],
    ) -> Result<(), Requirement>
        ensures { Checks (FitsIn self.now) (of_cases selector (cases_of cases.now)) result }
    {
        'cases: for case in cases {
            if let Some(unmet) = self.unmet(&selects(selector, case.value)) {
                return Err(unmet);
            }
        }
        Ok(())
    }

    /// Checks the value that is returned.
    fn check_return(&self, value: Option<Handle<Expression>>) -> Result<(), Requirement>
        ensures { Checks (FitsIn self.now) (of_jump (return value)) result }
    {
        match value {
            Some(value) => self.check_type(Source::FunctionResult, value),
            None => self.check_one(Some(Requirement::NoResult)),
        }
    }

    /// Checks what a plain statement requires.
    fn check_plain(&self, statement: &Statement) -> Result<(), Requirement>
        ensures { Checks (FitsIn self.now) (required statement.now) result }
    {
        match statement {
            Statement::Store { pointer, value } => {
                self.check_loaded(*pointer, Kind::Pointer, *value)
            }
            Statement::ImageStore {
                image,
                coordinate,
                array_index,
                value,
            } => self.check_texel(
                *image,
                *coordinate,
                *array_index,
                Source::Texel(*image),
                *value,
            ),
            Statement::ImageAtomic {
                image,
                coordinate,
                array_index,
                fun,
                value,
            } => self.check_image_atomic(*image, *coordinate, *array_index, fun, *value),
            Statement::Atomic {
                pointer,
                fun,
                value,
                result,
            } => self.check_atomic(*pointer, fun, *value, *result),
            Statement::WorkGroupUniformLoad { pointer, result } => {
                self.check_loaded(*pointer, Kind::WorkGroupPointer, *result)
            }
            Statement::Call {
                function,
                arguments,
                result,
            } => self.check_call(*function, arguments.as_slice(), *result),
            Statement::RayQuery { query, fun } => self.check_ray_query(*query, fun),
            Statement::RayPipelineFunction(fun) => self.check_ray_pipeline(fun),
            Statement::SubgroupBallot { predicate, .. } => {
                self.check_type_if(Source::Scalar(Scalar::BOOL), *predicate)
            }
            Statement::SubgroupGather {
                mode,
                argument,
                result,
            } => self.check_gather(gather_index(*mode), *argument, *result),
            Statement::SubgroupCollectiveOperation {
                op,
                argument,
                result,
                ..
            } => self.check_both(
                of_type(Source::Same(*result), *argument),
                of_kind(*argument, collected(*op)),
            ),
            Statement::CooperativeStore { target, data } => {
                self.check_cooperative_store(*target, data)
            }
            Statement::Emit(_)
            | Statement::Block(_)
            | Statement::If { .. }
            | Statement::Switch { .. }
            | Statement::Loop { .. }
            | Statement::Break
            | Statement::Continue
            | Statement::Return { .. }
            | Statement::Kill
            | Statement::ControlBarrier(_)
            | Statement::MemoryBarrier(_) => Ok(()),
        }
    }

    /// Checks the operands of a function of a pipeline of rays.
    fn check_ray_pipeline(&self, fun: &RayPipelineFunction) -> Result<(), Requirement>
        ensures { Checks (FitsIn self.now) (required (statement.RayPipelineFunction fun.now)) result }
    {
        match fun {
            RayPipelineFunction::TraceRay {
                acceleration_structure,
                descriptor,
                payload,
            } => self.check(&[
                of_kind(*acceleration_structure, Kind::AccelerationStructure),
                of_type(Source::RayDescription, *descriptor),
                of_kind(*payload, Kind::RayPayload),
            ]),
        }
    }

    /// Checks that a cooperative matrix can be written to memory.
    fn check_cooperative_store(
        &self,
        target: Handle<Expression>,
        data: &CooperativeData,
    ) -> Result<(), Requirement>
        ensures { Checks (FitsIn self.now) (required (statement.CooperativeStore target data.now)) result }
    {
        let operand = data.pointer;
        let expected = Expected::CooperativeData(target);
        self.check(&[
            of_kind(target, Kind::CooperativeMatrix),
            Some(Requirement::Operand { operand, expected }),
            of_type(Source::Scalar(Scalar::U32), data.stride),
        ])
    }

    /// Checks that a value can be written to the place of a texel, or is combined with a component of it.
    fn check_texel(
        &self,
        image: Handle<Expression>,
        coordinate: Handle<Expression>,
        array_index: Option<Handle<Expression>>,
        source: Source,
        value: Handle<Expression>,
    ) -> Result<(), Requirement>
        ensures { Checks (FitsIn self.now) (of_image image coordinate array_index source value) result }
    {
        self.check(&[
            of_kind(image, Kind::StorageImage),
            of_kind(image, Kind::TexelImage),
            Some(Requirement::Operand {
                operand: coordinate,
                expected: Expected::Coordinate(image),
            }),
            Some(Requirement::Layers {
                image,
                has_index: array_index.is_some(),
            }),
            integer_if(array_index),
            of_type(source, value),
        ])
    }

    /// Checks the operands of an atomic operation.
    fn check_atomic(
        &self,
        pointer: Handle<Expression>,
        fun: &AtomicFunction,
        value: Handle<Expression>,
        outcome: Option<Handle<Expression>>,
    ) -> Result<(), Requirement>
        ensures { Checks (FitsIn self.now) (of_atomic pointer fun.now value outcome) result }
    {
        let compare = compared(fun);
        let source = atomic_result(pointer, &compare);
        self.check(&[
            of_kind(pointer, Kind::AtomicPointer),
            of_type(Source::AtomicScalar(pointer), value),
            of_kind(value, Kind::Single(combined(fun))),
            of_type_if(Source::AtomicScalar(pointer), compare),
            of_type_if(source, outcome),
        ])
    }

    /// Checks the operands of an atomic operation on a component of a texel.
    fn check_image_atomic(
        &self,
        image: Handle<Expression>,
        coordinate: Handle<Expression>,
        array_index: Option<Handle<Expression>>,
        fun: &AtomicFunction,
        value: Handle<Expression>,
    ) -> Result<(), Requirement>
        ensures { Checks (FitsIn self.now) (of_image_atomic image coordinate array_index fun.now value) result }
    {
        let stored = Source::Component(image);
        match self.check_texel(image, coordinate, array_index, stored, value) {
            Ok(()) => self.check_combined(Source::Component(image), fun, value),
            Err(unmet) => Err(unmet),
        }
    }

    /// Checks the value that an atomic function combines, and what it compares.
    fn check_combined(
        &self,
        source: Source,
        fun: &AtomicFunction,
        value: Handle<Expression>,
    ) -> Result<(), Requirement>
        ensures { Checks (FitsIn self.now) (of_combined source fun.now value) result }
    {
        let combines = of_kind(value, Kind::Single(combined(fun)));
        self.check_both(combines, of_type_if(source, compared(fun)))
    }

    /// Checks a call of a function.
    fn check_call(
        &self,
        function: Handle<Function>,
        arguments: &[Handle<Expression>],
        outcome: Option<Handle<Expression>>,
    ) -> Result<(), Requirement>
        ensures { Checks (FitsIn self.now) (of_call function arguments.now outcome) result }
    {
        let called = self.check(&[
            Some(Requirement::ArgumentCount {
                function,
                count: arguments.len(),
            }),
            Some(Requirement::CallResult {
                function,
                has_result: outcome.is_some(),
            }),
        ]);
        match called {
            Ok(()) => self.check_arguments(function, arguments),
            Err(unmet) => Err(unmet),
        }
    }

    /// Checks the arguments of a call of a function.
    fn check_arguments(
        &self,
        function: Handle<Function>,
        arguments: &[Handle<Expression>],
    ) -> Result<(), Requirement>
        ensures { Checks (FitsIn self.now) (of_arguments function 0 arguments.now) result }
    {
        'arguments: for position in 0..arguments.len() {
            let argument = of_type(Source::Argument(function, position), arguments[position]);
            if let Some(unmet) = self.unmet(&argument) {
                return Err(unmet);
            }
        }
        Ok(())
    }

    /// Checks an operation on a ray query.
    fn check_ray_query(
        &self,
        query: Handle<Expression>,
        fun: &RayQueryFunction,
    ) -> Result<(), Requirement>
        ensures { Checks (FitsIn self.now) (of_ray_query query fun.now) result }
    {
        let query = of_kind(query, Kind::RayQueryPointer);
        match fun {
            RayQueryFunction::Initialize {
                acceleration_structure,
                descriptor,
            } => self.check(&[
                query,
                of_kind(*acceleration_structure, Kind::AccelerationStructure),
                of_type(Source::RayDescription, *descriptor),
            ]),
            RayQueryFunction::Proceed { result } => {
                self.check_both(query, of_type(Source::Scalar(Scalar::BOOL), *result))
            }
            RayQueryFunction::GenerateIntersection { hit_t } => {
                self.check_both(query, of_type(Source::Scalar(Scalar::F32), *hit_t))
            }
            RayQueryFunction::ConfirmIntersection | RayQueryFunction::Terminate => {
                self.check_one(query)
            }
        }
    }
}

/// Returns what an exchange compares.
fn compared(fun: &AtomicFunction) -> Option<Handle<Expression>>
    ensures { result ≡ compared fun.now }
{
    match fun {
        AtomicFunction::Exchange { compare } => *compare,
        _ => None,
    }
}

/// Returns the scalars that an atomic function combines.
fn combined(fun: &AtomicFunction) -> Scalars
    ensures { result ≡ combined fun.now }
{
    match fun {
        AtomicFunction::Add
        | AtomicFunction::Subtract
        | AtomicFunction::Exchange { compare: None } => Scalars::Numbers,
        AtomicFunction::And
        | AtomicFunction::ExclusiveOr
        | AtomicFunction::InclusiveOr
        | AtomicFunction::Min
        | AtomicFunction::Max
        | AtomicFunction::Exchange { compare: Some(_) } => Scalars::Integers,
    }
}

/// Returns the values that a collective operation combines.
fn collected(op: SubgroupOperation) -> Kind
    ensures { result ≡ collected op }
{
    match op {
        SubgroupOperation::All | SubgroupOperation::Any => Kind::Single(Scalars::Booleans),
        SubgroupOperation::Add
        | SubgroupOperation::Mul
        | SubgroupOperation::Min
        | SubgroupOperation::Max => Kind::Components(Scalars::Numbers),
        SubgroupOperation::And | SubgroupOperation::Or | SubgroupOperation::Xor => {
            Kind::Components(Scalars::Integers)
        }
    }
}

/// Returns where the type of the result of an atomic operation comes from.
fn atomic_result(pointer: Handle<Expression>, compare: &Option<Handle<Expression>>) -> Source
    ensures { result ≡ atomic_result pointer compare.now }
{
    match compare {
        Some(_) => Source::ExchangeResult(pointer),
        None => Source::AtomicScalar(pointer),
    }
}

/// Returns the index from which a value is gathered.
fn gather_index(mode: GatherMode) -> Option<Handle<Expression>>
    ensures { result ≡ gather_index mode }
{
    match mode {
        GatherMode::Broadcast(index)
        | GatherMode::Shuffle(index)
        | GatherMode::ShuffleDown(index)
        | GatherMode::ShuffleUp(index)
        | GatherMode::ShuffleXor(index)
        | GatherMode::QuadBroadcast(index) => Some(index),
        GatherMode::BroadcastFirst | GatherMode::QuadSwap(_) => None,
    }
}
