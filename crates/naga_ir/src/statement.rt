//! Statements: the actions of a shader.
ghost use Rattle.std.specs.Prelude.{◌≡◌, IfOk};
ghost use Rattle.std.specs.List.{AllZip};
ghost use Rattle.naga_ir.specs.Clones.{IsCaseClone};
ghost use Rattle.naga_ir.specs.Control.{IsControlOf, node_of_control};
ghost use Rattle.naga_ir.specs.Tree.{is_plain};
ghost use Rattle.naga_ir.specs.View.{node_of};

mod control;

use crate::block::Block;
use crate::expression::{AtomicFunction, CooperativeData, Expression, GatherMode};
use crate::module::Function;
use crate::variants::clone_variants;
pub use control::Control;
use naga_arena::{Handle, Range};
use naga_kinds::{Barrier, CollectiveOperation, SubgroupOperation, SwitchValue};
use std::alloc::AllocError;

/// A case of a switch.
#[cycle(statement)]
#[derive(Debug, Drop)]
pub struct SwitchCase {
    /// The value of the selector for which this case is entered.
    pub value: SwitchValue,
    pub body: Block,
    /// `true` if the body of the next case runs after the body of this one.
    pub fall_through: bool,
}

impl Clone for SwitchCase {
    ghost use Rattle.naga_ir.specs.Clones.{IsCaseClone};

    ghost is_clone = { IsCaseClone };

    #[cycle(statement)]
    fn clone(&self) -> Result<Self, AllocError> {
        let body = Clone::clone(&self.body)?;
        Ok(SwitchCase {
            value: self.value,
            body,
            fall_through: self.fall_through,
        })
    }
}

/// Returns clones of the cases of a switch, or `Err` if allocation fails.
#[cycle(statement)]
fn clone_cases(cases: &Vec<SwitchCase>) -> Result<Vec<SwitchCase>, AllocError>
    ensures { IfOk result (λ copies. AllZip IsCaseClone cases.now.items copies.items) }
{
    let mut copies = Vec::with_capacity(*cases.allocator(), cases.len())?;
    'cases: for case in cases {
        copies.push_reserved(Clone::clone(case)?);
    }
    Ok(copies)
}

/// Returns a clone of the arguments of a call, or `Err` if allocation fails.
fn clone_arguments(
    arguments: &Vec<Handle<Expression>>,
) -> Result<Vec<Handle<Expression>>, AllocError>
    ensures { IfOk result (λ copies. copies.items ≡ arguments.now.items) }
{
    Clone::clone(arguments)
}

/// An operation on a ray query.
#[derive(Clone, Debug, Drop)]
pub enum RayQueryFunction {
    /// Starts a query.
    Initialize {
        acceleration_structure: Handle<Expression>,
        /// A description of the ray and how it is traced, of the type `ray_desc` of the module's special types.
        descriptor: Handle<Expression>,
    },
    /// Advances the query to the next candidate.
    Proceed {
        /// The `RayQueryProceedResult` that is `true` if there is a next candidate.
        result: Handle<Expression>,
    },
    /// Adds an intersection at this distance to the candidates.
    GenerateIntersection {
        hit_t: Handle<Expression>,
    },
    /// Accepts the candidate triangle as the closest hit so far.
    ConfirmIntersection,
    /// Ends the query.
    Terminate,
}

/// An operation that only the stages of a ray tracing pipeline can perform.
#[derive(Clone, Copy, Debug)]
pub enum RayPipelineFunction {
    /// Traces a ray, which runs the stages that it reaches.
    TraceRay {
        acceleration_structure: Handle<Expression>,
        /// A description of the ray and how it is traced, of the type `ray_desc` of the module's special types.
        descriptor: Handle<Expression>,
        /// A pointer to the payload that the stages pass on, in one of the two address spaces of ray payloads.
        payload: Handle<Expression>,
    },
}

/// A statement of a shader.
///
/// The handles and ranges of expressions in a statement refer to expressions of its function. There are no "phi"
/// instructions, which would join values where branches meet: such values reach later statements only through
/// variables.
#[cycle(statement)]
#[derive(Debug, Drop)]
pub enum Statement {
    /// Evaluates these expressions, in order. The statements that follow in the block can use their values.
    Emit(Range<Expression>),
    /// Runs a block.
    Block(Block),
    /// Runs `accept` if the condition is true, and `reject` otherwise.
    If {
        condition: Handle<Expression>,
        accept: Block,
        reject: Block,
    },
    /// Runs the case for the value of the selector, and then the next case as long as the previous one falls through.
    ///
    /// In a valid module, the values of the cases are distinct, and exactly one of them, at any position, is `Default`.
    /// A body for several values needs one case for each value: the last of these cases has the body, and the others
    /// are empty and fall through.
    Switch {
        selector: Handle<Expression>,
        cases: Vec<SwitchCase>,
    },
    /// Runs `body` and then `continuing`, repeatedly.
    ///
    /// A `Break` exits the loop, and so does a true `break_if`, which is checked after `continuing`. A `Continue` in
    /// `body` jumps to `continuing`. In a valid module, no jump leaves `continuing`.
    Loop {
        body: Block,
        continuing: Block,
        break_if: Option<Handle<Expression>>,
    },
    /// Exits the innermost enclosing loop or switch.
    // derive: jump
    Break,
    /// Jumps to the `continuing` block of the innermost enclosing loop.
    // derive: jump
    Continue,
    /// Returns from the function, with this value if the function has a result.
    // derive: jump
    Return {
        value: Option<Handle<Expression>>,
    },
    /// Ends the invocation.
    // derive: jump
    Kill,
    /// Waits until all invocations of the workgroup have arrived here. Afterwards, all of them see what each of them
    /// wrote to the memory that the flags select.
    ControlBarrier(Barrier),
    /// Orders this invocation's accesses to the memory that the flags select, without waiting.
    MemoryBarrier(Barrier),
    /// Writes a value through a pointer.
    Store {
        pointer: Handle<Expression>,
        value: Handle<Expression>,
    },
    /// Writes a texel of an image, which is specified as in the expression `ImageLoad`.
    ImageStore {
        image: Handle<Expression>,
        coordinate: Handle<Expression>,
        array_index: Option<Handle<Expression>>,
        value: Handle<Expression>,
    },
    /// Modifies an atomic value in one step.
    Atomic {
        pointer: Handle<Expression>,
        fun: AtomicFunction,
        value: Handle<Expression>,
        /// The `AtomicResult` that receives the value that was found. An exchange without `compare` always has one.
        result: Option<Handle<Expression>>,
    },
    /// Modifies a texel of an image in one step.
    ImageAtomic {
        image: Handle<Expression>,
        coordinate: Handle<Expression>,
        array_index: Option<Handle<Expression>>,
        fun: AtomicFunction,
        value: Handle<Expression>,
    },
    /// Reads one value for the whole workgroup, with barriers before and after the read.
    WorkGroupUniformLoad {
        /// A pointer into the address space `WorkGroup`.
        pointer: Handle<Expression>,
        /// The `WorkGroupUniformLoadResult` that receives the value.
        result: Handle<Expression>,
    },
    /// Calls a function.
    // derive: value call
    Call {
        function: Handle<Function>,
        arguments: Vec<Handle<Expression>>,
        /// The `CallResult` that receives the value that the function returns, if it returns one.
        result: Option<Handle<Expression>>,
    },
    /// Performs an operation on a ray query.
    RayQuery {
        /// A pointer to the state of the query.
        query: Handle<Expression>,
        fun: RayQueryFunction,
    },
    /// Performs an operation that only ray tracing stages can perform.
    RayPipelineFunction(RayPipelineFunction),
    /// Creates a bit mask from one boolean of each active invocation of the subgroup.
    SubgroupBallot {
        /// The `SubgroupBallotResult` that receives the bit mask.
        result: Handle<Expression>,
        /// The boolean of this invocation. `None` means `true`.
        predicate: Option<Handle<Expression>>,
    },
    /// Reads a value from another invocation of the subgroup.
    SubgroupGather {
        mode: GatherMode,
        /// The value that this invocation provides.
        argument: Handle<Expression>,
        /// The `SubgroupOperationResult` that receives the value of the other invocation.
        result: Handle<Expression>,
    },
    /// Combines the values of the active invocations of the subgroup.
    SubgroupCollectiveOperation {
        op: SubgroupOperation,
        /// The invocations whose values are combined: all of them, or those up to this one, with or without this one.
        collective_op: CollectiveOperation,
        argument: Handle<Expression>,
        /// The `SubgroupOperationResult` that receives the result.
        result: Handle<Expression>,
    },
    /// Writes a cooperative matrix to memory.
    CooperativeStore {
        target: Handle<Expression>,
        data: CooperativeData,
    },
}

/// Clones the statement. A statement that contains no list and no block is plain data, and cloning it allocates
/// nothing.
impl Clone for Statement {
    ghost use Rattle.naga_ir.specs.Clones.{IsStatementClone};

    ghost is_clone = { IsStatementClone };

    // Not inlined, so that the loop over the statements of a block stays short.
    #[cycle(statement)]
    #[inline(never)]
    fn clone(&self) -> Result<Self, AllocError> {
        clone_variants! {
            match self {
                Self::Emit(range) => Ok(Self::Emit(Clone::clone(range)?)),
                Self::Block(block) => Ok(Self::Block(Clone::clone(block)?)),
                Self::If { condition, accept, reject } => {
                    let accept = Clone::clone(accept)?;
                    let reject = Clone::clone(reject)?;
                    Ok(Self::If { condition: *condition, accept, reject })
                },
                Self::Switch { selector, cases } => {
                    Ok(Self::Switch { selector: *selector, cases: clone_cases(cases)? })
                },
                Self::Loop { body, continuing, break_if } => {
                    let body = Clone::clone(body)?;
                    let continuing = Clone::clone(continuing)?;
                    Ok(Self::Loop { body, continuing, break_if: *break_if })
                },
                Self::Call { function, arguments, result } => Ok(Self::Call {
                    function: *function,
                    arguments: clone_arguments(arguments)?,
                    result: *result,
                }),
                Self::RayQuery { query, fun } => {
                    Ok(Self::RayQuery { query: *query, fun: Clone::clone(fun)? })
                },
            }
            ControlBarrier(barrier)
            MemoryBarrier(barrier)
            RayPipelineFunction(fun);
            Break {}
            Continue {}
            Return { value }
            Kill {}
            Store { pointer, value }
            ImageStore { image, coordinate, array_index, value }
            Atomic { pointer, fun, value, result }
            ImageAtomic { image, coordinate, array_index, fun, value }
            WorkGroupUniformLoad { pointer, result }
            SubgroupBallot { result, predicate }
            SubgroupGather { mode, argument, result }
            SubgroupCollectiveOperation { op, collective_op, argument, result }
            CooperativeStore { target, data }
        }
    }
}

impl Statement {
    /// Returns the effect of the statement on control flow, with references to its parts.
    ///
    /// A `match` on the result is exhaustive without naming the variants through which control passes. The
    /// implementation names every variant, so that a new one is not silently treated as plain.
    ///
    /// Differs from naga: naga has no such method.
    pub fn control(&self) -> Control<'_>
        ensures parts { IsControlOf self.now result }
        ensures node { node_of self.now ≡ node_of_control self.now result }
    {
        match self {
            Statement::Block(block) => Control::Block(block),
            Statement::If {
                condition,
                accept,
                reject,
            } => Control::If {
                condition: *condition,
                accept,
                reject,
            },
            Statement::Switch { selector, cases } => Control::Switch {
                selector: *selector,
                cases,
            },
            Statement::Loop {
                body,
                continuing,
                break_if,
            } => Control::Loop {
                body,
                continuing,
                break_if: *break_if,
            },
            Statement::Break => Control::Break,
            Statement::Continue => Control::Continue,
            Statement::Return { value } => Control::Return { value: *value },
            Statement::Kill => Control::Kill,
            Statement::Emit(_)
            | Statement::ControlBarrier(_)
            | Statement::MemoryBarrier(_)
            | Statement::Store { .. }
            | Statement::ImageStore { .. }
            | Statement::Atomic { .. }
            | Statement::ImageAtomic { .. }
            | Statement::WorkGroupUniformLoad { .. }
            | Statement::Call { .. }
            | Statement::RayQuery { .. }
            | Statement::RayPipelineFunction(_)
            | Statement::SubgroupBallot { .. }
            | Statement::SubgroupGather { .. }
            | Statement::SubgroupCollectiveOperation { .. }
            | Statement::CooperativeStore { .. } => Control::Plain,
        }
    }

    /// Returns whether control passes through the statement: it contains no block and does not jump.
    ///
    /// Differs from naga: naga has no such method.
    pub fn is_plain(&self) -> bool
        ensures { result ≡ is_plain (node_of self.now) }
    {
        matches!(self.control(), Control::Plain)
    }
}
