// Made by tests/derive from the declarations of naga_kinds and naga_ir.
//! Names and order of variants.
ghost use Rattle.naga_kinds.specs.derived.Names.{collective_operation_name, collective_operations, direction_name, directions, subgroup_operation_name, subgroup_operations};

use crate::plain_kind::PlainKind;
use crate::subgroup::{CollectiveOperation, Direction, SubgroupOperation};

/// The variants of `Direction`, in the order of their declaration.
const DIRECTIONS: &[Direction] = &[Direction::X, Direction::Y, Direction::Diagonal];

impl PlainKind for Direction {
    ghost name_of = { direction_name };

    ghost in_order = { directions };

    fn variants<'a>() -> &'a [Direction] {
        DIRECTIONS
    }

    fn name(self) -> &'static str {
        match self {
            Direction::X => "X",
            Direction::Y => "Y",
            Direction::Diagonal => "Diagonal",
        }
    }
}

/// The variants of `SubgroupOperation`, in the order of their declaration.
const SUBGROUP_OPERATIONS: &[SubgroupOperation] = &[
    SubgroupOperation::All,
    SubgroupOperation::Any,
    SubgroupOperation::Add,
    SubgroupOperation::Mul,
    SubgroupOperation::Min,
    SubgroupOperation::Max,
    SubgroupOperation::And,
    SubgroupOperation::Or,
    SubgroupOperation::Xor,
];

impl PlainKind for SubgroupOperation {
    ghost name_of = { subgroup_operation_name };

    ghost in_order = { subgroup_operations };

    fn variants<'a>() -> &'a [SubgroupOperation] {
        SUBGROUP_OPERATIONS
    }

    fn name(self) -> &'static str {
        match self {
            SubgroupOperation::All => "All",
            SubgroupOperation::Any => "Any",
            SubgroupOperation::Add => "Add",
            SubgroupOperation::Mul => "Mul",
            SubgroupOperation::Min => "Min",
            SubgroupOperation::Max => "Max",
            SubgroupOperation::And => "And",
            SubgroupOperation::Or => "Or",
            SubgroupOperation::Xor => "Xor",
        }
    }
}

/// The variants of `CollectiveOperation`, in the order of their declaration.
const COLLECTIVE_OPERATIONS: &[CollectiveOperation] = &[
    CollectiveOperation::Reduce,
    CollectiveOperation::InclusiveScan,
    CollectiveOperation::ExclusiveScan,
];

impl PlainKind for CollectiveOperation {
    ghost name_of = { collective_operation_name };

    ghost in_order = { collective_operations };

    fn variants<'a>() -> &'a [CollectiveOperation] {
        COLLECTIVE_OPERATIONS
    }

    fn name(self) -> &'static str {
        match self {
            CollectiveOperation::Reduce => "Reduce",
            CollectiveOperation::InclusiveScan => "InclusiveScan",
            CollectiveOperation::ExclusiveScan => "ExclusiveScan",
        }
    }
}
