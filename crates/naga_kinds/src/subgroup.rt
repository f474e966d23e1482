//! Operations that the invocations of a subgroup perform together.

/// The direction in which the invocations of a quad exchange values.
///
/// `as u8` converts it to its number.
#[derive(Clone, Copy, Debug, PartialEq, Eq, PartialOrd, Ord, Hash)]
pub enum Direction {
    /// Each invocation exchanges values with its horizontal neighbour.
    X = 0,
    /// Each invocation exchanges values with its vertical neighbour.
    Y = 1,
    /// Each invocation exchanges values with the diagonally opposite one.
    Diagonal = 2,
}

/// An operation that combines the values of a subgroup's invocations into one value.
///
/// `as u8` converts it to its number.
#[derive(Clone, Copy, Debug, PartialEq, Eq, PartialOrd, Ord, Hash)]
pub enum SubgroupOperation {
    /// `true` if all values are `true`.
    All = 0,
    /// `true` if any value is `true`.
    Any = 1,
    /// The sum of the values.
    Add = 2,
    /// The product of the values.
    Mul = 3,
    /// The least value.
    Min = 4,
    /// The greatest value.
    Max = 5,
    /// The bits that are set in all values.
    And = 6,
    /// The bits that are set in any value.
    Or = 7,
    /// The bits that are set in an odd number of values.
    Xor = 8,
}

/// The invocations whose values a subgroup operation combines, from the point of view of one invocation.
///
/// `as u8` converts it to its number.
#[derive(Clone, Copy, Debug, PartialEq, Eq, PartialOrd, Ord, Hash)]
pub enum CollectiveOperation {
    /// All invocations.
    Reduce = 0,
    /// The invocation itself, and those before it.
    InclusiveScan = 1,
    /// The invocations before it.
    ExclusiveScan = 2,
}
