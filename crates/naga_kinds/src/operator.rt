//! Operators, and other small options of expressions.
ghost use Rattle.std.specs.Prelude.{◌≡◌, min};
ghost use Rattle.naga_kinds.specs.Swizzle.{place_of};

/// An operation on one value.
#[derive(Clone, Copy, Debug, PartialEq, Eq, PartialOrd, Ord, Hash)]
pub enum UnaryOperator {
    /// Arithmetic negation, which changes the sign of a number.
    Negate,
    /// Logical negation, which maps `false` to `true` and `true` to `false`.
    LogicalNot,
    /// Bitwise negation, which inverts each bit.
    BitwiseNot,
}

/// An operation on two values.
///
/// `Add`, `Subtract`, `Multiply`, `Divide` and `Modulo` take two numbers of the same type, or two vectors of the same
/// type whose components are numbers. `Add` and `Subtract` also take two matrices of the same type. `Multiply` also
/// combines a float with a vector or a matrix, and a matrix with a vector or another matrix, as in linear algebra.
/// Every other operator needs a splat in order to combine a scalar with a vector.
#[derive(Clone, Copy, Debug, PartialEq, Eq, PartialOrd, Ord, Hash)]
pub enum BinaryOperator {
    Add,
    Subtract,
    Multiply,
    Divide,
    /// The remainder of a division, which has the sign of the left operand, as for WGSL's `%`.
    Modulo,
    Equal,
    NotEqual,
    Less,
    LessEqual,
    Greater,
    GreaterEqual,
    And,
    ExclusiveOr,
    InclusiveOr,
    LogicalAnd,
    LogicalOr,
    ShiftLeft,
    /// A shift to the right, which fills in the sign bit for signed integers, and zeros for others.
    ShiftRight,
}

/// The precision with which a derivative is computed.
#[derive(Clone, Copy, Debug, PartialEq, Eq, PartialOrd, Ord, Hash)]
pub enum DerivativeControl {
    /// One derivative for a group of fragments is enough.
    Coarse,
    /// Each fragment has its own derivative.
    Fine,
    /// The implementation chooses.
    None,
}

/// The axis along which a derivative is computed.
#[derive(Clone, Copy, Debug, PartialEq, Eq, PartialOrd, Ord, Hash)]
pub enum DerivativeAxis {
    /// The axis from left to right.
    X,
    /// The axis from top to bottom.
    Y,
    /// Both axes: the sum of the absolute values of the two derivatives.
    Width,
}

/// A built-in function that tests a value.
#[derive(Clone, Copy, Debug, PartialEq, Eq, PartialOrd, Ord, Hash)]
pub enum RelationalFunction {
    /// Returns whether all components are `true`.
    All,
    /// Returns whether any component is `true`.
    Any,
    /// Returns for each component whether it is a NaN.
    IsNan,
    /// Returns for each component whether it is infinite.
    IsInf,
}

/// A component of a vector, as selected by a swizzle.
///
/// `as u8` converts it to its index.
#[derive(Clone, Copy, Debug, PartialEq, PartialOrd)]
pub enum SwizzleComponent {
    /// The first component.
    X = 0,
    /// The second component.
    Y = 1,
    /// The third component.
    Z = 2,
    /// The fourth component.
    W = 3,
}

impl SwizzleComponent {
    /// All four components, in order.
    pub const XYZW: [Self; 4] = [
        SwizzleComponent::X,
        SwizzleComponent::Y,
        SwizzleComponent::Z,
        SwizzleComponent::W,
    ];

    /// Returns the index of the component.
    pub fn index(&self) -> u32
        ensures { result ≡ place_of self.now }
    {
        match self {
            SwizzleComponent::X => 0,
            SwizzleComponent::Y => 1,
            SwizzleComponent::Z => 2,
            SwizzleComponent::W => 3,
        }
    }

    /// Returns the component with this index, or the fourth component if `index` is greater than 3.
    pub fn from_index(index: u32) -> Self
        ensures { place_of result ≡ min index 3 }
    {
        match index {
            0 => SwizzleComponent::X,
            1 => SwizzleComponent::Y,
            2 => SwizzleComponent::Z,
            _ => SwizzleComponent::W,
        }
    }
}
