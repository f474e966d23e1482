//! Where the layout of a type does not fit.
use crate::alignment::Alignment;
use crate::layout_error::LayoutErrorInner;
use naga_arena::Handle;
use naga_ir::Type;
use std::error::Error;
use std::fmt;

/// What is wrong with the layout of a type or of a member.
#[derive(Clone, Copy, Debug, PartialEq)]
pub enum LayoutCause {
    /// The type has no layout.
    NoLayout(LayoutErrorInner),
    /// The elements of the array have no fixed size.
    InvalidArrayBaseType,
    /// The stride of the array is not a multiple of the alignment of its elements.
    ArrayStride {
        /// The stride.
        stride: u32,
        /// The alignment.
        alignment: Alignment,
    },
    /// The stride of the array is less than the size of its elements.
    InvalidArrayStride {
        /// The stride.
        stride: u32,
        /// The size.
        expected: u32,
    },
    /// The member has no fixed size, and is not an array in the last place.
    UnsizedMember,
    /// The offset of the member is not a multiple of its alignment.
    MemberOffset {
        /// The offset.
        offset: u32,
        /// The alignment.
        alignment: Alignment,
    },
    /// The member begins before the end of the one before it.
    MemberOverlap {
        /// The offset.
        offset: u32,
        /// The end of the member before it.
        expected: u32,
    },
    /// The member ends after the structure.
    MemberOutOfBounds {
        /// The offset.
        offset: u32,
        /// The size of the member.
        size: u32,
        /// The size of the structure.
        span: u32,
    },
    /// The size of the structure is not a multiple of its alignment.
    StructSpan {
        /// The size.
        span: u32,
        /// The alignment.
        alignment: Alignment,
    },
    /// A variable in a space that the host shares has values of the type, and the type is neither made of numbers nor of
    /// types that are.
    NonHostShareable,
    /// The array is in a uniform buffer, and its stride is not a multiple of 16.
    UniformStride {
        /// The stride.
        stride: u32,
    },
    /// The structure is in a uniform buffer, the member is an array or a structure, and its offset is not a multiple
    /// of 16.
    UniformOffset {
        /// The offset.
        offset: u32,
    },
    /// The structure is in a uniform buffer, the member before is a structure, and the member begins before the next
    /// multiple of 16 after its end.
    MemberOffsetAfterStruct {
        /// The offset.
        offset: u32,
        /// The least offset that is allowed.
        expected: u64,
    },
}

impl LayoutCause {
    /// Formats a cause that concerns an array.
    fn fmt_array<W: fmt::Write>(&self, f: &mut fmt::Formatter<W>) -> fmt::Result {
        match self {
            LayoutCause::InvalidArrayBaseType => f.write_str("the elements have no fixed size"),
            LayoutCause::ArrayStride { stride, alignment } => {
                write!(
                    f,
                    "the stride {stride} is not a multiple of {alignment}, the alignment of the elements"
                )
            }
            LayoutCause::InvalidArrayStride { stride, expected } => {
                write!(
                    f,
                    "the stride {stride} is less than {expected}, the size of the elements"
                )
            }
            LayoutCause::UniformStride { stride } => {
                write!(
                    f,
                    "in a uniform buffer, the stride {stride} is not a multiple of 16"
                )
            }
            _ => self.fmt_member(f),
        }
    }

    /// Formats a cause that concerns a member.
    fn fmt_member<W: fmt::Write>(&self, f: &mut fmt::Formatter<W>) -> fmt::Result {
        match self {
            LayoutCause::UnsizedMember => {
                f.write_str("it has no fixed size, and is not an array in the last place")
            }
            LayoutCause::MemberOffset { offset, alignment } => {
                write!(
                    f,
                    "the offset {offset} is not a multiple of {alignment}, its alignment"
                )
            }
            LayoutCause::MemberOverlap { offset, expected } => {
                write!(
                    f,
                    "the offset {offset} is less than {expected}, the end of the member before"
                )
            }
            LayoutCause::MemberOutOfBounds { offset, size, span } => {
                write!(
                    f,
                    "with the offset {offset} and the size {size}, it ends after {span}, the size of the structure"
                )
            }
            _ => self.fmt_uniform_member(f),
        }
    }

    /// Formats a cause that concerns a member in a uniform buffer.
    fn fmt_uniform_member<W: fmt::Write>(&self, f: &mut fmt::Formatter<W>) -> fmt::Result {
        match self {
            LayoutCause::UniformOffset { offset } => {
                write!(
                    f,
                    "in a uniform buffer, the offset {offset} is not a multiple of 16"
                )
            }
            LayoutCause::MemberOffsetAfterStruct { offset, expected } => {
                write!(
                    f,
                    "in a uniform buffer, the offset {offset} after a structure is less than {expected}"
                )
            }
            _ => f.write_str("the type is not host-shareable"),
        }
    }
}

impl fmt::Display for LayoutCause {
    fn fmt<W: fmt::Write>(&self, f: &mut fmt::Formatter<W>) -> fmt::Result {
        match self {
            LayoutCause::NoLayout(inner) => write!(f, "{inner}"),
            LayoutCause::StructSpan { span, alignment } => {
                write!(
                    f,
                    "the size {span} is not a multiple of {alignment}, its alignment"
                )
            }
            _ => self.fmt_array(f),
        }
    }
}

/// A type whose layout does not fit.
#[derive(Clone, Copy, Debug, PartialEq)]
pub struct LayoutFault {
    /// The type.
    pub ty: Handle<Type>,
    /// The index of the member that is at fault, if one is.
    pub member: Option<usize>,
    /// What is wrong.
    pub cause: LayoutCause,
}

/// Formats the fault with the indices of the type and of the member, as in
/// `type 3: member 1: the offset 6 is not a multiple of 4, its alignment`.
impl fmt::Display for LayoutFault {
    fn fmt<W: fmt::Write>(&self, f: &mut fmt::Formatter<W>) -> fmt::Result {
        let (ty, cause) = (self.ty.index(), self.cause);
        match self.member {
            Some(member) => write!(f, "type {ty}: member {member}: {cause}"),
            None => write!(f, "type {ty}: {cause}"),
        }
    }
}

impl Error for LayoutFault {}

/// Why the check of layouts fails.
#[derive(Clone, Copy, Debug, PartialEq)]
pub enum InvalidLayouts {
    /// Allocation fails.
    Memory,
    /// The layout of a type does not fit.
    Fault(LayoutFault),
}

impl fmt::Display for InvalidLayouts {
    fn fmt<W: fmt::Write>(&self, f: &mut fmt::Formatter<W>) -> fmt::Result {
        match self {
            InvalidLayouts::Memory => f.write_str("out of memory"),
            InvalidLayouts::Fault(fault) => write!(f, "{fault}"),
        }
    }
}

impl Error for InvalidLayouts {}
