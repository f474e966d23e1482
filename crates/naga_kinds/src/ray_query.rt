//! The results of ray queries.

/// The kind of intersection that a ray query found.
///
/// `as u32` converts it to the number that a shader sees.
#[derive(Clone, Copy, Debug, Default, PartialEq, Eq, PartialOrd, Ord, Hash)]
pub enum RayQueryIntersection {
    /// No intersection.
    #[default]
    None = 0,
    /// An intersection with a triangle.
    Triangle = 1,
    /// A hit inside a box, reported by the shader itself.
    Generated = 2,
    /// An intersection with an axis-aligned box, in which the shader must look for a hit.
    Aabb = 3,
}
