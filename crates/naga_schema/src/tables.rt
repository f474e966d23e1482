//! Values and objects that the tables of the types refer to.

pub(crate) mod leaves;
pub(crate) mod objects;
