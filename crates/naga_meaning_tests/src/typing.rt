//! Which types the operands of statements and of expressions, and initial values must have.
mod refusals;
mod unread;
