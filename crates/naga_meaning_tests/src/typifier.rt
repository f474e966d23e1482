//! Types of expressions.
mod contents;
mod growing;
mod unread;
