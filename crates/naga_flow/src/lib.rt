//! The checks of bodies: whether each jump is where naga's documentation of its statement allows it, and whether each
//! expression is evaluated before its value is used, and not again in its scope.
//!
//! Proved: `check_jumps` returns the first jump that is not allowed where it is, and no run of a body without such a
//! jump ends by a break or a continue. `check_uses` returns the first misuse of an expression, and no run of a body
//! without one uses a value that was never computed, or evaluates an expression again in its scope. `check_emitted` does
//! so where an access has the value of its `Emit`, as naga has it. `check_bodies` checks the jumps and the uses of each
//! body of a module. What errors display is proved, with the paths to statements.
#![tactic(auto)]

mod bodies;
mod chains;
mod constant_chains;
mod evaluation;
mod exits;
mod invalid_use;
mod jumps;
mod known;
pub mod laws;
mod misplaced_jump;
mod operands;
mod path;
mod places;
mod plain;
mod reading;
mod reads;
mod uses;
mod walked;
mod ways;

pub use bodies::{BodyOwner, InvalidBodies, InvalidBody, check_bodies, check_body};
pub use evaluation::{Evaluation, result_of};
pub use exits::Exits;
pub use invalid_use::{Cause, DisplayMisuse, InvalidUse, Misuse};
pub use jumps::{check_jumps, jumps_are_structured};
pub use misplaced_jump::{DisplayMisplacedJump, Jump, MisplacedJump};
pub use path::StatementPath;
pub use uses::{check_emitted, check_uses};
pub use ways::Ways;
