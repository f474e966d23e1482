//! The check of jumps.
ghost use Rattle.std.specs.Prelude.{◌≡◌, ◌↔◌, ◌<◌, ◌^◌, IfErr, IsOk, true, [], ◌∷◌, ◌++◌};
ghost use Rattle.naga_ir.specs.View.{cases_of, node_of, tree_of};
ghost use Rattle.naga_flow.specs.Jumps.{IsMisplaced, Placed, Walks, placed, placed_in_cases, placed_inside, numbered, told, verdict};
ghost use Rattle.naga_flow.specs.Structured.{jumps_are_structured};

use crate::exits::Exits;
use crate::misplaced_jump::{Jump, MisplacedJump};
use naga_arena::Span;
use naga_ir::{Block, Function, Statement, SwitchCase};

/// Checks that each jump in the body of a function is allowed where it is: a `Break` in a loop or a switch, a
/// `Continue` in a loop, and no jump in a continuing block or in a block inside it, except for a `Break` or a
/// `Continue` of a loop or a switch that is inside it too.
///
/// Returns the first jump that is not, in the order in which the statements are read. Allocates nothing.
pub fn check_jumps(function: &Function) -> Result<(), MisplacedJump>
    ensures structured { IsOk result ↔ (jumps_are_structured (tree_of function.now.body) ≡ true) }
    ensures first { IfErr result (IsMisplaced (tree_of function.now.body)) }
{
    let mut place = Place::start();
    match walk_block(&mut place, &function.body, Exits::of_function()) {
        None => Ok(()),
        Some(jump) => Err(MisplacedJump {
            statement: place.met,
            span: place.span,
            jump,
        }),
    }
}

/// Returns whether each jump in the body of a function is allowed where it is, as [`check_jumps`] says.
pub fn jumps_are_structured(body: &Block) -> bool
    ensures { result ≡ jumps_are_structured (tree_of body.now) }
{
    walk_block(&mut Place::start(), body, Exits::of_function()).is_none()
}

/// Where a walk over statements is.
#[derive(Drop)]
pub(crate) struct Place {
    /// The number of statements that have been met and are allowed where they are, up to `u64::MAX`.
    met: u64,
    /// The span of the statement that is not allowed where it is, once there is one.
    span: Span,
}

impl Place {
    /// Begins before the first statement.
    fn start() -> Self
        ensures { result.met ≡ 0 }
    {
        Place {
            met: 0,
            span: Span::UNDEFINED,
        }
    }

    /// Meets a statement that is allowed where it is.
    fn pass(&mut self)
        ensures { self.new.met ≡ numbered self.old.met 1 }
    {
        self.met = self.met.saturating_add(1);
    }

    /// Meets a jump, and returns it if it is not allowed where it is.
    #[inline(always)]
    fn judge(&mut self, span: &Span, jump: Jump, is_allowed: bool) -> Option<Jump>
        ensures judged { told result self.new ≡ verdict self.old.met span.now jump is_allowed }
        ensures fits { self.old.met < 2 ^ 64 }
    {
        // The proof has the range of the number only if it is read.
        let _met = self.met;
        if is_allowed {
            self.pass();
            return None;
        }
        self.span = *span;
        Some(jump)
    }
}

/// Walks over the statements of a block with these exits, as far as each jump is allowed where it is.
///
/// Returns the first jump that is not, at which the walk stops.
#[cycle(jumps)]
fn walk_block(place: &mut Place, block: &Block, around: Exits) -> Option<Jump>
    ensures { Walks (placed around (tree_of block.now)) place.old.met (told result place.new) }
{
    // The proof has the range of the number only if it is read.
    let _met = place.met;
    'statements: for (statement, span) in block.span_iter() {
        if let Some(jump) = walk_statement(place, statement, span, around) {
            return Some(jump);
        }
    }
    None
}

/// Walks over a statement and the statements inside it.
#[cycle(jumps)]
#[inline(always)]
fn walk_statement(
    place: &mut Place,
    statement: &Statement,
    span: &Span,
    around: Exits,
) -> Option<Jump>
    ensures { let here : Placed = record { node = node_of statement.now; span = span.now; around = around } in
        Walks (here ∷ placed_inside around (node_of statement.now)) place.old.met (told result place.new) }
{
    match statement {
        Statement::Block(inner) => {
            place.pass();
            walk_block(place, inner, around)
        }
        Statement::If { accept, reject, .. } => {
            place.pass();
            match walk_block(place, accept, around) {
                None => walk_block(place, reject, around),
                Some(jump) => Some(jump),
            }
        }
        Statement::Switch { cases, .. } => {
            place.pass();
            walk_cases(place, cases, around)
        }
        Statement::Loop {
            body,
            continuing,
            ..
        } => {
            place.pass();
            match walk_block(place, body, around.in_body_of_loop()) {
                None => walk_block(place, continuing, Exits::of_continuing()),
                Some(jump) => Some(jump),
            }
        }
        Statement::Break => place.judge(span, Jump::Break, around.by_break),
        Statement::Continue => place.judge(span, Jump::Continue, around.by_continue),
        Statement::Return { .. } => place.judge(span, Jump::Return, around.by_return),
        Statement::Kill => place.judge(span, Jump::Kill, around.by_kill),
        _ => {
            place.pass();
            None
        }
    }
}

/// Walks over the bodies of the cases of a switch with these exits.
#[cycle(jumps)]
#[inline(never)]
fn walk_cases(place: &mut Place, cases: &[SwitchCase], around: Exits) -> Option<Jump>
    ensures { Walks (placed_in_cases around (cases_of cases.now)) place.old.met (told result place.new) }
{
    // The proof has the range of the number only if it is read.
    let _met = place.met;
    'cases: for case in cases {
        if let Some(jump) = walk_block(place, &case.body, around.in_case()) {
            return Some(jump);
        }
    }
    None
}
