//! What passes do to a module, in numbers.
ghost use Rattle.std.specs.Prelude.{◌≡◌, ◌⊎◌, ◌++◌, ◌∷◌, [], IfErr, IfOk, OnOk, string_bytes};
ghost use Rattle.naga_valid.specs.Valid.{HandlesAreValid};
ghost use Rattle.naga_passes.specs.After.{After, Leaves, Transforms};
ghost use Rattle.naga_passes.specs.declared.pass_error.PassFault.TheVariants.{Memory};
ghost use Rattle.naga_look.specs.Stats.{Accounts, StopsCounting, contents_of, counts_between, counted_in, noted_in, notes_of};

mod contents;
mod notes;
mod text;

pub use contents::Contents;
use contents::contents_of;
use naga_ir::Module;
use naga_passes::{Pass, PassError, PassFault, run_pass};
use naga_text::Text;
use notes::push_notes;
use std::alloc::Global;
pub use text::counts_text;

/// What a pass did to a module.
#[derive(Clone, Copy, Debug, PartialEq, Eq)]
pub struct PassCounts {
    /// The pass.
    pub pass: Pass,
    /// How much the pass removed.
    pub removed: Contents,
    /// The number of returns that the pass inserted, which is 0 if the pass does not close the module.
    pub returns_inserted: u64,
    /// The number of expressions that the pass inserted, which is 0 if the pass does not restrict the module.
    pub expressions_inserted: u64,
}

/// How much an account says of what passes did.
#[derive(Clone, Copy, Debug, PartialEq, Eq)]
pub enum Detail {
    /// Nothing.
    Nothing,
    /// The notes.
    Notes,
    /// The notes, and what each pass did in numbers.
    Counts,
}

/// What passes did to a module.
#[derive(Debug, Drop)]
pub struct Account {
    /// What each pass did, in the order in which they ran. It is empty unless the detail is [`Detail::Counts`].
    pub counts: Vec<PassCounts>,
    /// A line for each function and entry point that has a result and into whose body a pass inserted a return. It is empty
    /// if the detail is [`Detail::Nothing`]. Such a return has no value, so the module is not valid. A line is
    /// `note: function 0 "f": the function has a result, but an inserted return has no value`. Names are escaped.
    ///
    /// The positions are those before the pass, since a later one can remove functions.
    pub notes: String,
}

/// Runs passes on a module, in this order, as [`run_passes`](naga_passes::run_passes) does, and says what they do, as much as
/// `detail` says.
///
/// All handles of the module are still valid, whether or not a pass fails.
///
/// If a pass stops, those before it were run. If it was begun, the module is left as `run_passes` leaves it. Otherwise an
/// allocation failed before it, and that pass has not changed the module.
///
/// The caller must ensure that all handles of the module are valid, which `check_handles` tests.
///
/// Differs from naga: naga has no such function.
pub fn run_counted(
    alloc: Global,
    module: &mut Module,
    passes: &[Pass],
    detail: Detail,
) -> Result<Account, PassError>
    requires valid { HandlesAreValid «module».old }
    ensures counted { IfOk result (λ account.
        Accounts detail passes.now «module».old «module».new account.counts.items (string_bytes account.notes)) }
    ensures ran { OnOk result (After passes.now «module».old «module».new) }
    ensures stopped { IfErr result (λ error. StopsCounting error.position error.fault passes.now «module».old «module».new) }
    ensures valid { HandlesAreValid «module».new }
{
    let mut counts = Vec::new(alloc);
    let mut notes = Text::new(alloc);
    'passes: for position in 0..passes.len() {
        if let Err(fault) = run_one(
            alloc,
            module,
            passes[position],
            detail,
            &mut counts,
            &mut notes,
        ) {
            return Err(PassError { position, fault });
        }
    }
    Ok(Account {
        counts,
        notes: notes.finish(),
    })
}

/// Runs a pass on a module, and appends what it does, as much as `detail` says.
fn run_one(
    alloc: Global,
    module: &mut Module,
    pass: Pass,
    detail: Detail,
    counts: &mut Vec<PassCounts>,
    notes: &mut Text,
) -> Result<(), PassFault>
    requires valid { HandlesAreValid «module».old }
    ensures ran { OnOk result (Transforms pass «module».old «module».new) }
    ensures counts { OnOk result (counts.new.items
        ≡ counts.old.items ++ counted_in detail pass «module».old «module».new) }
    ensures notes { OnOk result (notes.new ≡ notes.old ++ noted_in detail pass «module».old) }
    ensures left { IfErr result (λ fault. Leaves pass fault «module».old «module».new
        ⊎ ((fault ≡ Memory) × («module».new ≡ «module».old))) }
    ensures valid { HandlesAreValid «module».new }
{
    match detail {
        Detail::Nothing => run_uncounted(alloc, module, pass),
        Detail::Notes => {
            push_notes(notes, module, pass)?;
            run_uncounted(alloc, module, pass)
        }
        Detail::Counts => count_pass(alloc, module, pass, counts, notes),
    }
}

/// Runs a pass on a module.
fn run_uncounted(alloc: Global, module: &mut Module, pass: Pass) -> Result<(), PassFault>
    requires valid { HandlesAreValid «module».old }
    ensures ran { OnOk result (Transforms pass «module».old «module».new) }
    ensures left { IfErr result (λ fault. Leaves pass fault «module».old «module».new
        ⊎ ((fault ≡ Memory) × («module».new ≡ «module».old))) }
    ensures valid { HandlesAreValid «module».new }
{
    run_pass(alloc, module, pass)
}

/// Runs a pass on a module, and appends the notes and what it does in numbers.
fn count_pass(
    alloc: Global,
    module: &mut Module,
    pass: Pass,
    counts: &mut Vec<PassCounts>,
    notes: &mut Text,
) -> Result<(), PassFault>
    requires valid { HandlesAreValid «module».old }
    ensures ran { OnOk result (Transforms pass «module».old «module».new) }
    ensures counts { OnOk result (counts.new.items
        ≡ counts.old.items ++ counts_between pass (contents_of «module».old) (contents_of «module».new) ∷ []) }
    ensures notes { OnOk result (notes.new ≡ notes.old ++ notes_of pass «module».old) }
    ensures left { IfErr result (λ fault. Leaves pass fault «module».old «module».new
        ⊎ ((fault ≡ Memory) × («module».new ≡ «module».old))) }
    ensures valid { HandlesAreValid «module».new }
{
    counts.reserve(1)?;
    push_notes(notes, module, pass)?;
    let before = contents_of(module);
    if let Err(fault) = run_pass(alloc, module, pass) {
        return Err(fault);
    }
    let after = contents_of(module);
    counts.push_reserved(counts_between(pass, &before, &after));
    Ok(())
}

/// Returns what a pass did, by the contents of the module before and after it.
fn counts_between(pass: Pass, before: &Contents, after: &Contents) -> PassCounts
    ensures { result ≡ counts_between pass before.now after.now }
{
    PassCounts {
        pass,
        removed: before.less(after),
        returns_inserted: after.statements.saturating_sub(before.statements),
        expressions_inserted: after.expressions.saturating_sub(before.expressions),
    }
}
