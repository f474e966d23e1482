//! The choices that options make, one option after another.
ghost use Rattle.std.specs.Prelude.{◌≡◌, ◌≢◌, ◌∷◌, ◌≤◌, true, false, List, ℕ, Option, None, Some, IfErr, IfOk, OnOk, length};
ghost use Rattle.naga_opt.specs.Arguments.{ChooseSame, IsFirst, IsHelp, IsJoined, IsOutput, IsVersion, Made, MayFailToChoose, MayFailToSet, MeansTheSame, NamesInput, Sets, end_of_options, flag_of, flag_text, has_value, is_name, texts_of};
ghost use Rattle.naga_opt.specs.Task.{Chosen, chosen_of};
ghost use Rattle.naga_opt.specs.declared.flag.Flag.{Flag as TheFlag};

use crate::flag::Flag;
use crate::report::{ArgumentFault, ProgramFault, unexpected};
use crate::task::{Passes, Task};
use naga_look::{Extent, Format, View};
use naga_passes::{NamesError, passes_from_names};
use std::alloc::Global;

/// Makes the choice of an argument, which the rest of the arguments follows. Returns what is left of them.
///
/// Returns `Err` if the argument cannot be here, or if an allocation fails. Precondition: the argument selects neither
/// the help nor the version, and is not `--`.
pub fn choose<'a>(
    alloc: Global,
    task: &mut Task,
    argument: &str,
    rest: &'a [String],
) -> Result<&'a [String], ProgramFault>
    requires help { ¬ IsHelp argument.now }
    requires version { ¬ IsVersion argument.now }
    requires not_end { argument.now ≢ end_of_options }
    ensures chosen { IfOk result (λ left. MeansTheSame (chosen_of task.old) (argument.now ∷ texts_of rest.now)
        (chosen_of task.new) (texts_of left.now)) }
    ensures shorter { IfOk result (λ left. length left.now ≤ length rest.now) }
    ensures fault { IfErr result (MayFailToChoose (chosen_of task.old) (argument.now ∷ texts_of rest.now)) }
{
    match Flag::from_text(argument) {
        Some(flag) => choose_flag(alloc, task, flag, rest),
        None => choose_other(alloc, task, argument, rest),
    }
}

/// Makes the choice of an option, whose value, if it has one, is the next argument.
fn choose_flag<'a>(
    alloc: Global,
    task: &mut Task,
    flag: Flag,
    rest: &'a [String],
) -> Result<&'a [String], ProgramFault>
    ensures chosen { IfOk result (λ left. MeansTheSame (chosen_of task.old) (flag_text flag ∷ texts_of rest.now)
        (chosen_of task.new) (texts_of left.now)) }
    ensures shorter { IfOk result (λ left. length left.now ≤ length rest.now) }
    ensures fault { IfErr result (MayFailToChoose (chosen_of task.old) (flag_text flag ∷ texts_of rest.now)) }
{
    if flag.has_value() {
        return choose_valued(alloc, task, flag, rest);
    }
    match set_alone(task, flag) {
        Ok(()) => Ok(rest),
        Err(fault) => Err(fault),
    }
}

/// Makes the choice of an option whose value is the next argument.
fn choose_valued<'a>(
    alloc: Global,
    task: &mut Task,
    flag: Flag,
    rest: &'a [String],
) -> Result<&'a [String], ProgramFault>
    requires { has_value flag ≡ true }
    ensures chosen { IfOk result (λ left. MeansTheSame (chosen_of task.old) (flag_text flag ∷ texts_of rest.now)
        (chosen_of task.new) (texts_of left.now)) }
    ensures shorter { IfOk result (λ left. length left.now ≤ length rest.now) }
    ensures fault { IfErr result (MayFailToChoose (chosen_of task.old) (flag_text flag ∷ texts_of rest.now)) }
{
    let [value, left @ ..] = rest else {
        return Err(ProgramFault::Arguments(ArgumentFault::NoValue(flag)));
    };
    match set_value(alloc, task, flag, value.as_str()) {
        Ok(()) => Ok(left),
        Err(fault) => Err(fault),
    }
}

/// Makes the choice of an option with its value in the same argument, or of the name of a file.
fn choose_other<'a>(
    alloc: Global,
    task: &mut Task,
    argument: &str,
    rest: &'a [String],
) -> Result<&'a [String], ProgramFault>
    requires help { ¬ IsHelp argument.now }
    requires version { ¬ IsVersion argument.now }
    requires not_end { argument.now ≢ end_of_options }
    requires no_flag { (flag : TheFlag) → ¬ (flag_text flag ≡ argument.now) }
    ensures chosen { IfOk result (λ left. MeansTheSame (chosen_of task.old) (argument.now ∷ texts_of rest.now)
        (chosen_of task.new) (texts_of left.now)) }
    ensures shorter { IfOk result (λ left. length left.now ≤ length rest.now) }
    ensures fault { IfErr result (MayFailToChoose (chosen_of task.old) (argument.now ∷ texts_of rest.now)) }
{
    match Flag::joined(argument) {
        Some((flag, value)) => match set_value(alloc, task, flag, value) {
            Ok(()) => Ok(rest),
            Err(fault) => Err(fault),
        },
        None => match choose_input(alloc, task, argument) {
            Ok(()) => Ok(rest),
            Err(fault) => Err(fault),
        },
    }
}

/// Makes the choice of an argument that is no option.
fn choose_input(alloc: Global, task: &mut Task, argument: &str) -> Result<(), ProgramFault>
    requires help { ¬ IsHelp argument.now }
    requires version { ¬ IsVersion argument.now }
    requires not_end { argument.now ≢ end_of_options }
    requires no_flag { (flag : TheFlag) → ¬ (flag_text flag ≡ argument.now) }
    requires not_joined { (flag : TheFlag) (value : List ℕ) → ¬ IsJoined flag argument.now value }
    ensures chosen { OnOk result ((rest : List (List ℕ)) → MeansTheSame (chosen_of task.old) (argument.now ∷ rest)
        (chosen_of task.new) rest) }
    ensures fault { IfErr result (λ fault. (rest : List (List ℕ)) → MayFailToChoose (chosen_of task.old)
        (argument.now ∷ rest) fault) }
{
    if task.input.is_some() || !is_name(argument) {
        return Err(unexpected(alloc, argument));
    }
    match String::from_str(alloc, argument) {
        Ok(name) => {
            task.input = Some(name);
            Ok(())
        }
        Err(_) => Err(ProgramFault::Memory),
    }
}

/// Makes the choice of the arguments after `--`.
pub fn choose_names(alloc: Global, task: &mut Task, names: &[String]) -> Result<(), ProgramFault>
    ensures chosen { OnOk result (NamesInput (texts_of names.now) (chosen_of task.old) (chosen_of task.new)) }
    ensures fault { IfErr result (MayFailToChoose (chosen_of task.old) (end_of_options ∷ texts_of names.now)) }
{
    let [name, others @ ..] = names else {
        return Ok(());
    };
    if task.input.is_some() {
        return Err(unexpected(alloc, name.as_str()));
    }
    if let [another, ..] = others {
        return Err(unexpected(alloc, another.as_str()));
    }
    match name.clone() {
        Ok(name) => {
            task.input = Some(name);
            Ok(())
        }
        Err(_) => Err(ProgramFault::Memory),
    }
}

/// Sets what an option without a value chooses.
fn set_alone(task: &mut Task, flag: Flag) -> Result<(), ProgramFault>
    requires { has_value flag ≡ false }
    ensures set { OnOk result (Sets flag None (chosen_of task.old) (chosen_of task.new)) }
    ensures fault { IfErr result (MayFailToSet flag None (chosen_of task.old)) }
{
    match flag {
        Flag::Old => set_old(task),
        Flag::Check => set_view(task, View::Report(Extent::Short, Format::Lines)),
        Flag::All => set_all(task),
        Flag::Json => set_json(task),
        Flag::Text => set_view(task, View::Text),
        Flag::Dot => set_view(task, View::Dot),
        Flag::Stats => set_stats(task),
        _ => Ok(()),
    }
}

/// Sets what an option with this value chooses.
fn set_value(alloc: Global, task: &mut Task, flag: Flag, value: &str) -> Result<(), ProgramFault>
    requires { has_value flag ≡ true }
    ensures set { OnOk result (Sets flag (Some value.now) (chosen_of task.old) (chosen_of task.new)) }
    ensures fault { IfErr result (MayFailToSet flag (Some value.now) (chosen_of task.old)) }
{
    match flag {
        Flag::Passes => set_passes(alloc, task, value),
        Flag::Output => set_output(alloc, task, flag, value),
        Flag::ShortOutput => set_output(alloc, task, flag, value),
        _ => Ok(()),
    }
}

/// Sets the passes to those of a list.
fn set_passes(alloc: Global, task: &mut Task, list: &str) -> Result<(), ProgramFault>
    ensures set { OnOk result (Sets TheFlag.Passes (Some list.now) (chosen_of task.old) (chosen_of task.new)) }
    ensures fault { IfErr result (MayFailToSet TheFlag.Passes (Some list.now) (chosen_of task.old)) }
{
    if let Some(first) = task.passes_flag() {
        return Err(clash(first, Flag::Passes));
    }
    match passes_from_names(alloc, list) {
        Ok(passes) => {
            task.passes = Some(Passes::Listed(passes));
            Ok(())
        }
        Err(NamesError::Memory) => Err(ProgramFault::Memory),
        Err(NamesError::Unknown(name)) => {
            let wrong = ArgumentFault::UnknownPass(name);
            Err(ProgramFault::Arguments(wrong))
        }
    }
}

/// Sets the passes to closing by naga's rule.
fn set_old(task: &mut Task) -> Result<(), ProgramFault>
    ensures set { OnOk result (Sets TheFlag.Old None (chosen_of task.old) (chosen_of task.new)) }
    ensures fault { IfErr result (MayFailToSet TheFlag.Old None (chosen_of task.old)) }
{
    if let Some(first) = task.passes_flag() {
        return Err(clash(first, Flag::Old));
    }
    task.passes = Some(Passes::Old);
    Ok(())
}

/// Sets the name of the file to write.
fn set_output(alloc: Global, task: &mut Task, flag: Flag, name: &str) -> Result<(), ProgramFault>
    requires { IsOutput flag }
    ensures set { OnOk result (Sets flag (Some name.now) (chosen_of task.old) (chosen_of task.new)) }
    ensures fault { IfErr result (MayFailToSet flag (Some name.now) (chosen_of task.old)) }
{
    if task.output.is_some() {
        return Err(ProgramFault::Arguments(ArgumentFault::Twice(flag)));
    }
    match String::from_str(alloc, name) {
        Ok(name) => {
            task.output = Some(name);
            Ok(())
        }
        Err(_) => Err(ProgramFault::Memory),
    }
}

/// Sets what is shown of the module. Precondition: it is shown by an option alone, without `--all` and `--json`.
fn set_view(task: &mut Task, view: View) -> Result<(), ProgramFault>
    requires { IsFirst view }
    ensures set { OnOk result (Sets (flag_of view) None (chosen_of task.old) (chosen_of task.new)) }
    ensures fault { IfErr result (MayFailToSet (flag_of view) None (chosen_of task.old)) }
{
    if let Some(shown) = task.view {
        return Err(clash(Flag::of_view(shown), Flag::of_view(view)));
    }
    task.view = Some(view);
    Ok(())
}

/// Sets that the report is whole.
fn set_all(task: &mut Task) -> Result<(), ProgramFault>
    ensures set { OnOk result (Sets TheFlag.All None (chosen_of task.old) (chosen_of task.new)) }
    ensures fault { IfErr result (MayFailToSet TheFlag.All None (chosen_of task.old)) }
{
    match task.view {
        Some(View::Report(Extent::Short, format)) => {
            task.view = Some(View::Report(Extent::Full, format));
            Ok(())
        }
        Some(View::Report(Extent::Full, _)) => {
            Err(ProgramFault::Arguments(ArgumentFault::Twice(Flag::All)))
        }
        _ => Err(ProgramFault::Arguments(ArgumentFault::NoCheck(Flag::All))),
    }
}

/// Sets that the report is JSON.
fn set_json(task: &mut Task) -> Result<(), ProgramFault>
    ensures set { OnOk result (Sets TheFlag.Json None (chosen_of task.old) (chosen_of task.new)) }
    ensures fault { IfErr result (MayFailToSet TheFlag.Json None (chosen_of task.old)) }
{
    match task.view {
        Some(View::Report(extent, Format::Lines)) => {
            task.view = Some(View::Report(extent, Format::Json));
            Ok(())
        }
        Some(View::Report(_, Format::Json)) => {
            Err(ProgramFault::Arguments(ArgumentFault::Twice(Flag::Json)))
        }
        _ => Err(ProgramFault::Arguments(ArgumentFault::NoCheck(Flag::Json))),
    }
}

/// Sets that what each pass did is written to standard error.
fn set_stats(task: &mut Task) -> Result<(), ProgramFault>
    ensures set { OnOk result (Sets TheFlag.Stats None (chosen_of task.old) (chosen_of task.new)) }
    ensures fault { IfErr result (MayFailToSet TheFlag.Stats None (chosen_of task.old)) }
{
    if task.stats {
        return Err(ProgramFault::Arguments(ArgumentFault::Twice(Flag::Stats)));
    }
    task.stats = true;
    Ok(())
}

/// Returns the error of an option after one that chose the same thing.
fn clash(first: Flag, second: Flag) -> ProgramFault
    requires { ChooseSame first second }
    ensures { (value : Option (List ℕ)) (before : Chosen) → Made first before
        → MayFailToSet second value before result }
{
    if first == second {
        return ProgramFault::Arguments(ArgumentFault::Twice(second));
    }
    ProgramFault::Arguments(ArgumentFault::Exclude(first, second))
}

/// Returns whether an argument is the name of a file: it does not begin with a hyphen, or is a single hyphen.
fn is_name(argument: &str) -> bool
    ensures { result ≡ is_name argument.now }
{
    match argument.as_bytes() {
        [first, _, ..] => *first != b'-',
        _ => true,
    }
}
