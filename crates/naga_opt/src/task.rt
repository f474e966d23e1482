//! What the program is to do.
ghost use Rattle.std.specs.Prelude.{◌≡◌, IfSome, None, Some, codes};
ghost use Rattle.naga_opt.specs.Arguments.{IsOfPasses, Made};
ghost use Rattle.naga_opt.specs.Messages.{part_text};
ghost use Rattle.naga_opt.specs.Said.{detail_of};
ghost use Rattle.naga_opt.specs.Task.{bytes_of, chosen_of, nothing_chosen, passes_of, stream_name};

use crate::flag::Flag;
use crate::line::Part;
use naga_look::{Detail, View};
use naga_passes::Pass;
use naga_proc::Rule;

/// What the program is to do.
#[derive(Debug, Drop)]
pub enum Command {
    /// Print how the program is used.
    Help,
    /// Print the version of the program.
    Version,
    /// Read a module, run passes on it, and write it or show it.
    Run(Task),
}

/// The choice of passes.
#[derive(Debug, Drop)]
pub enum Passes {
    /// Closing by naga's rule, as `--old` chooses it.
    Old,
    /// The passes of a list, as `--passes` chooses them.
    Listed(Vec<Pass>),
}

/// What the options select.
#[derive(Debug, Drop)]
pub struct Task {
    /// The passes to run, if they are chosen.
    pub passes: Option<Passes>,
    /// What to show of the module, or `None` to write its JSON.
    pub view: Option<View>,
    /// `true` to write to standard error what each pass did.
    pub stats: bool,
    /// The name of the file to read, if there is one. `-` is standard input.
    pub input: Option<String>,
    /// The name of the file to write, if there is one. `-` is standard output.
    pub output: Option<String>,
}

/// The passes that run if none are chosen and JSON is written.
const DEFAULT_PASSES: &[Pass] = &[Pass::Close(Rule::New)];

/// The passes that `--old` chooses.
const OLD_PASSES: &[Pass] = &[Pass::Close(Rule::Old)];

impl Task {
    /// Returns the task that no arguments select.
    pub fn new() -> Task
        ensures { chosen_of result ≡ nothing_chosen }
    {
        Task {
            passes: None,
            view: None,
            stats: false,
            input: None,
            output: None,
        }
    }

    /// Returns the passes to run: those that are chosen. If none are, it is closing by the new rule where JSON is
    /// written, and no pass otherwise.
    pub fn passes(&self) -> &[Pass]
        ensures { result.now ≡ passes_of (chosen_of self.now) }
    {
        match (&self.passes, self.view) {
            (Some(Passes::Listed(passes)), _) => passes.as_slice(),
            (Some(Passes::Old), _) => OLD_PASSES,
            (None, None) => DEFAULT_PASSES,
            (None, Some(_)) => &[],
        }
    }

    /// Returns how much is to be said of what the passes did.
    pub fn detail(&self) -> Detail
        ensures { result ≡ detail_of (chosen_of self.now).stats }
    {
        if self.stats {
            Detail::Counts
        } else {
            Detail::Notes
        }
    }

    /// Returns the option that chose the passes, or `None` if none did.
    pub fn passes_flag(&self) -> Option<Flag>
        ensures none { result ≡ None → (chosen_of self.now).passes ≡ None }
        ensures made { IfSome result (λ flag. IsOfPasses flag × Made flag (chosen_of self.now)) }
    {
        match &self.passes {
            Some(Passes::Listed(_)) => Some(Flag::Passes),
            Some(Passes::Old) => Some(Flag::Old),
            None => None,
        }
    }

    /// Returns the name of the file to read, or `standard input`, as a part of a line.
    pub fn input_name(&self) -> Part<'_>
        ensures { part_text result ≡ stream_name (codes "standard input") (bytes_of self.now.input) }
    {
        match &self.input {
            Some(name) => named_or(name.as_str(), "standard input"),
            None => Part::Plain("standard input"),
        }
    }

    /// Returns the name of the file to write, or `standard output`, as a part of a line.
    pub fn output_name(&self) -> Part<'_>
        ensures { part_text result ≡ stream_name (codes "standard output") (bytes_of self.now.output) }
    {
        match &self.output {
            Some(name) => named_or(name.as_str(), "standard output"),
            None => Part::Plain("standard output"),
        }
    }
}

/// Returns the name of a file, or that of the standard stream if it is `-`.
fn named_or<'a>(name: &'a str, standard: &'static str) -> Part<'a>
    ensures { part_text result ≡ stream_name standard.now (Some name.now) }
{
    if name == "-" {
        Part::Plain(standard)
    } else {
        Part::Quoted(name)
    }
}
