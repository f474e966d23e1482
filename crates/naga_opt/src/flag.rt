//! The options that the program takes.
ghost use Rattle.std.specs.Prelude.{◌≡◌, ◌↔◌, List, ℕ, Some, MatchOption};
ghost use Rattle.naga_opt.specs.Arguments.{IsJoined, flag_of, flag_text, has_value};
ghost use Rattle.naga_opt.specs.declared.flag.Flag.{Flag as TheFlag};

use naga_look::View;

/// An option of the program, except for `--help` and `--version`.
#[derive(Clone, Copy, Debug, PartialEq, Eq)]
pub enum Flag {
    /// `--passes LIST`: the passes to run.
    Passes,
    /// `--old`: closing by naga's rule.
    Old,
    /// `--output FILE`: the file to write.
    Output,
    /// `-o FILE`, the same as `--output FILE`.
    ShortOutput,
    /// `--check`: the report.
    Check,
    /// `--all`, after `--check`: the whole report.
    All,
    /// `--json`, after `--check`: the report as JSON.
    Json,
    /// `--text`: the readable text.
    Text,
    /// `--dot`: the graph.
    Dot,
    /// `--stats`: what each pass did, on standard error.
    Stats,
}

impl Flag {
    /// Returns the option that is written like this, or `None` if there is no such option.
    pub fn from_text(text: &str) -> Option<Flag>
        ensures { (flag : TheFlag) → (result ≡ Some flag) ↔ (flag_text flag ≡ text.now) }
    {
        match text {
            "--passes" => Some(Flag::Passes),
            "--old" => Some(Flag::Old),
            "--output" => Some(Flag::Output),
            "-o" => Some(Flag::ShortOutput),
            "--check" => Some(Flag::Check),
            "--all" => Some(Flag::All),
            "--json" => Some(Flag::Json),
            "--text" => Some(Flag::Text),
            "--dot" => Some(Flag::Dot),
            "--stats" => Some(Flag::Stats),
            _ => None,
        }
    }

    /// Returns the option and the value of an argument in which `=` joins them, as in `--output=FILE`, or `None` if the
    /// argument is something else.
    pub fn joined(argument: &str) -> Option<(Flag, &str)>
        ensures { MatchOption result ((flag : TheFlag) (value : List ℕ) → ¬ IsJoined flag argument.now value)
            (λ found. IsJoined found.0 argument.now found.1.now) }
    {
        if let Some(value) = argument.strip_prefix("--passes=") {
            return Some((Flag::Passes, value));
        }
        if let Some(value) = argument.strip_prefix("--output=") {
            return Some((Flag::Output, value));
        }
        None
    }

    /// Returns the option that shows this of a module.
    pub fn of_view(view: View) -> Flag
        ensures { result ≡ flag_of view }
    {
        match view {
            View::Report(_, _) => Flag::Check,
            View::Text => Flag::Text,
            View::Dot => Flag::Dot,
        }
    }

    /// Returns how the option is written.
    pub fn text(self) -> &'static str
        ensures { result.now ≡ flag_text self }
    {
        match self {
            Flag::Passes => "--passes",
            Flag::Old => "--old",
            Flag::Output => "--output",
            Flag::ShortOutput => "-o",
            Flag::Check => "--check",
            Flag::All => "--all",
            Flag::Json => "--json",
            Flag::Text => "--text",
            Flag::Dot => "--dot",
            Flag::Stats => "--stats",
        }
    }

    /// Returns whether the option has a value.
    pub fn has_value(self) -> bool
        ensures { result ≡ has_value self }
    {
        match self {
            Flag::Passes => true,
            Flag::Old => false,
            Flag::Output => true,
            Flag::ShortOutput => true,
            Flag::Check => false,
            Flag::All => false,
            Flag::Json => false,
            Flag::Text => false,
            Flag::Dot => false,
            Flag::Stats => false,
        }
    }
}
