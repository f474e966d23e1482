//! The passes that a module can go through, and their names.
ghost use Rattle.std.specs.Prelude.{◌≡◌, ◌↔◌, Some};
ghost use Rattle.naga_passes.specs.Pass.{name_of};
ghost use Rattle.naga_passes.specs.declared.pass.Pass.{Pass as ThePass};

use naga_compact::KeepUnused;
use naga_proc::Rule;

/// A pass over a module.
///
/// Culling and compacting keep what functions compute. Closing keeps it, too, except that a function returns where it
/// fell off its end: by the new rule always, and by the old one unless it slipped out of a switch there. Restricting
/// keeps it as long as no access is out of bounds.
#[derive(Clone, Copy, Debug, PartialEq, Eq)]
pub enum Pass {
    /// Removes the statements that follow one that diverges by its form. What follows a `loop {}` stays.
    Cull,
    /// Inserts the returns that are missing by this rule, as [`close_module`](naga_proc::close_module) does.
    Close(Rule),
    /// Removes what is not used by an entry point, by a special type, or by a named constant of a concrete type. With
    /// `KeepUnused::Yes`, all functions, all global variables, and named types and overrides stay, too.
    Compact(KeepUnused),
    /// Clamps each access that may be out of bounds, as [`restrict`](naga_bounds::restrict) does.
    Restrict,
}

impl Pass {
    /// All passes.
    pub const ALL: [Pass; 6] = [
        Pass::Cull,
        Pass::Close(Rule::New),
        Pass::Close(Rule::Old),
        Pass::Compact(KeepUnused::No),
        Pass::Compact(KeepUnused::Yes),
        Pass::Restrict,
    ];

    /// Returns the name of the pass: `cull`, `close`, `close-naga`, `compact`, `compact-keep-unused` or `restrict`.
    ///
    /// `close` is by the new rule, and `close-naga` by naga's.
    pub fn name(self) -> &'static str
        ensures { result.now ≡ name_of self }
    {
        match self {
            Pass::Cull => "cull",
            Pass::Close(Rule::New) => "close",
            Pass::Close(Rule::Old) => "close-naga",
            Pass::Compact(KeepUnused::No) => "compact",
            Pass::Compact(KeepUnused::Yes) => "compact-keep-unused",
            Pass::Restrict => "restrict",
        }
    }

    /// Returns the pass with this name, or `None` if there is no such pass.
    pub fn from_name(name: &str) -> Option<Pass>
        ensures { (pass : ThePass) → (result ≡ Some pass) ↔ (name_of pass ≡ name.now) }
    {
        match name {
            "cull" => Some(Pass::Cull),
            "close" => Some(Pass::Close(Rule::New)),
            "close-naga" => Some(Pass::Close(Rule::Old)),
            "compact" => Some(Pass::Compact(KeepUnused::No)),
            "compact-keep-unused" => Some(Pass::Compact(KeepUnused::Yes)),
            "restrict" => Some(Pass::Restrict),
            _ => None,
        }
    }
}
