//! The codes of faults.
ghost use Rattle.std.specs.Prelude.{◌≡◌};
ghost use Rattle.naga_capi.specs.Fault.{code_of};

/// The reason why a call has no answer, as its code says it.
#[derive(Clone, Copy, Debug, PartialEq, Eq, Drop)]
pub enum Fault {
    /// A name in the list of passes is not that of a pass.
    UnknownPass,
    /// The text or the list of passes is not UTF-8.
    NotUtf8,
    /// The text is not JSON, or its lists and objects are nested more than 127 deep.
    NotJson,
    /// The JSON is not what naga writes for a module, or two types are equal.
    NotAModule,
    /// A handle of the module is not valid.
    InvalidHandle,
    /// The module that the passes made has no JSON, or one that is nested too deep.
    NoJson,
    /// An allocation failed.
    OutOfMemory,
    /// The accesses of a function cannot be clamped.
    NotRestricted,
}

impl Fault {
    /// Returns the code of the fault: -1 to -7 and -9, in the order of the variants. An earlier version also had -8.
    pub fn code(self) -> isize
        ensures { result ≡ code_of self }
    {
        match self {
            Fault::UnknownPass => -1,
            Fault::NotUtf8 => -2,
            Fault::NotJson => -3,
            Fault::NotAModule => -4,
            Fault::InvalidHandle => -5,
            Fault::NoJson => -6,
            Fault::OutOfMemory => -7,
            Fault::NotRestricted => -9,
        }
    }
}
