//! The values that select the cases of a switch.
ghost use Rattle.std.specs.Prelude.{◌≡◌};
ghost use Rattle.naga_kinds.specs.Switch.{is_default_value};

/// The value of the selector for which a case is taken.
#[derive(Clone, Copy, Debug, PartialEq, Eq, Hash)]
pub enum SwitchValue {
    /// A signed integer.
    I32(i32),
    /// An unsigned integer.
    U32(u32),
    /// Any value that no other case has.
    Default,
}

impl SwitchValue {
    /// Returns whether this is `Default`, which matches any value that no other case has.
    ///
    /// Differs from naga: naga has no such method.
    pub fn is_default(self) -> bool
        ensures { result ≡ is_default_value self }
    {
        matches!(self, SwitchValue::Default)
    }
}
