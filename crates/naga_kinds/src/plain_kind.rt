//! The names of kinds whose variants contain no data.
ghost use Rattle.std.specs.Prelude.{◌≡◌, ℕ, List};
ghost use Rattle.naga_kinds.specs.Names.{named};

/// A kind whose variants contain no data, so that a name determines each of them.
///
/// A name is that of the variant in naga's source, which is also what naga writes in JSON.
///
/// Differs from naga, which derives the names by serde and has no such trait.
pub trait PlainKind: Copy {
    // The name of each variant.
    ghost name_of: { Self → List ℕ };

    // The variants, in the order of their declaration.
    ghost in_order: { List Self };

    /// Returns all variants, in the order of their declaration.
    fn variants<'a>() -> &'a [Self]
        ensures { result.now ≡ in_order };

    /// Returns the name of the variant.
    fn name(self) -> &'static str
        ensures { result.now ≡ name_of self };

    /// Returns the variant with this name, or `None` if there is none.
    final fn from_name(name: &str) -> Option<Self>
        ensures { result ≡ named name_of in_order name.now }
    {
        for kind in Self::variants() {
            if kind.name() == name {
                return Some(*kind);
            }
        }
        None
    }
}
