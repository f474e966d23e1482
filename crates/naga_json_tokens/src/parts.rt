//! Objects that are taken field by field, in the order of the declaration.
ghost use Rattle.std.specs.Prelude.{IfSome, map, ⊤};
ghost use Rattle.json.specs.Json.{no_members};
ghost use Rattle.naga_json_tokens.specs.TakesParts.{MeanWith, TakesParts, members_with};

use crate::reader::Reader;
use crate::tokens::take_end;
use crate::values::{Take, take_field};
use std::alloc::Global;

/// Takes an object whose fields are in the order of their declaration, and makes a value of them.
#[macro_export]
macro_rules! take_struct {
    ($alloc:expr, $reader:expr => $($made:ident)::+ { $($field:ident),+ $(,)? }) => {{
        $crate::tokens::take_begin($reader)?;
        let parts = $crate::parts::Parts::take_parts($alloc, $reader, &[$(stringify!($field)),+])?;
        $(let ($field, parts) = parts;)+
        let () = parts;
        Some($($made)::+ { $($field),+ })
    }};
}

/// The parts of a value, as a nested tuple: `()`, or what the first field holds, and the parts after it.
pub trait Parts: Drop {
    ghost use Rattle.std.specs.Prelude.{ℕ, List};
    ghost use Rattle.json.specs.Json.{Members};

    // The JSONs that the fields hold.
    ghost Jsons: { Type 0 };

    // The members with these names that hold these JSONs.
    ghost members: { List (List ℕ) → Jsons → Members };

    // Whether the JSONs mean the parts.
    ghost Mean: { Jsons → Self → Type 0 };

    /// Takes the fields of an object that have these names, and its end.
    fn take_parts(alloc: Global, reader: &mut Reader<'_>, names: &[&str]) -> Option<Self>
        ensures { IfSome result (λ parts. TakesParts (members (map (λ name. name.now) names.now)) Mean parts
            reader.old reader.new) };
}

impl Parts for () {
    ghost Jsons = { ⊤ };

    ghost members = { λ names jsons. no_members };

    ghost Mean = { λ jsons parts. ⊤ };

    #[inline(always)]
    #[tactic(auto, using(crate::proofs::TakesPartsLemmas::takes_no_parts))]
    fn take_parts(_alloc: Global, reader: &mut Reader<'_>, _names: &[&str]) -> Option<Self> {
        take_end(reader)?;
        Some(())
    }
}

impl<A: Take, T: Parts> Parts for (A, T) {
    ghost use Rattle.json.specs.Json.{Json};

    ghost Jsons = { Json × T.Jsons };

    ghost members = { members_with T.members };

    ghost Mean = { MeanWith A.value_of A.meaning T.Mean };

    #[inline(always)]
    fn take_parts(alloc: Global, reader: &mut Reader<'_>, names: &[&str]) -> Option<Self> {
        let (name, others) = names.split_first()?;
        let first = take_field::<A>(alloc, reader, name)?;
        let rest = T::take_parts(alloc, reader, others)?;
        Some((first, rest))
    }
}
