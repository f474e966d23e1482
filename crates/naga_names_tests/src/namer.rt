//! Names of labels.
mod modules;
mod words;

use naga_namer::{Namer, ReservedNames};
use std::alloc::{AllocError, Global};

/// A language with few words.
const LANGUAGE: ReservedNames<'static> = ReservedNames {
    keywords: &["M_PI_2", "if"],
    builtins: &["sin"],
    case_insensitive: &["pass"],
    prefixes: &["gl_"],
};

/// Labels, one after another, and their names.
const NAMES: &'static [(&'static str, &'static str)] = &[
    ("M_PI", "M_PI"),
    ("M_PI", "M_PI_1"),
    ("M_PI", "M_PI_3"),
    ("PASS", "PASS_"),
    ("v2", "v2_"),
    ("gl", "gen_gl"),
    ("é", "u00e9_"),
];

/// Returns whether this is the text.
fn is_text(made: &Result<String, AllocError>, expected: &str) -> bool {
    match made {
        Ok(text) => text.as_str() == expected,
        Err(_) => false,
    }
}

/// Returns whether the label gets the first of its names that is left, even if it got none before.
fn is_named(namer: &mut Namer, label: &str, expected: &str) -> bool {
    match namer.call(label) {
        Ok(name) => name.as_str() == expected,
        Err(AllocError) => match namer.call(label) {
            Ok(name) => name.as_str() == expected,
            Err(AllocError) => true,
        },
    }
}

#[test]
fn labels_get_names(rt: HostRuntime) {
    let mut namer = Namer::new(rt.alloc(), LANGUAGE);
    for (label, expected) in NAMES {
        let name = namer.call(label);
        assert!(rt; is_text(&name, expected), "{label}: {name:?}");
    }
}

#[test]
fn bases_have_no_numbers(rt: HostRuntime) {
    let namer = Namer::new(rt.alloc(), LANGUAGE);
    assert!(rt; is_text(&namer.sanitize("1a__b:c_"), "a_b_c"));
    assert!(rt; is_text(&namer.sanitize("v2"), "v2"));
}

#[test]
fn a_namespace_has_its_own_names(rt: HostRuntime) {
    let mut namer = Namer::new(rt.alloc(), LANGUAGE);
    assert!(rt; is_text(&namer.call_or(&None, "member"), "member"));
    let mut inner = namer.namespace();
    assert!(rt; is_text(&inner.call("member"), "member"));
    assert!(rt; is_text(&inner.call("if"), "if_"));
    assert!(rt; is_text(&namer.call("member"), "member_1"));
}

#[test]
fn words_are_reserved(rt: HostRuntime) {
    assert!(rt; LANGUAGE.contains("if") && LANGUAGE.contains("sin") && LANGUAGE.contains("Pass"));
    assert!(rt; !LANGUAGE.contains("If") && !LANGUAGE.contains("gl_"));
}

/// Allocations that fail while names are made.
mod refusals {
    use super::*;

    #[test]
    fn a_label_without_a_name_gets_the_same_one_later(rt: HostRuntime) {
        let mut namer = Namer::new(rt.alloc(), LANGUAGE);
        for (label, expected) in NAMES {
            assert!(rt; is_named(&mut namer, label, expected), "{label}");
        }
    }

    #[test]
    fn a_base_is_made_or_allocation_fails(rt: HostRuntime) {
        let namer = Namer::new(rt.alloc(), LANGUAGE);
        match namer.sanitize("a b") {
            Ok(base) => assert!(rt; base.as_str() == "a_u0020_b"),
            Err(AllocError) => assert!(rt; !LANGUAGE.contains("a_u0020_b")),
        }
    }
}
