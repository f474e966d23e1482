//! What may not be written out, and why: small bodies, and what they return.
ghost use Rattle.std.specs.Prelude.{◌≡◌, ◌∷◌, None, Some, []};
ghost use Rattle.naga_ir.specs.Tree.{plain};
ghost use Rattle.naga_ir.specs.declared.statement.Statement.{Emit};
ghost use Rattle.naga_runs.specs.declared.run.Ending.TheVariants.{Kill};
ghost use Rattle.naga_meaning.specs.Machine.{done};
ghost use Rattle.naga_wgsl.specs.Examples.{adding, branching, breaking_at_once, continuing_at_once, counting_up, evaluated_again_inside, evaluated_elsewhere, killing, left_from, returned_with, storing_between, switching, text_left, text_returned, text_stored};

/// A sum may be inline, whatever is stored between its `Emit` and its use, also in a loop of which each turn evaluates its
/// operand again. This is not so of a load, of a sum whose operand is evaluated again in its scope, of one that is used out
/// of scope, of the result of a statement, or of a sum of a load that is evaluated where it is used.
pub fn inline_examples_are_computed()
    ensures bound { returned_with [] [] (storing_between [] 3) ≡ Some 8 }
    ensures inline { returned_with [] (3 ∷ []) (storing_between [] 3) ≡ Some 8 }
    ensures load_bound { returned_with [] [] (storing_between [] 2) ≡ Some 7 }
    ensures load_inline { returned_with [] (2 ∷ []) (storing_between [] 2) ≡ Some 1 }
    ensures again_bound { returned_with [] [] (storing_between (plain (Emit (2, 3)) ∷ []) 3) ≡ Some 8 }
    ensures again_inline { returned_with [] (3 ∷ []) (storing_between (plain (Emit (2, 3)) ∷ []) 3) ≡ Some 2 }
    ensures elsewhere_bound { returned_with [] [] evaluated_elsewhere ≡ Some 0 }
    ensures elsewhere_inline { returned_with [] (3 ∷ []) evaluated_elsewhere ≡ Some 1 }
    ensures result_bound { returned_with [] [] adding ≡ Some 7 }
    ensures result_inline { returned_with [] (6 ∷ []) adding ≡ Some 0 }
    ensures of_load_bound { returned_with (2 ∷ []) [] (storing_between [] 3) ≡ Some 8 }
    ensures of_load_inline { returned_with (2 ∷ []) (3 ∷ []) (storing_between [] 3) ≡ Some 2 }
    ensures loop_bound { (left_from 3 [] [] counting_up).state ≡ 6 }
    ensures loop_inline { (left_from 3 [] (3 ∷ 5 ∷ []) counting_up).state ≡ 6 }
{}

/// Texts do what their bodies do. An expression that is evaluated again inside a block has its new value after the block,
/// and its name has the old one: what the check of uses refuses.
pub fn text_examples_are_computed()
    ensures bound { text_returned [] (storing_between [] 3) ≡ Some 8 }
    ensures inline { text_returned (3 ∷ []) (storing_between [] 3) ≡ Some 8 }
    ensures result { text_returned [] adding ≡ Some 7 }
    ensures again { returned_with [] [] evaluated_again_inside ≡ Some 1 }
    ensures again_in_a_text { text_returned [] evaluated_again_inside ≡ Some 7 }
    ensures branched { text_stored (branching 1) ≡ 5 }
    ensures other_branch { text_stored (branching 6) ≡ 1 }
    ensures switched { text_stored switching ≡ 6 }
    ensures counted { (text_left 3 [] counting_up).state.state ≡ 6 }
    ensures counted_inline { (text_left 3 (3 ∷ 5 ∷ []) counting_up).state.state ≡ 6 }
    ensures continued { text_stored continuing_at_once ≡ 5 }
    ensures broken { text_stored breaking_at_once ≡ 7 }
    ensures killed { text_left 7 [] killing ≡ done Kill (record { state = 5; names = λ name. 0; returned = None }) }
{}
