//! Laws of what a report finds.
ghost use Rattle.std.specs.Prelude.{◌≡◌, ◌≢◌, ◌↔◌, ◌+◌, List, length};
ghost use Rattle.naga_ir.specs.Tree.{Tree};
ghost use Rattle.naga_ir.specs.declared.module.Module as the_module;
ghost use Rattle.naga_proc.specs.Closing.{ClosedBy};
ghost use Rattle.naga_proc.specs.declared.terminator.rule.Rule.{Rule};
ghost use Rattle.naga_look.specs.Counts.{open_tails, statement_count};
ghost use Rattle.naga_look.specs.Findings.{AreFindings, fault_count};
ghost use Rattle.naga_look.specs.OpenEnds.{open_ends};
ghost use Rattle.naga_look.specs.Report.{ModulePasses, limit_of};
ghost use Rattle.naga_look.specs.declared.finding.Finding.{Finding};
ghost use Rattle.naga_look.specs.declared.shown.Extent.{Extent};

/// Closing a block by a rule inserts one return for each tail block that gets one, and no other statement.
pub fn closing_inserts_a_return_for_each_open_tail()
    ensures { (rule : Rule) (b c : Tree) → ClosedBy rule b c
        → statement_count c ≡ statement_count b + open_tails rule b }
{}

/// No return is missing in a block that is closed by a rule.
pub fn closed_block_misses_no_return()
    ensures { (rule : Rule) (b c : Tree) → ClosedBy rule b c → open_tails rule c ≡ 0 }
{}

/// The paths to the blocks that get a return by a rule are as many as there are such blocks.
pub fn each_open_tail_has_a_path()
    ensures { (rule : Rule) (block : Tree) → length (open_ends rule block) ≡ open_tails rule block }
{}

/// There is a fault among the findings on a module exactly if the module does not pass the checks.
pub fn faults_are_found_where_checks_fail()
    ensures { (whole : the_module.Module) (extent : Extent) (found : List Finding) → AreFindings whole (limit_of extent) found
        → (fault_count found ≢ 0 ↔ (¬ ModulePasses whole)) }
{}
