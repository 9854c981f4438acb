//! What holds of all controllers.
ghost use Rattle.std.specs.Prelude.{◌≡◌, ◌≤◌, List, None, length, IsTrue};
ghost use Rattle.std.specs.List.{list_all};
ghost use Rattle.vp_terms.specs.Tree.{ProgTree, prog_tree};
ghost use Rattle.vp_terms.specs.WellFormed.{is_good_prog, prog_comparisons};
ghost use Rattle.vp_terms.specs.declared.expr.Places.{Places};
ghost use Rattle.vp_terms.specs.declared.prog.Prog.{Prog};
ghost use Rattle.vp_grammar.specs.declared.terminal.Terminal.{Terminal};
ghost use Rattle.vp_grammar.specs.Controllers.{SpellsController};
ghost use Rattle.vp_grammar.specs.Strays.{first_stray, is_declared, sets_controls};
ghost use Rattle.vp_grammar.specs.declared.strays.Rule.TheVariants.{Controller};

/// The same terminals are those of one controller at most.
pub fn one_controller()
    ensures { (ts : List Terminal) (t u : ProgTree) → SpellsController ts t → SpellsController ts u → t ≡ u }
{}

/// A controller is well formed where none of its variables strays. Where the names are declared and
/// each name before `:=` is a control's, none strays from a well formed one. A controller has no more
/// comparisons and `true`s than terminals.
pub fn good_controllers()
    ensures controllers { (p : Places) (g : Prog) (ts : List Terminal) → SpellsController ts (prog_tree g) → first_stray Controller p 0 ts ≡ None → IsTrue (is_good_prog p g) }
    ensures kept { (p : Places) (g : Prog) (ts : List Terminal) → SpellsController ts (prog_tree g) →
        IsTrue (list_all is_declared ts) → IsTrue (sets_controls ts) → IsTrue (is_good_prog p g) →
        first_stray Controller p 0 ts ≡ None }
    ensures sizes { (g : Prog) (ts : List Terminal) → SpellsController ts (prog_tree g) → prog_comparisons g ≤ length ts }
{}
