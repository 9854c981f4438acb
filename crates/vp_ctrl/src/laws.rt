//! Laws of paths: the contracts of these functions say them, and their bodies do nothing.
ghost use Rattle.std.specs.Prelude.{◌≡◌, ◌↔◌, ◌+◌, ◌*◌, ◌≤◌, ℕ, IsTrue, List, None, length, map, true};
ghost use Rattle.vp_terms.specs.Control.{AgreeFrom, Ctrl, Values, changing};
ghost use Rattle.vp_terms.specs.Places.{place_count};
ghost use Rattle.vp_terms.specs.Rational.{Rational};
ghost use Rattle.vp_terms.specs.Tree.{expr_tree, formula_tree, prog_tree};
ghost use Rattle.vp_terms.specs.WellFormed.{is_good_prog, prog_comparisons};
ghost use Rattle.vp_terms.specs.declared.expr.Expr.{Expr};
ghost use Rattle.vp_terms.specs.declared.expr.Places.{Places};
ghost use Rattle.vp_terms.specs.declared.expr.Var.{Var};
ghost use Rattle.vp_terms.specs.declared.formula.Formula.{Formula};
ghost use Rattle.vp_terms.specs.declared.prog.Prog.{Prog};
ghost use Rattle.vp_poly.specs.Points.{IsAt};
ghost use Rattle.vp_poly.specs.Replaced.{formula_replaced, replaced};
ghost use Rattle.vp_poly.specs.Value.{Point};
ghost use Rattle.vp_logic.specs.Tree.{Tree};
ghost use Rattle.vp_ctrl.specs.declared.path.Path.{Path};
ghost use Rattle.vp_ctrl.specs.Ways.{Way, way_count, ways};
ghost use Rattle.vp_ctrl.specs.Following.{Condition};
ghost use Rattle.vp_ctrl.specs.Hidden.{first_hidden};
ghost use Rattle.vp_ctrl.specs.Paths.{AreParts, ArePaths, EachPathHasFew, parts_of, some_path_holds};
ghost use Rattle.vp_ctrl.specs.Widths.{ways_are_narrow};

use vp_logic::laws::{
    equal_trees_have_one_normal_form, forms_keep_their_meaning, normal_forms_are_unique,
    normal_forms_have_few_atoms, normal_forms_hold_as_formulas,
};
use vp_poly::laws::{equal_trees_have_one_polynomial, replacing_composes};
use vp_terms::laws::{meaning_depends_on_variables, well_formed_parts_have_allowed_variables};

/// There are as many ways as counted.
pub fn ways_are_counted()
    ensures { (prog : Prog) → length (ways prog) ≡ way_count prog }
{}

/// There are as many paths as ways, and each has at most four atoms for each comparison of the program
/// and for each control.
pub fn paths_are_bounded()
    ensures count { (p : Places) (ws : List Way) (xs : List Path) → ArePaths p ws xs →
        length xs ≡ length ws }
    ensures atoms { (p : Places) (prog : Prog) (xs : List Path) → ArePaths p (ways prog) xs →
        EachPathHasFew (4 * (prog_comparisons prog + p.controls)) xs }
{
    normal_forms_have_few_atoms();
}

/// Conditions have one list of parts, and ways one list of paths.
pub fn paths_are_unique()
    ensures parts { (p : Places) (cs : List Condition) (ts us : List Tree) → AreParts p cs ts →
        AreParts p cs us → ts ≡ us }
    ensures paths { (p : Places) (ws : List Way) (xs ys : List Path) → ArePaths p ws xs →
        ArePaths p ws ys → map parts_of xs ≡ map parts_of ys }
{
    normal_forms_are_unique();
}

/// Where no control is hidden and nothing is too wide, the paths of the ways of a well formed
/// controller hold at a point exactly where the controller leads from the controls before the round to
/// those behind it.
pub fn paths_hold_where_controllers_lead()
    ensures { (places : Places) → place_count places ≤ 32 → (prog : Prog) →
        IsTrue (is_good_prog places prog) → first_hidden (ways prog) ≡ None →
        ways_are_narrow places (ways prog) ≡ true → (paths : List Path) →
        ArePaths places (ways prog) paths → (z : Point) (p x u v y : Values) (t : Rational) →
        IsAt places z (changing p x u v t y) → AgreeFrom places.controls u v →
        IsTrue (some_path_holds z paths) ↔ Ctrl prog p x u v }
{
    meaning_depends_on_variables();
    well_formed_parts_have_allowed_variables();
    replacing_composes();
    normal_forms_hold_as_formulas();
    forms_keep_their_meaning();
}

/// Expressions and formulas that differ in their boxes alone still do where their variables are
/// replaced by expressions that do.
pub fn replacing_keeps_equal_trees()
    ensures expressions { (s t : Var → Expr) → ((v : Var) → expr_tree (s v) ≡ expr_tree (t v)) →
        (e f : Expr) → expr_tree e ≡ expr_tree f → expr_tree (replaced s e) ≡ expr_tree (replaced t f) }
    ensures formulas { (s t : Var → Expr) → ((v : Var) → expr_tree (s v) ≡ expr_tree (t v)) →
        (f g : Formula) → formula_tree f ≡ formula_tree g →
        formula_tree (formula_replaced s f) ≡ formula_tree (formula_replaced t g) }
{}

/// Programs that differ in their boxes alone have as many ways, with the same hidden control, that are
/// narrow alike and have the same paths.
pub fn equal_trees_have_the_same_paths()
    ensures counts { (a b : Prog) → prog_tree a ≡ prog_tree b → way_count a ≡ way_count b }
    ensures hidden { (a b : Prog) → prog_tree a ≡ prog_tree b →
        first_hidden (ways a) ≡ first_hidden (ways b) }
    ensures narrow { (p : Places) (a b : Prog) → prog_tree a ≡ prog_tree b →
        ways_are_narrow p (ways a) ≡ ways_are_narrow p (ways b) }
    ensures paths { (p : Places) (a b : Prog) (xs : List Path) → prog_tree a ≡ prog_tree b →
        ArePaths p (ways a) xs → ArePaths p (ways b) xs }
{
    equal_trees_have_one_normal_form();
    equal_trees_have_one_polynomial();
}
