//! Laws of normal forms: the contracts of these functions say them, and their bodies do nothing.
ghost use Rattle.std.specs.Prelude.{◌≡◌, ◌↔◌, ◌*◌, ◌≤◌, ℕ, Bool, IsTrue, All, not, true, List, length};
ghost use Rattle.std.specs.List.{list_any};
ghost use Rattle.vp_terms.specs.Meaning.{Assignment, holds};
ghost use Rattle.vp_terms.specs.Places.{has_variable, place_count};
ghost use Rattle.vp_terms.specs.Tree.{formula_tree};
ghost use Rattle.vp_terms.specs.Variables.{all_variables_of};
ghost use Rattle.vp_terms.specs.declared.expr.Expr.{Expr};
ghost use Rattle.vp_terms.specs.declared.expr.Places.{Places};
ghost use Rattle.vp_terms.specs.declared.expr.Var.{Var};
ghost use Rattle.vp_terms.specs.declared.formula.Formula.{Formula};
ghost use Rattle.vp_poly.specs.Canonical.{own_weights, variables};
ghost use Rattle.vp_poly.specs.Coefficient.{Coefficients, coefficients};
ghost use Rattle.vp_poly.specs.Points.{IsAt};
ghost use Rattle.vp_poly.specs.Places.{IsRenaming, point_before};
ghost use Rattle.vp_poly.specs.Replaced.{formula_replaced};
ghost use Rattle.vp_poly.specs.Value.{Point};
ghost use Rattle.vp_poly.specs.Weights.{Weights, weight_at, weight_in};
ghost use Rattle.vp_logic.specs.Cases.{AreWithin, case_holds, part_cases_from, part_count};
ghost use Rattle.vp_logic.specs.Narrow.{comparisons, comparisons_fit, is_narrow, terms_of};
ghost use Rattle.vp_logic.specs.Normal.{IsNormal};
ghost use Rattle.vp_logic.specs.Renamed.{IsRenamed};
ghost use Rattle.vp_logic.specs.Sized.{EachHasOnly, EachIsSized, IsSized, IsSizedAtom, TreeHasOnly};
ghost use Rattle.vp_logic.specs.Tree.{Tree, all_atoms, atoms_of, conjuncts_of, negated};
ghost use Rattle.vp_logic.specs.Truth.{parts_hold, tree_holds};

/// A negated form holds exactly where the form doesn't, and the conjuncts of a form all hold exactly
/// where it does.
pub fn forms_keep_their_meaning()
    ensures negated { (t : Tree) (x : Point) → tree_holds (negated t) x ≡ not (tree_holds t x) }
    ensures conjuncts { (t : Tree) (x : Point) → parts_hold (conjuncts_of t) x ≡ tree_holds t x }
{}

/// A formula has one normal form.
pub fn normal_forms_are_unique()
    ensures { (p : Places) (ws : List Weights) (c : Var → Coefficients) (f : Formula) (t u : Tree) →
        IsNormal p ws c f t → IsNormal p ws c f u → t ≡ u }
{}

/// Where variables stand for themselves and no comparison is over, a normal form holds at each point
/// exactly where the formula holds for the values that the model's variables have there.
pub fn normal_forms_hold_as_formulas()
    ensures { (p : Places) → place_count p ≤ 32 → (x : Point) (a : Assignment) → IsAt p x a →
        (f : Formula) (t : Tree) → IsTrue (all_variables_of (has_variable p) f) →
        comparisons_fit p (own_weights (place_count p)) f ≡ true →
        IsNormal p (own_weights (place_count p)) (variables p) f t → tree_holds t x ≡ holds f a }
{}

/// Formulas that differ in their boxes alone have the same normal forms, and are narrow alike.
pub fn equal_trees_have_one_normal_form()
    ensures forms { (p : Places) (ws : List Weights) (c : Var → Coefficients) (f g : Formula) (t : Tree) →
        formula_tree f ≡ formula_tree g → IsNormal p ws c f t → IsNormal p ws c g t }
    ensures narrow { (p : Places) (ws : List Weights) (f g : Formula) → formula_tree f ≡ formula_tree g →
        is_narrow p ws f ≡ is_narrow p ws g }
    ensures terms { (p : Places) (ws : List Weights) (f g : Formula) → formula_tree f ≡ formula_tree g →
        terms_of p ws f ≡ terms_of p ws g }
{}

/// Where the weights `ws` and the coefficients c of the variables are those that the expressions s
/// have by `vs` and d, the normal forms of a formula are those of the formula with its variables
/// replaced by s.
pub fn normal_forms_compose()
    ensures forms { (p : Places) (ws vs : List Weights) (c d : Var → Coefficients) (s : Var → Expr) →
        ((v : Var) → IsTrue (has_variable p v) → weight_at p ws v ≡ weight_in p vs (s v)) →
        ((v : Var) → IsTrue (has_variable p v) → c v ≡ coefficients d (s v)) →
        (f : Formula) (t : Tree) → IsTrue (all_variables_of (has_variable p) f) →
        IsNormal p ws c f t ↔ IsNormal p vs d (formula_replaced s f) t }
    ensures narrow { (p : Places) (ws vs : List Weights) (c d : Var → Coefficients) (s : Var → Expr) →
        ((v : Var) → IsTrue (has_variable p v) → weight_at p ws v ≡ weight_in p vs (s v)) →
        ((v : Var) → IsTrue (has_variable p v) → c v ≡ coefficients d (s v)) →
        (f : Formula) → IsTrue (all_variables_of (has_variable p) f) →
        is_narrow p ws f ≡ is_narrow p vs (formula_replaced s f) }
    ensures terms { (p : Places) (ws vs : List Weights) (c d : Var → Coefficients) (s : Var → Expr) →
        ((v : Var) → IsTrue (has_variable p v) → weight_at p ws v ≡ weight_in p vs (s v)) →
        ((v : Var) → IsTrue (has_variable p v) → c v ≡ coefficients d (s v)) →
        (f : Formula) → IsTrue (all_variables_of (has_variable p) f) →
        terms_of p ws f ≡ terms_of p vs (formula_replaced s f) }
{}

/// A form with renamed places holds at a point exactly where the form does at the point before.
pub fn renamed_forms_hold_before()
    ensures { (v : ℕ) (to : List ℕ) (x : Point) → IsRenaming to → (t u : Tree) → IsSized v t →
        IsRenamed to t u → tree_holds u x ≡ tree_holds t (point_before to x) }
{}

/// A normal form has at most two atoms for each comparison, a negated form at most twice as many as
/// the form, and a renamed one as many.
pub fn normal_forms_have_few_atoms()
    ensures normal { (p : Places) (ws : List Weights) (c : Var → Coefficients) (f : Formula) (t : Tree) →
        IsNormal p ws c f t → length (atoms_of t) ≤ 2 * comparisons f }
    ensures negated { (t : Tree) → length (atoms_of (negated t)) ≤ 2 * length (atoms_of t) }
    ensures renamed { (to : List ℕ) (t u : Tree) → IsRenamed to t u →
        length (atoms_of u) ≡ length (atoms_of t) }
{}

/// All parts hold exactly where all atoms of some case do, and there are as many cases as counted.
pub fn cases_split_parts()
    ensures holds { (ts : List Tree) (x : Point) →
        list_any (case_holds (all_atoms ts) x) (part_cases_from 0 ts) ≡ parts_hold ts x }
    ensures counted { (k : ℕ) (ts : List Tree) → length (part_cases_from k ts) ≡ part_count ts }
    ensures places { (ts : List Tree) → AreWithin (length (all_atoms ts)) (part_cases_from 0 ts) }
{}

/// The conjuncts and atoms of a form with small polynomials have small polynomials, and the conjuncts
/// have the places of the form alone.
pub fn conjuncts_stay_small()
    ensures sized { (v : ℕ) (t : Tree) → IsSized v t → EachIsSized v (conjuncts_of t) }
    ensures only { (allowed : ℕ → Bool) (t : Tree) → TreeHasOnly allowed t →
        EachHasOnly allowed (conjuncts_of t) }
    ensures atoms { (v : ℕ) (ts : List Tree) → EachIsSized v ts → All (IsSizedAtom v) (all_atoms ts) }
{}
