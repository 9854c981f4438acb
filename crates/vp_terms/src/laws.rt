//! Laws of rationals, texts, variables, trees and models: the contracts of these functions say them, and their bodies do nothing.
ghost use Rattle.std.specs.Prelude.{◌≡◌, ◌⊎◌, ℕ, ◌+◌, ◌<◌, ◌≤◌, pos, Bool, IsTrue, List, Some};
ghost use Rattle.vp_terms.specs.Rational.{Rational, Equals, whole, sum, difference, product, power};
ghost use Rattle.vp_terms.specs.Meaning.{Assignment, rational, value, compares, holds};
ghost use Rattle.vp_terms.specs.Control.{Values, Same, SameBut, Ctrl, AgreeBelow};
ghost use Rattle.vp_terms.specs.Model.{Claim, IsInductive, model_of};
ghost use Rattle.vp_terms.specs.Packages.{package_tree};
ghost use Rattle.vp_terms.specs.Plant.{Flow, PlantStep};
ghost use Rattle.vp_terms.specs.Tree.{expr_tree, formula_tree, prog_tree};
ghost use Rattle.vp_terms.specs.Running.{may_change};
ghost use Rattle.vp_terms.specs.Number.{Writes, is_read, is_whole, number};
ghost use Rattle.vp_terms.specs.Ratios.{IsNumber};
ghost use Rattle.vp_terms.specs.Places.{place, place_count, has_variable};
ghost use Rattle.vp_terms.specs.Variables.{all_variables, all_variables_of, has_places_below, formula_has_places_below};
ghost use Rattle.vp_terms.specs.WellFormed.{is_allowed, is_good_expr, is_good_formula, is_good_prog};
ghost use Rattle.vp_terms.specs.declared.well_formed.Kinds.{Kinds};
ghost use Rattle.vp_terms.specs.declared.expr.Places.{Places};
ghost use Rattle.vp_terms.specs.declared.expr.Var.{Var};
ghost use Rattle.vp_terms.specs.declared.ratio.Ratio.{Ratio};
ghost use Rattle.vp_terms.specs.declared.expr.Expr.{Expr};
ghost use Rattle.vp_terms.specs.declared.formula.Formula.{Formula};
ghost use Rattle.vp_terms.specs.declared.prog.Prog.{Prog};
ghost use Rattle.vp_terms.specs.declared.package.Package.{Package};
ghost use Rattle.vp_terms.specs.declared.formula.Cmp.{Cmp};
ghost use Rattle.vp_terms.specs.declared.formula.Cmp.TheVariants.{Le, Lt};

use crate::Ratio;

/// Equality of rationals is an equivalence.
pub fn equality_is_equivalence()
    ensures reflexive { (q : Rational) → Equals q q }
    ensures symmetric { (q r : Rational) → Equals q r → Equals r q }
    ensures transitive { (q r s : Rational) → Equals q r → Equals r s → Equals q s }
{}

/// Sums, differences, products and powers of equal rationals are equal.
pub fn operations_respect_equality()
    ensures sums { (q q' r r' : Rational) → Equals q q' → Equals r r' → Equals (sum q r) (sum q' r') }
    ensures differences { (q q' r r' : Rational) → Equals q q' → Equals r r' →
        Equals (difference q r) (difference q' r') }
    ensures products { (q q' r r' : Rational) → Equals q q' → Equals r r' →
        Equals (product q r) (product q' r') }
    ensures powers { (q q' : Rational) (n : ℕ) → Equals q q' → Equals (power q n) (power q' n) }
{}

/// Equal rationals compare alike.
pub fn comparisons_respect_equality()
    ensures { (c : Cmp) (q q' r r' : Rational) → Equals q q' → Equals r r' →
        compares c q r ≡ compares c q' r' }
{}

/// The order of rationals is total.
pub fn order_is_total()
    ensures total { (q r : Rational) → IsTrue (compares Le q r) ⊎ IsTrue (compares Lt r q) }
    ensures antisymmetric { (q r : Rational) → IsTrue (compares Le q r) → IsTrue (compares Le r q) →
        Equals q r }
    ensures transitive { (q r s : Rational) → IsTrue (compares Le q r) → IsTrue (compares Le r s) →
        IsTrue (compares Le q s) }
{}

/// Sums commute and associate, and products distribute over them.
pub fn sums_and_products()
    ensures zero { (q : Rational) → Equals q (sum q (whole (pos 0))) }
    ensures commutative { (q r : Rational) → Equals (sum q r) (sum r q) }
    ensures associative { (q r s : Rational) → Equals (sum (sum q r) s) (sum q (sum r s)) }
    ensures distributive { (q r s : Rational) →
        Equals (product q (sum r s)) (sum (product q r) (product q s)) }
{}

/// Two fractions in lowest terms with the same value have the same parts.
pub fn lowest_terms_are_unique(a: Ratio, b: Ratio)
    requires { Equals (rational a) (rational b) }
    ensures num { a.num ≡ b.num }
    ensures den { a.den ≡ b.den }
{}

/// A fraction is its two parts.
pub fn fractions_are_their_parts()
    ensures { (a b : Ratio) → a.num ≡ b.num → a.den ≡ b.den → a ≡ b }
{}

/// A text writes one number at most.
pub fn texts_write_one_number()
    ensures { (text : List ℕ) (a b : Ratio) → IsNumber text a → IsNumber text b → a ≡ b }
{}

/// What a program leads to depends on the values of the controls alone, and it keeps each control
/// that it doesn't change.
pub fn programs_relate_values()
    ensures equal_values { (prog : Prog) (p x u u' v v' : Values) → Same u u' → Same v v' →
        Ctrl prog p x u v → Ctrl prog p x u' v' }
    ensures kept { (prog : Prog) (k : ℕ) (p x u v : Values) → Ctrl prog p x u v →
        (¬ IsTrue (may_change prog k)) → Equals (u k) (v k) }
{}

/// A text is read as a number exactly where it is digits, two runs of digits with `/` between, or
/// two with `.` between, and no part of its fraction is refused. Digits alone are a whole number.
pub fn numbers_are_written()
    ensures read { (text : List ℕ) (n d : ℕ) → Writes text n d → IsTrue (is_read (n, d)) →
        number text ≡ Some (n, d) }
    ensures written { (text : List ℕ) (n d : ℕ) → number text ≡ Some (n, d) →
        Writes text n d × IsTrue (is_read (n, d)) }
    ensures whole { (text : List ℕ) (r : Ratio) → IsTrue (is_whole text) → IsNumber text r → r.den ≡ pos 1 }
{}

/// Each variable of a model has a place of its own, and each place is some variable's.
pub fn places_tell_variables()
    ensures in_range { (p : Places) (v : Var) → IsTrue (has_variable p v) → place p v < place_count p }
    ensures different { (p : Places) (v w : Var) → IsTrue (has_variable p v) → IsTrue (has_variable p w) →
        place p v ≡ place p w → v ≡ w }
    ensures used { (p : Places) (k : ℕ) → k < place_count p →
        (v : Var) × IsTrue (has_variable p v) × (place p v ≡ k) }
{}

/// The variables of well formed expressions and formulas have places of the model.
pub fn variables_have_places()
    ensures expressions { (k : Kinds) (p : Places) (e : Expr) → IsTrue (is_good_expr k p e) →
        IsTrue (has_places_below p (place_count p) e) }
    ensures formulas { (k : Kinds) (p : Places) (f : Formula) → IsTrue (is_good_formula k p f) →
        IsTrue (formula_has_places_below p (place_count p) f) }
{}

/// What an expression, a formula or a program means depends on the variables that it has: on those
/// that pass a test, where all of its variables do.
pub fn meaning_depends_on_variables()
    ensures values { (t : Var → Bool) (e : Expr) (a b : Assignment) → IsTrue (all_variables t e) →
        ((v : Var) → IsTrue (t v) → Equals (a v) (b v)) → Equals (value e a) (value e b) }
    ensures truth { (t : Var → Bool) (f : Formula) (a b : Assignment) → IsTrue (all_variables_of t f) →
        ((v : Var) → IsTrue (t v) → Equals (a v) (b v)) → holds f a ≡ holds f b }
    ensures programs { (places : Places) (prog : Prog) (p p' x x' u v : Values) →
        IsTrue (is_good_prog places prog) → AgreeBelow places.params p p' → AgreeBelow places.states x x' →
        Ctrl prog p x u v → Ctrl prog p' x' u v }
{}

/// What has only variables that pass a test has only variables that pass a weaker one.
pub fn variables_pass_tests()
    ensures expressions { (t u : Var → Bool) (e : Expr) → ((v : Var) → IsTrue (t v) → IsTrue (u v)) →
        IsTrue (all_variables t e) → IsTrue (all_variables u e) }
    ensures formulas { (t u : Var → Bool) (f : Formula) → ((v : Var) → IsTrue (t v) → IsTrue (u v)) →
        IsTrue (all_variables_of t f) → IsTrue (all_variables_of u f) }
{}

/// A well formed expression or formula has only variables that may stand there, and these are the
/// model's.
pub fn well_formed_parts_have_allowed_variables()
    ensures expressions { (k : Kinds) (p : Places) (e : Expr) → IsTrue (is_good_expr k p e) →
        IsTrue (all_variables (is_allowed k p) e) }
    ensures formulas { (k : Kinds) (p : Places) (f : Formula) → IsTrue (is_good_formula k p f) →
        IsTrue (all_variables_of (is_allowed k p) f) }
    ensures allowed { (k : Kinds) (p : Places) (v : Var) → IsTrue (is_allowed k p v) → IsTrue (has_variable p v) }
{}

/// Expressions, formulas, programs and packages that differ in their boxes alone mean the same.
pub fn equal_trees_mean_the_same()
    ensures values { (e f : Expr) → expr_tree e ≡ expr_tree f → (a : Assignment) → value e a ≡ value f a }
    ensures truth { (f g : Formula) → formula_tree f ≡ formula_tree g → (a : Assignment) → holds f a ≡ holds g a }
    ensures programs { (a b : Prog) → prog_tree a ≡ prog_tree b → (p x u v : Values) → Ctrl a p x u v →
        Ctrl b p x u v }
    ensures plants { (flow : Flow) (pkg other : Package) → package_tree pkg ≡ package_tree other →
        (p x u : Values) (t : Rational) (y : Values) → PlantStep flow pkg.plant p x u t y →
        PlantStep flow other.plant p x u t y }
    ensures inductive { (flow : Flow) (pkg other : Package) → package_tree pkg ≡ package_tree other →
        IsInductive (model_of flow pkg) → IsInductive (model_of flow other) }
{}

/// Where the invariant is inductive, each sampled run is safe at its start and behind each round.
pub fn inductive_models_keep_their_claim()
    ensures { (flow : Flow) (pkg : Package) → IsInductive (model_of flow pkg) → Claim (model_of flow pkg) }
{}
