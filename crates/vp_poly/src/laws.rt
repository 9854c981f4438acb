//! Laws of polynomials, weights and coefficients: the contracts of these functions say them, and
//! their bodies do nothing.
ghost use Rattle.std.specs.Prelude.{◌≡◌, ◌≢◌, ◌+◌, ◌*◌, ◌/◌, ◌^◌, ◌+ℤ◌, ◌*ℤ◌, ◌<◌, ◌≤◌, ℕ, ℤ, Bool, IsTrue, List, ◌∷◌, false, length, nat_lt, pos, slice_index, sum as sum_of, swap, true, unsigned_abs};
ghost use Rattle.std.specs.declared.cmp.Ordering.TheVariants.{Less};
ghost use Rattle.std.specs.List.{range_with_len};
ghost use Rattle.std.specs.Int.{IsGcd};
ghost use Rattle.vp_terms.specs.Rational.{Rational, Equals, difference, product, sum, whole};
ghost use Rattle.vp_terms.specs.Meaning.{Assignment, value, compares, holds};
ghost use Rattle.vp_terms.specs.Places.{place_count, has_variable};
ghost use Rattle.vp_terms.specs.Tree.{expr_tree};
ghost use Rattle.vp_terms.specs.Variables.{all_variables, all_variables_of};
ghost use Rattle.vp_terms.specs.declared.expr.Places.{Places};
ghost use Rattle.vp_terms.specs.declared.formula.Formula.{Formula};
ghost use Rattle.vp_terms.specs.declared.formula.Cmp.{Cmp};
ghost use Rattle.vp_terms.specs.declared.expr.Var.{Var};
ghost use Rattle.vp_terms.specs.declared.expr.Expr.{Expr};
ghost use Rattle.vp_poly.specs.declared.mono.Mono.{Mono};
ghost use Rattle.vp_poly.specs.declared.mono.Term.{Term};
ghost use Rattle.vp_poly.specs.Poly.{Powers, IsPoly, IsWithin, coef, degree, mono_cmp, norm, only_at, unless_zero};
ghost use Rattle.vp_poly.specs.Places.{AreBelow, HaveOnly, IsRenaming, before_renaming, point_before};
ghost use Rattle.vp_poly.specs.Points.{IsAt, Sends};
ghost use Rattle.vp_poly.specs.Whole.{IsWhole, whole_value};
ghost use Rattle.vp_poly.specs.Value.{Point, powers_value, value_at};
ghost use Rattle.vp_poly.specs.Lcm.{Shares, gcd, lcm};
ghost use Rattle.vp_poly.specs.Coefficient.{Coefficients, coefficients, times};
ghost use Rattle.vp_poly.specs.Product.{IsProduct, IsTotal, split_sum};
ghost use Rattle.vp_poly.specs.Times.{HasCoefficients, IsTimes};
ghost use Rattle.vp_poly.specs.Weights.{Weights, fits, weight, weight_between, weight_in};
ghost use Rattle.vp_poly.specs.Unbounded.{exact_weight, all_fit};
ghost use Rattle.vp_poly.specs.Canonical.{IsCanonical, IsWeighed, own_weight, own_weights, values_at, variables};
ghost use Rattle.vp_poly.specs.Replaced.{formula_replaced, replaced};

/// A polynomial is known by its coefficients, so an expression has one canonical polynomial.
pub fn polynomials_are_unique()
    ensures by_coefficients { (xs ys : List Term) → IsPoly xs → IsPoly ys →
        ((m : Powers) → coef xs m ≡ coef ys m) → xs ≡ ys }
    ensures canonical { (d : ℕ) (f : Coefficients) (xs ys : List Term) → IsCanonical d xs f →
        IsCanonical d ys f → xs ≡ ys }
{}

/// A polynomial has equal values at equal points, and only the places that it has count.
pub fn values_respect_equality()
    ensures everywhere { (ts : List Term) (x y : Point) → ((k : ℕ) → Equals (x k) (y k)) →
        Equals (value_at ts x) (value_at ts y) }
    ensures below { (v : ℕ) (ts : List Term) (x y : Point) → AreBelow v ts →
        ((k : ℕ) → k < v → Equals (x k) (y k)) → Equals (value_at ts x) (value_at ts y) }
    ensures only { (allowed : ℕ → Bool) (ts : List Term) (x y : Point) → HaveOnly allowed ts →
        ((k : ℕ) → IsTrue (allowed k) → Equals (x k) (y k)) → Equals (value_at ts x) (value_at ts y) }
{}

/// What has places that pass a test has places that pass a weaker one, and to have places below a
/// number is such a test. Where each monomial with an exponent at another place has the coefficient 0,
/// the polynomial has only places that pass.
pub fn places_pass_tests()
    ensures weaker { (allowed kept : ℕ → Bool) (ts : List Term) →
        ((k : ℕ) → IsTrue (allowed k) → IsTrue (kept k)) → HaveOnly allowed ts → HaveOnly kept ts }
    ensures below { (v : ℕ) (ts : List Term) → AreBelow v ts → HaveOnly (λ k. nat_lt k v) ts }
    ensures passed { (v : ℕ) (ts : List Term) → HaveOnly (λ k. nat_lt k v) ts → AreBelow v ts }
    ensures told { (allowed : ℕ → Bool) (ts : List Term) → IsPoly ts →
        ((m : Powers) (k : ℕ) → length m ≡ 32 → allowed k ≡ false → slice_index m k ≢ 0 → coef ts m ≡ pos 0) →
        HaveOnly allowed ts }
{}

/// Each assignment is that of some point, and two at one point agree on the variables of the model.
/// Where places are renamed, the variables are.
pub fn points_have_assignments()
    ensures some { (p : Places) (a : Assignment) → (x : Point) × IsAt p x a }
    ensures own { (p : Places) (x : Point) → IsAt p x (values_at p x) }
    ensures one { (p : Places) (x : Point) (a b : Assignment) → IsAt p x a → IsAt p x b →
        (v : Var) → IsTrue (has_variable p v) → Equals (a v) (b v) }
    ensures places { (p : Places) (x y : Point) (a : Assignment) →
        ((k : ℕ) → k < place_count p → Equals (x k) (y k)) → IsAt p x a → IsAt p y a }
    ensures values { (p : Places) (x : Point) (a b : Assignment) →
        ((v : Var) → IsTrue (has_variable p v) → Equals (a v) (b v)) → IsAt p x a → IsAt p x b }
    ensures renamed { (p : Places) (to : List ℕ) (g : Var → Var) (x : Point) (a : Assignment) →
        Sends p to g → IsAt p x a → IsAt p (point_before to x) (λ v. a (g v)) }
{}

/// A polynomial whose coefficients are the sums, multiples or renamed coefficients of others has the
/// sums, multiples or renamed values.
pub fn coefficients_tell_values()
    ensures sums { (xs ys zs : List Term) (x : Point) → IsPoly xs → IsPoly ys → IsPoly zs →
        ((m : Powers) → coef zs m ≡ coef xs m +ℤ coef ys m) →
        Equals (value_at zs x) (sum (value_at xs x) (value_at ys x)) }
    ensures multiples { (k : ℤ) (xs zs : List Term) (x : Point) → IsPoly xs → IsPoly zs →
        ((m : Powers) → coef zs m ≡ k *ℤ coef xs m) →
        Equals (value_at zs x) (product (whole k) (value_at xs x)) }
    ensures renamed { (to : List ℕ) (xs zs : List Term) (x : Point) → IsRenaming to → IsPoly xs →
        IsPoly zs → ((m : Powers) → length m ≡ 32 → coef zs m ≡ coef xs (before_renaming to m)) →
        Equals (value_at zs x) (value_at xs (point_before to x)) }
{}

/// The value of a polynomial at whole numbers is whole.
pub fn values_at_whole_numbers_are_whole()
    ensures { (z : ℕ → ℤ) (ts : List Term) → IsWhole (value_at ts (λ k. whole (z k))) (whole_value ts z) }
{}

/// Expressions that differ in their boxes alone have one weight, the same coefficients and one
/// canonical polynomial.
pub fn equal_trees_have_one_polynomial()
    ensures weights { (env : Var → Weights) (e f : Expr) → expr_tree e ≡ expr_tree f →
        weight env e ≡ weight env f }
    ensures coefficients { (env : Var → Coefficients) (e f : Expr) → expr_tree e ≡ expr_tree f →
        coefficients env e ≡ coefficients env f }
    ensures canonical { (p : Places) (ws : List Weights) (c : Var → Coefficients) (e f : Expr)
        (xs ys : List Term) → expr_tree e ≡ expr_tree f →
        IsCanonical (weight_in p ws e).den xs (coefficients c e) →
        IsCanonical (weight_in p ws f).den ys (coefficients c f) → xs ≡ ys }
{}

/// Sums over the ways to split a monomial commute and associate.
pub fn sums_over_splits()
    ensures commutative { (m : Powers) (f : Powers → Powers → ℤ) →
        split_sum m f ≡ split_sum m (λ a b. f b a) }
    ensures associative { (m : Powers) (f : Powers → Powers → Powers → ℤ) →
        split_sum m (λ a c. split_sum a (λ b d. f b d c)) ≡
        split_sum m (λ b x. split_sum x (λ d c. f b d c)) }
    ensures sums { (m : Powers) (f g : Powers → Powers → ℤ) →
        split_sum m (λ a b. f a b +ℤ g a b) ≡ split_sum m f +ℤ split_sum m g }
    ensures multiples { (m : Powers) (f : Powers → Powers → ℤ) (z : ℤ) →
        split_sum m f *ℤ z ≡ split_sum m (λ a b. f a b *ℤ z) }
{}

/// A positive multiple compares with 0 as the number itself.
pub fn multiples_keep_signs()
    ensures { (c : Cmp) (d : ℕ) (v q : Rational) → 0 < d → IsTimes d v q →
        compares c v (whole (pos 0)) ≡ compares c q (whole (pos 0)) }
{}

/// A weight is over exactly where the weight over unbounded numbers is over, or that of a part.
/// Where it isn't, the two are the same.
pub fn saturation_keeps_over()
    ensures over { (env : Var → Weights) (e : Expr) → fits (weight env e) ≡ all_fit env e }
    ensures same { (env : Var → Weights) (e : Expr) → fits (weight env e) ≡ true →
        weight env e ≡ exact_weight env e }
{}

/// The least common multiple, by the greatest common divisor.
pub fn common_multiples()
    ensures divisor { (a b : ℕ) → IsGcd a b (gcd a b) }
    ensures multiple { (a b : ℕ) → 0 < b → lcm a b * gcd a b ≡ a * b }
    ensures shares { (a b : ℕ) → 0 < a → 0 < b → Shares a b (lcm a b / a) (lcm a b / b) }
{}

/// Where variables are replaced by expressions, coefficients, values and weights are those over
/// the coefficients, values and weights of these.
pub fn replacing_composes()
    ensures coefficients { (f : Var → Coefficients) (s : Var → Expr) (e : Expr) →
        coefficients f (replaced s e) ≡ coefficients (λ v. coefficients f (s v)) e }
    ensures values { (a : Assignment) (s : Var → Expr) (e : Expr) →
        value (replaced s e) a ≡ value e (λ v. value (s v) a) }
    ensures weights { (w : Var → Weights) (s : Var → Expr) (e : Expr) →
        weight w (replaced s e) ≡ weight (λ v. weight w (s v)) e }
    ensures truth { (a : Assignment) (s : Var → Expr) (f : Formula) →
        holds (formula_replaced s f) a ≡ holds f (λ v. value (s v) a) }
    ensures twice { (r s : Var → Expr) (e : Expr) →
        replaced r (replaced s e) ≡ replaced (λ v. replaced r (s v)) e }
    ensures formulas_twice { (r s : Var → Expr) (f : Formula) →
        formula_replaced r (formula_replaced s f) ≡ formula_replaced (λ v. replaced r (s v)) f }
    ensures variables { (t u : Var → Bool) (s : Var → Expr) (e : Expr) →
        ((v : Var) → IsTrue (t v) → IsTrue (all_variables u (s v))) → IsTrue (all_variables t e) →
        IsTrue (all_variables u (replaced s e)) }
    ensures formula_variables { (t u : Var → Bool) (s : Var → Expr) (f : Formula) →
        ((v : Var) → IsTrue (t v) → IsTrue (all_variables u (s v))) → IsTrue (all_variables_of t f) →
        IsTrue (all_variables_of u (formula_replaced s f)) }
{}

/// Coefficients and weights depend on what stands for the variables that an expression has: on those
/// that pass a test, where all of its variables do.
pub fn polynomials_depend_on_variables()
    ensures coefficients { (t : Var → Bool) (f g : Var → Coefficients) (e : Expr) →
        ((v : Var) → IsTrue (t v) → f v ≡ g v) → IsTrue (all_variables t e) →
        coefficients f e ≡ coefficients g e }
    ensures weights { (t : Var → Bool) (v w : Var → Weights) (e : Expr) →
        ((x : Var) → IsTrue (t x) → v x ≡ w x) → IsTrue (all_variables t e) → weight v e ≡ weight w e }
{}

/// A renaming that leaves each place is one, and stays one where two of its places change.
pub fn renamings_are_exchanges()
    ensures none { IsRenaming (range_with_len 0 32) }
    ensures exchanged { (to : List ℕ) (i j : ℕ) → i < 32 → j < 32 → IsRenaming to →
        IsRenaming (swap to i j) }
{}

/// Sums, products and multiples of whole multiples of rationals.
pub fn multiples_combine()
    ensures equal { (d : ℕ) (v w q : Rational) → Equals v w → IsTimes d w q → IsTimes d v q }
    ensures sums { (d : ℕ) (v w q r : Rational) → IsTimes d v q → IsTimes d w r →
        IsTimes d (sum v w) (sum q r) }
    ensures products { (d e : ℕ) (v w q r : Rational) → IsTimes d v q → IsTimes e w r →
        IsTimes (d * e) (product v w) (product q r) }
    ensures multiples { (k d : ℕ) (v q : Rational) → IsTimes d v q →
        IsTimes (k * d) (product (whole (pos k)) v) q }
{}

/// The same of polynomials whose coefficients are whole multiples of given ones.
pub fn coefficients_combine()
    ensures sums { (d : ℕ) (xs ys zs : List Term) (f g : Coefficients) → HasCoefficients d xs f →
        HasCoefficients d ys g → ((m : Powers) → coef zs m ≡ coef xs m +ℤ coef ys m) →
        HasCoefficients d zs (λ m. sum (f m) (g m)) }
    ensures products { (d e : ℕ) (xs ys zs : List Term) (f g : Coefficients) →
        HasCoefficients d xs f → HasCoefficients e ys g →
        ((m : Powers) → coef zs m ≡ split_sum m (λ a b. coef xs a *ℤ coef ys b)) →
        HasCoefficients (d * e) zs (times f g) }
    ensures multiples { (k d : ℕ) (xs zs : List Term) (f : Coefficients) → HasCoefficients d xs f →
        ((m : Powers) → coef zs m ≡ pos k *ℤ coef xs m) → HasCoefficients (k * d) zs f }
{}

/// Where variables stand for themselves, an expression that isn't over has a canonical polynomial, and
/// what is the canonical polynomial of an expression, or of the difference of two, has its values. That
/// of an expression is within its weight.
pub fn canonical_polynomials_have_values()
    ensures some { (p : Places) → place_count p ≤ 32 → (e : Expr) →
        IsTrue (all_variables (has_variable p) e) → fits (own_weight p e) ≡ true →
        (ts : List Term) × IsCanonical (own_weight p e).den ts (coefficients (variables p) e) }
    ensures values { (p : Places) → place_count p ≤ 32 → (e : Expr) →
        IsTrue (all_variables (has_variable p) e) → fits (own_weight p e) ≡ true → (ts : List Term) →
        IsCanonical (own_weight p e).den ts (coefficients (variables p) e) →
        (x : Point) (a : Assignment) → IsAt p x a →
        (0 < (own_weight p e).den) × IsTimes (own_weight p e).den (value_at ts x) (value e a) }
    ensures weighed { (p : Places) → place_count p ≤ 32 → (e : Expr) →
        IsTrue (all_variables (has_variable p) e) → fits (own_weight p e) ≡ true → (ts : List Term) →
        IsCanonical (own_weight p e).den ts (coefficients (variables p) e) → IsWeighed ts (own_weight p e) }
    ensures differences { (p : Places) → place_count p ≤ 32 → (e f : Expr) →
        IsTrue (all_variables (has_variable p) e) → IsTrue (all_variables (has_variable p) f) →
        fits (weight_between p (own_weights (place_count p)) e f) ≡ true → (ts : List Term) →
        IsCanonical (weight_between p (own_weights (place_count p)) e f).den ts
        (λ m. difference (coefficients (variables p) e m) (coefficients (variables p) f m)) →
        (x : Point) (a : Assignment) → IsAt p x a →
        (0 < (weight_between p (own_weights (place_count p)) e f).den) ×
        IsTimes (weight_between p (own_weights (place_count p)) e f).den (value_at ts x)
        (difference (value e a) (value f a)) }
{}

/// A term within the bounds is a polynomial, unless its coefficient is 0; then the empty list is.
pub fn terms_are_polynomials()
    ensures poly { (t : Term) → length t.mono.powers ≡ 32 → sum_of t.mono.powers ≤ 48 →
        unsigned_abs t.coef < 2 ^ 126 → IsPoly (unless_zero t) }
    ensures coefficients { (t : Term) (m : Powers) →
        coef (unless_zero t) m ≡ only_at t.mono.powers m t.coef }
    ensures values { (t : Term) (x : Point) →
        Equals (value_at (unless_zero t) x) (product (whole t.coef) (powers_value 0 t.mono.powers x)) }
    ensures sizes { (t : Term) → IsWithin (unless_zero t) (unsigned_abs t.coef) (sum_of t.mono.powers) 1 }
{}

/// A monomial that stands before the first one of a polynomial has the coefficient 0.
pub fn polynomials_are_ordered()
    ensures { (t : Term) (ts : List Term) (m : Mono) → IsPoly (t ∷ ts) → mono_cmp m t.mono ≡ Less →
        coef (t ∷ ts) m.powers ≡ pos 0 }
{}

/// Two polynomials have a sum and a product, and one has its multiples, where these are within the
/// bounds.
pub fn polynomials_add_and_multiply()
    ensures sums { (xs ys : List Term) → IsPoly xs → IsPoly ys → norm xs + norm ys < 2 ^ 126 →
        length xs + length ys < 2 ^ 32 → (zs : List Term) × IsTotal xs ys zs }
    ensures products { (xs ys : List Term) → IsPoly xs → IsPoly ys → norm xs * norm ys < 2 ^ 126 →
        length xs * length ys < 2 ^ 32 → degree xs + degree ys ≤ 48 →
        (zs : List Term) × IsProduct xs ys zs }
    ensures multiples { (k : ℕ) (xs : List Term) → IsPoly xs → 0 < k → norm xs * k < 2 ^ 126 →
        (zs : List Term) × IsPoly zs × ((m : Powers) → coef zs m ≡ pos k *ℤ coef xs m) }
{}
