//! The parts of the obligations.
ghost use Rattle.std.specs.Prelude.{◌≡◌, ◌<◌, ◌∷◌, [], ℕ, IfErr, IfOk, IsTrue, map, true};
ghost use Rattle.vp_words.specs.Record.{IsValid};
ghost use Rattle.vp_terms.specs.Places.{place_count};
ghost use Rattle.vp_terms.specs.WellFormed.{IsWellFormed, in_model, is_good_expr};
ghost use Rattle.vp_terms.specs.declared.expr.Expr.TheVariants.{Var as Variable};
ghost use Rattle.vp_terms.specs.declared.expr.Var.TheVariants.{NextControl};
ghost use Rattle.vp_terms.specs.declared.formula.Cmp.TheVariants as cmp;
ghost use Rattle.vp_terms.specs.declared.formula.Formula.TheVariants.{Cmp as Compare};
ghost use Rattle.vp_poly.specs.Places.{places_for};
ghost use Rattle.vp_logic.specs.Sized.{EachIsSized, IsSized};
ghost use Rattle.vp_logic.specs.Tree.{AnyOf, members, negated, tree};
ghost use Rattle.vp_ctrl.specs.Paths.{EachPathIsSized, parts_of};
ghost use Rattle.vp_flow.specs.Sides.{model};
ghost use Rattle.vp_monitor.specs.Exchange.{actuating};
ghost use Rattle.vp_monitor.specs.Meaning.{AreSized};
ghost use Rattle.vp_monitor.specs.Obligations.{AreEquations, AreFallbackParts, AreStepParts, EachIsRenamed, IsMemory, init_parts, path_tree, safe_parts};
ghost use Rattle.vp_monitor.specs.Plant.{IsOwnNormal};
ghost use Rattle.vp_monitor.specs.Refusals.{Passes, difference_fits};
ghost use Rattle.vp_monitor.specs.Standing.{AreSelves};

use crate::comparing::difference;
use crate::exchange::{actuating, keeping, priming};
use crate::standing::selves;
use crate::{MonErr, Monitors};
use std::alloc::{AllocError, Global};
use vp_ctrl::Path;
use vp_logic::{Norm, Rel, all_of, any_of, negate, rename};
use vp_poly::{PolyErr, Scaled};
use vp_terms::laws::{
    places_tell_variables, variables_have_places, variables_pass_tests,
    well_formed_parts_have_allowed_variables,
};
use vp_terms::{Expr, Package, Var};
use vp_words::Counts;

/// The parts of the obligation Init: it may start here, and the invariant doesn't hold.
pub(crate) fn init_parts(alloc: Global, m: &Monitors) -> Result<Vec<Norm>, AllocError>
    ensures parts { IfOk result (λ v. map tree v.items ≡ init_parts m.now) }
    ensures sized { AreSized m.now →
        IfOk result (λ v. EachIsSized (place_count (places_for m.now.counts)) (map tree v.items)) }
{
    denied(alloc, &m.init, &m.inv)
}

/// The parts of the obligation Safe: the invariant holds, and it isn't safe.
pub(crate) fn safe_parts(alloc: Global, m: &Monitors) -> Result<Vec<Norm>, AllocError>
    ensures parts { IfOk result (λ v. map tree v.items ≡ safe_parts m.now) }
    ensures sized { AreSized m.now →
        IfOk result (λ v. EachIsSized (place_count (places_for m.now.counts)) (map tree v.items)) }
{
    denied(alloc, &m.inv, &m.safe)
}

/// The parts of the obligation Step: the invariant holds, the controller makes a choice, the plant takes
/// a step under it, and the invariant doesn't hold behind it.
pub(crate) fn step_parts(alloc: Global, m: &Monitors) -> Result<Vec<Norm>, AllocError>
    requires { IsValid m.now.counts }
    ensures parts { IfOk result (λ v. AreStepParts m.now (map tree v.items)) }
    ensures sized { AreSized m.now →
        IfOk result (λ v. EachIsSized (place_count (places_for m.now.counts)) (map tree v.items)) }
{
    places_tell_variables();
    let inv = copied(alloc, &m.inv)?;
    let paths = some_path(alloc, m.paths.get())?;
    let mut plant = actuated(alloc, m.plant.get(), m.counts)?;
    let next = rename(alloc, &m.inv, &priming(m.counts))?;
    let denied = negate(alloc, &next)?;
    let mut parts = Vec::new(alloc);
    parts.push(inv)?;
    parts.push(paths)?;
    parts.append(&mut plant)?;
    parts.push(denied)?;
    Ok(parts)
}

/// The parts of the obligation Fallback: the invariant holds, the next controls are those of the
/// fallback, and no path allows them.
pub(crate) fn fallback_parts(
    alloc: Global,
    pkg: &Package,
    m: &Monitors,
) -> Result<Vec<Norm>, MonErr>
    requires good { IsWellFormed pkg.now }
    requires places { places_for m.now.counts ≡ model pkg.now }
    requires valid { IsValid m.now.counts }
    requires passes { Passes pkg.now }
    ensures parts { IfOk result (λ v. AreFallbackParts pkg.now m.now (map tree v.items)) }
    ensures sized { AreSized m.now →
        IfOk result (λ v. EachIsSized (place_count (places_for m.now.counts)) (map tree v.items)) }
    ensures memory { IfErr result IsMemory }
{
    let inv = copied(alloc, &m.inv)?;
    let mut equations = equations(alloc, pkg, m.counts)?;
    let mut denials = denied_paths(alloc, m.paths.get())?;
    let mut parts = Vec::new(alloc);
    parts.push(inv)?;
    parts.append(&mut equations)?;
    parts.append(&mut denials)?;
    Ok(parts)
}

// One form, and that another doesn't hold.
fn denied(alloc: Global, one: &Norm, other: &Norm) -> Result<Vec<Norm>, AllocError>
    ensures parts { IfOk result (λ v. map tree v.items ≡ tree one.now ∷ negated (tree other.now) ∷ []) }
    ensures sized { (n : ℕ) → IsSized n (tree one.now) → IsSized n (tree other.now) →
        IfOk result (λ v. EachIsSized n (map tree v.items)) }
{
    let holds = copied(alloc, one)?;
    let fails = negate(alloc, other)?;
    let mut parts = Vec::new(alloc);
    parts.push(holds)?;
    parts.push(fails)?;
    Ok(parts)
}

// The same form once more.
fn copied(alloc: Global, n: &Norm) -> Result<Norm, AllocError>
    ensures { IfOk result (λ m. tree m ≡ tree n.now) }
{
    rename(alloc, n, &keeping())
}

// The plant's conjuncts under the next controls.
fn actuated(alloc: Global, plant: &[Norm], counts: Counts) -> Result<Vec<Norm>, AllocError>
    requires { IsValid counts }
    ensures parts { IfOk result (λ v. EachIsRenamed (actuating (places_for counts)) (map tree plant.now) (map tree v.items)) }
    ensures sized { EachIsSized (place_count (places_for counts)) (map tree plant.now) →
        IfOk result (λ v. EachIsSized (place_count (places_for counts)) (map tree v.items)) }
{
    places_tell_variables();
    let to = actuating(counts);
    let mut all = Vec::new(alloc);
    for conjunct in plant {
        let renamed = rename(alloc, conjunct, &to)?;
        all.push(renamed)?;
    }
    Ok(all)
}

// Some path holds.
fn some_path(alloc: Global, paths: &[Path]) -> Result<Norm, AllocError>
    ensures form { IfOk result (λ n. tree n ≡ AnyOf (members (map path_tree paths.now))) }
    ensures sized { (n : ℕ) → EachPathIsSized n paths.now → IfOk result (λ m. IsSized n (tree m)) }
{
    let mut forms = Vec::new(alloc);
    for path in paths {
        let form = path_form(alloc, path)?;
        forms.push(form)?;
    }
    let some = any_of(alloc, forms)?;
    Ok(some)
}

// No path holds, one part for each.
fn denied_paths(alloc: Global, paths: &[Path]) -> Result<Vec<Norm>, AllocError>
    ensures parts { IfOk result (λ v. map tree v.items ≡ map (λ path. negated (path_tree path)) paths.now) }
    ensures sized { (n : ℕ) → EachPathIsSized n paths.now → IfOk result (λ v. EachIsSized n (map tree v.items)) }
{
    let mut denials = Vec::new(alloc);
    for path in paths {
        let form = path_form(alloc, path)?;
        let denial = negate(alloc, &form)?;
        denials.push(denial)?;
    }
    Ok(denials)
}

// All parts of the path hold.
fn path_form(alloc: Global, path: &Path) -> Result<Norm, AllocError>
    ensures form { IfOk result (λ n. tree n ≡ path_tree path.now) }
    ensures sized { (n : ℕ) → EachIsSized n (parts_of path.now) → IfOk result (λ m. IsSized n (tree m)) }
{
    let mut parts = Vec::new(alloc);
    for part in path.parts.get() {
        let copy = copied(alloc, part)?;
        parts.push(copy)?;
    }
    let form = all_of(alloc, parts)?;
    Ok(form)
}

// The next value of each control is that of its fallback.
fn equations(alloc: Global, pkg: &Package, counts: Counts) -> Result<Vec<Norm>, MonErr>
    requires good { IsWellFormed pkg.now }
    requires places { places_for counts ≡ model pkg.now }
    requires valid { IsValid counts }
    requires passes { Passes pkg.now }
    ensures equations { IfOk result (λ v. AreEquations (places_for counts) 0 pkg.now.fallback (map tree v.items)) }
    ensures sized { IfOk result (λ v. EachIsSized (place_count (places_for counts)) (map tree v.items)) }
    ensures memory { IfErr result IsMemory }
{
    let env = selves(alloc, counts)?;
    let mut all = Vec::new(alloc);
    for (k, value) in pkg.fallback.get().iter().enumerate() {
        let equation = equation(alloc, k as u32, value, counts, &env)?;
        all.push(equation)?;
    }
    Ok(all)
}

// The next value of the control is this one. No polynomial is over.
fn equation(
    alloc: Global,
    control: u32,
    value: &Expr,
    counts: Counts,
    env: &[Scaled],
) -> Result<Norm, MonErr>
    requires control { control < counts.controls }
    requires good { IsTrue (is_good_expr in_model (places_for counts) value.now) }
    requires env { AreSelves counts env.now }
    requires fits { difference_fits (places_for counts) (Variable (NextControl control)) value.now ≡ true }
    ensures form { IfOk result (λ n. IsOwnNormal (places_for counts) (Compare cmp.Eq (Variable (NextControl control)) value.now) (tree n)) }
    ensures sized { IfOk result (λ n. IsSized (place_count (places_for counts)) (tree n)) }
    ensures memory { IfErr result IsMemory }
{
    variables_have_places();
    variables_pass_tests();
    well_formed_parts_have_allowed_variables();
    let next = Expr::Var(Var::NextControl(control));
    match difference(alloc, Rel::Eq, &next, value, counts, env) {
        Ok(equation) => Ok(equation),
        Err(PolyErr::Memory) => Err(MonErr::Memory),
        Err(PolyErr::Wide) => unreachable!(),
    }
}
