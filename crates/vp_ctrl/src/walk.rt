//! A walk along a way through a controller: what the variables stand for, and the parts so far.
ghost use Rattle.std.specs.Prelude.{◌≡◌, ◌+◌, ◌<◌, ◌≤◌, ◌++◌, ◌∷◌, [], ℕ, Bool, List, IfOk, OnOk, Err, IsTrue, map, true};
ghost use Rattle.vp_terms.specs.Variables.{all_variables, all_variables_of};
ghost use Rattle.vp_terms.specs.declared.expr.Expr.{Expr};
ghost use Rattle.vp_words.specs.Record.{IsValid, place_count};
ghost use Rattle.vp_poly.specs.Canonical.{IsEnvironment};
ghost use Rattle.vp_poly.specs.Places.{places_for};
ghost use Rattle.vp_poly.specs.Replaced.{replaced};
ghost use Rattle.vp_logic.specs.Sized.{IsSized, TreeHasOnly};
ghost use Rattle.vp_logic.specs.Tree.{tree};
ghost use Rattle.vp_ctrl.specs.Steps.{move, moves};
ghost use Rattle.vp_ctrl.specs.Following.{Condition, StandIns, after, at_first, after_all, conditions, equation, instead, of_formula, right_side, right_sides, stands, test};
ghost use Rattle.vp_ctrl.specs.Paths.{AllowsPaths, IsPart, is_on_path};
ghost use Rattle.vp_ctrl.specs.Walked.{AreNarrow, Follows, HasCome, IsGoodMove, IsGoodWay};
ghost use Rattle.vp_ctrl.specs.Widths.{condition_fits, condition_terms};

use crate::hidden::is_given_last;
use crate::ways::Step;
use std::alloc::{AllocError, Global};
use vp_logic::laws::normal_forms_compose;
use vp_logic::{Norm, negate, normal, term_count};
use vp_poly::laws::replacing_composes;
use vp_poly::{PolyErr, Scaled, of_expr, place_in, plain, weights_of};
use vp_terms::laws::places_tell_variables;
use vp_terms::{Cmp, Expr, Formula, Var};
use vp_words::Counts;

/// The most terms that all comparisons of all paths may have.
pub(crate) const MOST_TERMS: u64 = 65536;

/// How far a walk has come.
#[derive(Drop)]
pub(crate) struct Walk {
    /// What stands at each place.
    env: Vec<Scaled>,
    /// The tests so far, and at the end the equations.
    pub(crate) parts: Vec<Norm>,
    /// The terms of their comparisons.
    pub(crate) terms: u64,
}

// The whole walk along a way.
pub(crate) fn follow(alloc: Global, way: &[Step], counts: Counts) -> Result<Walk, PolyErr>
    requires counts { IsValid counts }
    requires good { IsGoodWay (places_for counts) (moves way.now) }
    ensures come { IfOk result (λ w. HasCome (places_for counts) w (after_all at_first (moves way.now))
        (right_sides at_first (moves way.now)) (conditions counts.controls (moves way.now))) }
    ensures wide { result ≡ Err PolyErr.Wide → ¬ AreNarrow (places_for counts)
        (right_sides at_first (moves way.now)) (conditions counts.controls (moves way.now)) }
{
    let mut walk = Walk::start(alloc, counts)?;
    for step in way {
        walk.take(alloc, step, counts)?;
    }
    for control in 0..counts.controls {
        walk.end(alloc, way, u32::from(control), counts)?;
    }
    Ok(walk)
}

impl Walk {
    // Each variable stands for itself, and there are no parts.
    fn start(alloc: Global, counts: Counts) -> Result<Walk, AllocError>
        requires { IsValid counts }
        ensures { IfOk result (λ w. HasCome (places_for counts) w at_first [] []) }
    {
        Ok(Walk {
            env: plain(alloc, counts)?,
            parts: Vec::new(alloc),
            terms: 0,
        })
    }

    // Goes on by one statement.
    fn take(&mut self, alloc: Global, step: &Step, counts: Counts) -> Result<(), PolyErr>
        requires good { IsGoodMove (places_for counts) (move step.now) }
        requires environment { IsEnvironment (place_count counts) self.old.env.items }
        ensures come { (s : StandIns) (rs : List Expr) (cs : List Condition) → HasCome (places_for counts) self.old s rs cs →
            OnOk result (HasCome (places_for counts) self.new (after s (move step.now))
            (rs ++ right_side s (move step.now)) (cs ++ test s (move step.now))) }
        ensures wide { (s : StandIns) (rs : List Expr) (cs : List Condition) → HasCome (places_for counts) self.old s rs cs →
            result ≡ Err PolyErr.Wide → ¬ AreNarrow (places_for counts) (rs ++ right_side s (move step.now)) (cs ++ test s (move step.now)) }
    {
        match step {
            Step::Assign(control, value) => self.put(alloc, *control, value, counts),
            Step::Any(control) => {
                let next = Expr::Var(Var::NextControl(*control));
                self.put(alloc, *control, &next, counts)
            }
            Step::Test(formula) => self.test(alloc, formula, false, counts),
            Step::Deny(formula) => self.test(alloc, formula, true, counts),
        }
    }

    // The control stands for the expression from now on.
    fn put(
        &mut self,
        alloc: Global,
        control: u32,
        value: &Expr,
        counts: Counts,
    ) -> Result<(), PolyErr>
        requires control { control < counts.controls }
        requires variables { IsTrue (all_variables (is_on_path (places_for counts)) value.now) }
        requires environment { IsEnvironment (place_count counts) self.old.env.items }
        ensures come { (s : StandIns) (rs : List Expr) (cs : List Condition) → HasCome (places_for counts) self.old s rs cs →
            OnOk result (HasCome (places_for counts) self.new (instead s control (replaced (stands s) value.now))
            (rs ++ replaced (stands s) value.now ∷ []) cs) }
        ensures wide { (s : StandIns) (rs : List Expr) (cs : List Condition) → HasCome (places_for counts) self.old s rs cs →
            result ≡ Err PolyErr.Wide → ¬ AreNarrow (places_for counts) (rs ++ replaced (stands s) value.now ∷ []) cs }
    {
        places_tell_variables();
        replacing_composes();
        let scaled = of_expr(alloc, value, counts, &self.env)?;
        let place = place_in(Var::Control(control), counts);
        self.env[place] = scaled;
        Ok(())
    }

    // One more part: the formula holds, or it is denied.
    fn test(
        &mut self,
        alloc: Global,
        formula: &Formula,
        denied: bool,
        counts: Counts,
    ) -> Result<(), PolyErr>
        requires variables { IsTrue (all_variables_of (is_on_path (places_for counts)) formula.now) }
        requires environment { IsEnvironment (place_count counts) self.old.env.items }
        ensures come { (s : StandIns) (rs : List Expr) (cs : List Condition) → HasCome (places_for counts) self.old s rs cs →
            OnOk result (HasCome (places_for counts) self.new s rs (cs ++ of_formula s formula.now denied ∷ [])) }
        ensures wide { (s : StandIns) (rs : List Expr) (cs : List Condition) → HasCome (places_for counts) self.old s rs cs →
            result ≡ Err PolyErr.Wide → ¬ AreNarrow (places_for counts) rs (cs ++ of_formula s formula.now denied ∷ []) }
    {
        normal_forms_compose();
        let weights = weights_of(alloc, &self.env)?;
        let terms = self
            .terms
            .saturating_add(term_count(formula, counts, &weights));
        if terms > MOST_TERMS {
            return Err(PolyErr::Wide);
        }
        let part = part(alloc, formula, denied, counts, &self.env)?;
        self.add(part, terms)?;
        Ok(())
    }

    // One more part, with which there are so many terms.
    fn add(&mut self, part: Norm, terms: u64) -> Result<(), AllocError>
        ensures env { OnOk result (self.new.env ≡ self.old.env) }
        ensures parts { OnOk result (self.new.parts.items ≡ self.old.parts.items ++ part ∷ []) }
        ensures terms { OnOk result (self.new.terms ≡ terms) }
    {
        self.parts.push(part)?;
        self.terms = terms;
        Ok(())
    }

    // The equation of the control's next value and what it stands for, unless `:= *` gave it last.
    fn end(
        &mut self,
        alloc: Global,
        way: &[Step],
        control: u32,
        counts: Counts,
    ) -> Result<(), PolyErr>
        requires control { control < counts.controls }
        requires environment { IsEnvironment (place_count counts) self.old.env.items }
        ensures come { (s : StandIns) (rs : List Expr) (cs : List Condition) → HasCome (places_for counts) self.old s rs cs →
            OnOk result (HasCome (places_for counts) self.new s rs (cs ++ equation s (moves way.now) control)) }
        ensures wide { (s : StandIns) (rs : List Expr) (cs : List Condition) → HasCome (places_for counts) self.old s rs cs →
            result ≡ Err PolyErr.Wide → ¬ AreNarrow (places_for counts) rs (cs ++ equation s (moves way.now) control) }
    {
        if is_given_last(way, control) {
            return Ok(());
        }
        let next = Expr::Var(Var::NextControl(control));
        let last = Expr::Var(Var::Control(control));
        self.test(alloc, &Formula::Cmp(Cmp::Eq, next, last), false, counts)
    }
}

// The normal form of a formula, negated where it is denied.
fn part(
    alloc: Global,
    formula: &Formula,
    denied: bool,
    counts: Counts,
    env: &[Scaled],
) -> Result<Norm, PolyErr>
    requires variables { IsTrue (all_variables_of (is_on_path (places_for counts)) formula.now) }
    requires environment { IsEnvironment (place_count counts) env.now }
    ensures form { (s : StandIns) → Follows (places_for counts) env.now s →
        IfOk result (λ n. IsPart (places_for counts) (of_formula s formula.now denied) (tree n)) }
    ensures fits { (s : StandIns) → Follows (places_for counts) env.now s →
        OnOk result (condition_fits (places_for counts) (of_formula s formula.now denied) ≡ true) }
    ensures wide { (s : StandIns) → Follows (places_for counts) env.now s → result ≡ Err PolyErr.Wide →
        condition_fits (places_for counts) (of_formula s formula.now denied) ≡ true →
        65536 < condition_terms (places_for counts) (of_formula s formula.now denied) }
    ensures sized { IfOk result (λ n. IsSized (place_count counts) (tree n)) }
    ensures only { (s : StandIns) → Follows (places_for counts) env.now s → (allowed : ℕ → Bool) →
        AllowsPaths (places_for counts) allowed → IfOk result (λ n. TreeHasOnly allowed (tree n)) }
{
    normal_forms_compose();
    let form = normal(alloc, formula, counts, env)?;
    if denied {
        let negated = negate(alloc, &form)?;
        Ok(negated)
    } else {
        Ok(form)
    }
}
