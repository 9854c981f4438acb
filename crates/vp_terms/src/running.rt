//! A slow evaluator of controllers, which says what they mean. Like that of expressions, it is no
//! part of the product's runs.
ghost use Rattle.std.specs.Prelude.{◌≡◌, ◌↔◌, ◌+◌, ◌<◌, ℕ, ⊤, IsTrue, IsSome, IfSome, length};
ghost use Rattle.vp_terms.specs.Control.{Values, Ctrl, Sets};
ghost use Rattle.vp_terms.specs.WellFormed.{is_good_prog};
ghost use Rattle.vp_terms.specs.Rational.{Equals};
ghost use Rattle.vp_terms.specs.Meaning.{rational};
ghost use Rattle.vp_terms.specs.Evaluation.{value_in};
ghost use Rattle.vp_terms.specs.Running.{StandFor, KeepsGiven, RunIsSmall};
ghost use Rattle.vp_terms.specs.Continuing.{Leads, RestLeads, Keeps, RestKeeps, RestIsSmall, is_good_rest};

use crate::{Cmp, Places, Prog, Ratio, Var, holds_at, value_at};

// What is left to run.
#[derive(Drop)]
enum Rest<'a> {
    End,
    Then(&'a Prog, &'a Rest<'a>),
}

/// Whether the program leads from the controls in `values` to those in `after`. `values` has the
/// parameters, the states and the controls, in this order, and is left as it was. Each `:= *` gives
/// the value that stands in `after`, so that the answer `false` is exact only where no control that
/// `:= *` gave is changed again. None exactly where a run meets an expression or a formula some part
/// of which has no value in lowest terms below 2^62 in size.
pub fn leads_to(prog: &Prog, places: Places, values: &mut [Ratio], after: &[Ratio]) -> Option<bool>
    requires good { IsTrue (is_good_prog places prog.now) }
    requires values { length values.old ≡ places.params + places.states + places.controls }
    requires after { length after.now ≡ places.controls }
    ensures sound { (p x u v : Values) → StandFor places values.old after.now p x u v →
        IfSome result (λ b. IsTrue b → Ctrl prog.now p x u v) }
    ensures complete { (p x u v : Values) → StandFor places values.old after.now p x u v →
        KeepsGiven prog.now → IfSome result (λ b. Ctrl prog.now p x u v → IsTrue b) }
    ensures small { (p x u v : Values) → StandFor places values.old after.now p x u v →
        IsSome result ↔ RunIsSmall prog.now p x v (λ w. ⊤) u }
    ensures same { values.new ≡ values.old }
{
    leads(prog, &Rest::End, places, values, after)
}

// Whether the program and then the rest lead to the controls in `after`.
#[cycle(lead)]
fn leads(
    prog: &Prog,
    rest: &Rest,
    places: Places,
    values: &mut [Ratio],
    after: &[Ratio],
) -> Option<bool>
    requires good { IsTrue (is_good_prog places prog.now) }
    requires good_rest { IsTrue (is_good_rest places rest.now) }
    requires values { length values.old ≡ places.params + places.states + places.controls }
    requires after { length after.now ≡ places.controls }
    ensures sound { (p x u v : Values) → StandFor places values.old after.now p x u v →
        IfSome result (λ b. IsTrue b → Leads prog.now rest.now p x u v) }
    ensures complete { (p x u v : Values) → StandFor places values.old after.now p x u v →
        Keeps prog.now rest.now → IfSome result (λ b. Leads prog.now rest.now p x u v → IsTrue b) }
    ensures small { (p x u v : Values) → StandFor places values.old after.now p x u v →
        IsSome result ↔ RunIsSmall prog.now p x v (RestIsSmall rest.now p x v) u }
    ensures same { values.new ≡ values.old }
{
    match prog {
        Prog::Skip => goes_on(rest, places, values, after),
        Prog::Assign(control, expr) => {
            let value = value_at(expr, places, values)?;
            goes_on_with(*control, value, rest, places, values, after)
        }
        Prog::Any(control) => {
            let value = after[*control as usize];
            goes_on_with(*control, value, rest, places, values, after)
        }
        Prog::Test(formula) => {
            if holds_at(formula, places, values)? {
                goes_on(rest, places, values, after)
            } else {
                Some(false)
            }
        }
        Prog::Choice(one, other) => {
            let left = leads(one, rest, places, values, after)?;
            let right = leads(other, rest, places, values, after)?;
            Some(left || right)
        }
        Prog::Seq(first, second) => leads(first, &Rest::Then(second, rest), places, values, after),
        Prog::If(formula, a, b) => {
            if holds_at(formula, places, values)? {
                leads(a, rest, places, values, after)
            } else {
                leads(b, rest, places, values, after)
            }
        }
    }
}

// Whether the rest leads to the controls in `after`.
#[cycle(lead)]
fn goes_on(rest: &Rest, places: Places, values: &mut [Ratio], after: &[Ratio]) -> Option<bool>
    requires good_rest { IsTrue (is_good_rest places rest.now) }
    requires values { length values.old ≡ places.params + places.states + places.controls }
    requires after { length after.now ≡ places.controls }
    ensures sound { (p x u v : Values) → StandFor places values.old after.now p x u v →
        IfSome result (λ b. IsTrue b → RestLeads rest.now p x u v) }
    ensures complete { (p x u v : Values) → StandFor places values.old after.now p x u v →
        RestKeeps rest.now → IfSome result (λ b. RestLeads rest.now p x u v → IsTrue b) }
    ensures small { (p x u v : Values) → StandFor places values.old after.now p x u v →
        IsSome result ↔ RestIsSmall rest.now p x v u }
    ensures same { values.new ≡ values.old }
{
    match rest {
        Rest::End => Some(are_the_controls(places, values, after)),
        Rest::Then(prog, behind) => leads(prog, behind, places, values, after),
    }
}

// Whether the rest leads to the controls in `after` once the control has the value.
#[cycle(lead)]
fn goes_on_with(
    control: u32,
    value: Ratio,
    rest: &Rest,
    places: Places,
    values: &mut [Ratio],
    after: &[Ratio],
) -> Option<bool>
    requires control { control < places.controls }
    requires good_rest { IsTrue (is_good_rest places rest.now) }
    requires values { length values.old ≡ places.params + places.states + places.controls }
    requires after { length after.now ≡ places.controls }
    ensures sound { (p x u w v : Values) → StandFor places values.old after.now p x u v →
        Sets control (rational value) u w → IfSome result (λ b. IsTrue b → RestLeads rest.now p x w v) }
    ensures complete { (p x u w v : Values) → StandFor places values.old after.now p x u v →
        Sets control (rational value) u w → RestKeeps rest.now →
        IfSome result (λ b. RestLeads rest.now p x w v → IsTrue b) }
    ensures small { (p x u w v : Values) → StandFor places values.old after.now p x u v →
        Sets control (rational value) u w → IsSome result ↔ RestIsSmall rest.now p x v w }
    ensures same { values.new ≡ values.old }
{
    let place = Var::Control(control).place(places) as usize;
    let before = values[place];
    values[place] = value;
    let result = goes_on(rest, places, values, after);
    values[place] = before;
    result
}

// Whether the controls in `values` have the values in `after`.
fn are_the_controls(places: Places, values: &[Ratio], after: &[Ratio]) -> bool
    requires values { length values.now ≡ places.params + places.states + places.controls }
    requires after { length after.now ≡ places.controls }
    ensures { IsTrue result ↔ ((k : ℕ) → k < places.controls →
        Equals (value_in values.now (places.params + places.states + k)) (value_in after.now k)) }
{
    let first = places.params as usize + places.states as usize;
    let controls = &values[first..];
    for (i, control) in controls.iter().enumerate() {
        if !control.compares(Cmp::Eq, after[i]) {
            return false;
        }
    }
    true
}
