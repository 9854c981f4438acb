//! The right sides of a package's states.

ghost use Rattle.std.specs.Prelude.{◌≡◌, ◌+◌, ◌<◌, All, Some, IfErr, IfOk, length, slice_get};
ghost use Rattle.vp_words.specs.Record.{IsValid};
ghost use Rattle.vp_terms.specs.WellFormed.{IsWellFormed};
ghost use Rattle.vp_terms.specs.declared.expr.Var.{Var};
ghost use Rattle.vp_poly.specs.Places.{AreBelow, places_for};
ghost use Rattle.vp_flow.specs.Sides.{AreRightSides, IsPolynomialOf, model, polys, side};
ghost use Rattle.vp_flow.specs.Outcome.{AreLinear, Refuses};

use crate::FlowErr;
use crate::uses::first_bent;
use std::alloc::{AllocError, Global};
use vp_poly::laws::places_pass_tests;
use vp_poly::{PolyErr, Scaled, of_expr, plain};
use vp_terms::laws::{
    variables_have_places, variables_pass_tests, well_formed_parts_have_allowed_variables,
};
use vp_terms::{NameText, Package};
use vp_words::Counts;

// The name of a state.
pub(crate) fn name_of(alloc: Global, pkg: &Package, state: usize) -> Result<NameText, AllocError>
    requires { state < length pkg.now.names.states }
    ensures { IfOk result (λ n. slice_get pkg.now.names.states state ≡ Some n) }
{
    let name = pkg.names.states.get()[state].to_string(alloc)?;
    Ok(NameText::of(name))
}

// The canonical polynomials of all right sides.
pub(crate) fn right_sides(
    alloc: Global,
    pkg: &Package,
    counts: Counts,
) -> Result<Vec<Scaled>, FlowErr>
    requires good { IsWellFormed pkg.now }
    requires places { places_for counts ≡ model pkg.now }
    requires valid { IsValid counts }
    ensures sides { IfOk result (λ v. AreRightSides pkg.now v.items) }
    ensures low { IfOk result (λ v. All (λ q. AreBelow (counts.params + counts.states +
        counts.controls) q.poly) v.items) }
    ensures refused { IfErr result (Refuses pkg.now) }
{
    variables_have_places();
    variables_pass_tests();
    well_formed_parts_have_allowed_variables();
    places_pass_tests();
    let env = plain(alloc, counts)?;
    let mut sides = Vec::new(alloc);
    for rate in pkg.plant.rates.get() {
        match of_expr(alloc, rate, counts, &env) {
            Ok(side) => sides.push(side)?,
            Err(PolyErr::Memory) => return Err(FlowErr::Memory),
            Err(PolyErr::Wide) => {
                let name = name_of(alloc, pkg, sides.len())?;
                return Err(FlowErr::Rate { name });
            }
        }
    }
    Ok(sides)
}

// Whether all right sides are linear in the states.
pub(crate) fn check_linear(
    alloc: Global,
    pkg: &Package,
    sides: &[Scaled],
    counts: Counts,
) -> Result<(), FlowErr>
    requires good { IsWellFormed pkg.now }
    requires places { places_for counts ≡ model pkg.now }
    requires sides { AreRightSides pkg.now sides.now }
    ensures linear { IfOk result (λ u. AreLinear pkg.now sides.now) }
    ensures refused { IfErr result (Refuses pkg.now) }
{
    let Some(state) = first_bent(sides, counts) else {
        return Ok(());
    };
    let name = name_of(alloc, pkg, state)?;
    Err(FlowErr::NotLinear { name })
}
