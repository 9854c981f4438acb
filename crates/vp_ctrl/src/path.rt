//! The paths of a controller.
ghost use Rattle.std.specs.Prelude.{◌≡◌, ◌↔◌, ◌+◌, ◌*◌, ◌<◌, ◌≤◌, ◌++◌, ◌∷◌, [], ℕ, Bool, OnOk, IfErr, IfOk, IsOk, IsTrue, Err, true, false, None, Some, length, slice_get};
ghost use Rattle.vp_terms.specs.Control.{AgreeFrom, Ctrl, Values, changing};
ghost use Rattle.vp_terms.specs.Rational.{Rational};
ghost use Rattle.vp_terms.specs.WellFormed.{IsWellFormed, places_of, prog_comparisons};
ghost use Rattle.vp_terms.specs.Places.{place_count};
ghost use Rattle.vp_words.specs.Record.{IsValid};
ghost use Rattle.vp_poly.specs.Places.{places_for};
ghost use Rattle.vp_poly.specs.Points.{IsAt};
ghost use Rattle.vp_poly.specs.Value.{Point};
ghost use Rattle.vp_ctrl.specs.Steps.{listed};
ghost use Rattle.vp_ctrl.specs.Ways.{way_count, ways};
ghost use Rattle.vp_ctrl.specs.Hidden.{first_hidden};
ghost use Rattle.vp_ctrl.specs.Widths.{ways_are_narrow};
ghost use Rattle.vp_ctrl.specs.Walked.{AreGoodWays, HaveCome};
ghost use Rattle.vp_ctrl.specs.Paths.{AllowsPaths, ArePaths, EachPathHasFew, EachPathHasOnly, EachPathIsSized, Refuses, some_path_holds};

use crate::hidden::first_hidden;
use crate::laws::{paths_are_bounded, paths_hold_where_controllers_lead, ways_are_counted};
use crate::walk::{MOST_TERMS, Walk, follow};
use crate::ways::{Step, way_count, ways};
use std::alloc::{AllocError, Global};
use vp_logic::Norm;
use vp_poly::{PolyErr, counts_of};
use vp_terms::{Items, NameText, Names, Package};
use vp_words::Counts;

/// A path through a controller: its parts all hold, at the values before it and after it.
#[derive(Drop)]
pub struct Path {
    /// The normal forms of its tests in order, and then, for each control in order that `:= *`
    /// didn't give last, the equation of its next value and what it has then.
    pub parts: Items<Norm>,
}

/// Why a controller has no paths: the first condition that holds, in this order.
#[derive(Debug, Drop)]
pub enum PathErr {
    /// There are more than 256 paths: their number, or 2^64 - 1 where it is greater.
    Paths { count: u64 },
    /// On some path a control that `:= *` has given changes again: the first such control along the
    /// first such path.
    Hidden { name: NameText },
    /// An assigned right side or a comparison is over, or the comparisons of all paths have more
    /// than 65,536 terms.
    Wide,
    /// There was too little memory for the paths.
    Memory,
}

impl From<AllocError> for PathErr {
    ghost use Rattle.std.specs.Prelude.{◌≡◌};
    ghost use Rattle.vp_ctrl.specs.declared.path.PathErr.TheVariants.{Memory};

    ghost from_gives = { λ _ e. e ≡ Memory };

    fn from(_error: AllocError) -> PathErr {
        PathErr::Memory
    }
}

impl From<PolyErr> for PathErr {
    ghost use Rattle.vp_ctrl.specs.Paths.{of_poly};

    ghost from_gives = { λ e f. f ≡ of_poly e };

    fn from(error: PolyErr) -> PathErr {
        match error {
            PolyErr::Wide => PathErr::Wide,
            PolyErr::Memory => PathErr::Memory,
        }
    }
}

/// The most paths that are made.
const MOST_PATHS: u64 = 256;

/// The paths of a package's controller. The rules stand in `docs/monitors.md`.
pub fn paths(alloc: Global, pkg: &Package) -> Result<Vec<Path>, PathErr>
    requires { IsWellFormed pkg.now }

    // Each path has the parts of its way.
    ensures exact { IfOk result (λ v. ArePaths (places_of pkg.now.names) (ways pkg.now.ctrl) v.items) }

    ensures count { IfOk result (λ v. length v.items ≡ way_count pkg.now.ctrl) }

    // Each refusal comes exactly where it is due.
    ensures few { IsOk result → way_count pkg.now.ctrl ≤ 256 }
    ensures open { IsOk result → first_hidden (ways pkg.now.ctrl) ≡ None }
    ensures narrow { IsOk result → ways_are_narrow (places_of pkg.now.names) (ways pkg.now.ctrl) ≡ true }
    ensures refuses { IfErr result (Refuses pkg.now) }

    // Where a point has the values of a round, all parts of some path hold there exactly where the
    // controller leads from the controls before to those behind.
    ensures meaning { (z : Point) (p x u v y : Values) (t : Rational) →
        IsAt (places_of pkg.now.names) z (changing p x u v t y) →
        AgreeFrom (length pkg.now.names.controls) u v →
        IfOk result (λ w. IsTrue (some_path_holds z w.items) ↔ Ctrl pkg.now.ctrl p x u v) }

    // Each polynomial has a norm below 2^62, a degree of at most 12, and no next state and no time.
    ensures sized { IfOk result (λ v. EachPathIsSized (place_count (places_of pkg.now.names)) v.items) }
    ensures only { (allowed : ℕ → Bool) → AllowsPaths (places_of pkg.now.names) allowed →
        IfOk result (λ v. EachPathHasOnly allowed v.items) }
    ensures atoms { IfOk result (λ v. EachPathHasFew
        (4 * (prog_comparisons pkg.now.ctrl + length pkg.now.names.controls)) v.items) }
{
    ways_are_counted();
    paths_are_bounded();
    paths_hold_where_controllers_lead();
    let count = way_count(&pkg.ctrl);
    if count > MOST_PATHS {
        return Err(PathErr::Paths { count });
    }
    let ways = ways(alloc, &pkg.ctrl)?;
    if let Some(control) = first_hidden(&ways) {
        let name = name_of(alloc, &pkg.names, control)?;
        return Err(PathErr::Hidden { name });
    }
    let paths = follow_all(alloc, &ways, counts_of(&pkg.names))?;
    Ok(paths)
}

// The paths of all ways.
fn follow_all(alloc: Global, ways: &[Vec<Step>], counts: Counts) -> Result<Vec<Path>, PolyErr>
    requires counts { IsValid counts }
    requires good { AreGoodWays (places_for counts) (listed ways.now) }
    ensures come { IfOk result (λ v. HaveCome (places_for counts) (listed ways.now) v.items) }
    ensures narrow { IsOk result → ways_are_narrow (places_for counts) (listed ways.now) ≡ true }
    ensures wide { result ≡ Err PolyErr.Wide → ways_are_narrow (places_for counts) (listed ways.now) ≡ false }
{
    let mut paths = Vec::new(alloc);
    let mut terms: u64 = 0;
    for way in ways {
        let walk = follow(alloc, way, counts)?;
        terms = terms.saturating_add(walk.terms);
        if terms > MOST_TERMS {
            return Err(PolyErr::Wide);
        }
        push_path(&mut paths, walk)?;
    }
    Ok(paths)
}

// One more path: that of the walk.
fn push_path(paths: &mut Vec<Path>, walk: Walk) -> Result<(), AllocError>
    ensures { OnOk result (paths.new.items ≡ paths.old.items ++ (record { parts = walk.parts.items }) ∷ []) }
{
    paths.push(Path {
        parts: Items::of(walk.parts),
    })?;
    Ok(())
}

// A copy of a control's name.
fn name_of(alloc: Global, names: &Names, control: u32) -> Result<NameText, AllocError>
    requires { control < length names.now.controls }
    ensures { IfOk result (λ n. slice_get names.now.controls control ≡ Some n) }
{
    let name = names.controls.get()[control as usize].as_str();
    Ok(NameText::of(name.to_string(alloc)?))
}
