//! Normal forms with their places renamed.
ghost use Rattle.std.specs.Prelude.{◌≡◌, ℕ, Bool, IfOk};
ghost use Rattle.vp_poly.specs.Places.{HaveOnly, IsRenaming, SendsAllowed, point_before};
ghost use Rattle.vp_poly.specs.Value.{Point};
ghost use Rattle.vp_logic.specs.Renamed.{IsRenamedAtom, IsRenamed, AreRenamed, KeepsPlaces, SendsBelow};
ghost use Rattle.vp_logic.specs.Sized.{IsSizedAtom, IsSized, AreSized, TreeHasOnly, TreesHaveOnly};
ghost use Rattle.vp_logic.specs.Truth.{atom_holds, tree_holds, all_hold, any_holds};
ghost use Rattle.vp_logic.specs.Tree.{tree, trees};

use crate::{Atom, Norm, Norms};
use std::alloc::{AllocError, Global};

/// The same form with the exponent of each place k moved to the place `to[k]`. It holds at a point
/// exactly where this form does at the point whose place k has the value of place `to[k]`. With
/// each place sent to itself it is a copy.
#[cycle(rename)]
pub fn rename(alloc: Global, n: &Norm, to: &[u8; 32]) -> Result<Norm, AllocError>
    requires { IsRenaming to.now }
    ensures form { IfOk result (λ m. IsRenamed to.now (tree n.now) (tree m)) }
    ensures holds { IfOk result (λ m. (x : Point) → tree_holds (tree m) x ≡ tree_holds (tree n.now) (point_before to.now x)) }
    ensures copy { KeepsPlaces to.now → IfOk result (λ m. tree m ≡ tree n.now) }
    ensures sized { (v w : ℕ) → IsSized v (tree n.now) → SendsBelow to.now v w → IfOk result (λ m. IsSized w (tree m)) }
    ensures only { (allowed kept : ℕ → Bool) → TreeHasOnly allowed (tree n.now) →
        SendsAllowed to.now allowed kept → IfOk result (λ m. TreeHasOnly kept (tree m)) }
{
    match n {
        Norm::Atom(atom) => Ok(Norm::Atom(rename_atom(alloc, atom, to)?)),
        Norm::And(members) => Ok(Norm::And(Box::new(alloc, rename_each(alloc, members, to)?)?)),
        Norm::Or(members) => Ok(Norm::Or(Box::new(alloc, rename_each(alloc, members, to)?)?)),
    }
}

#[cycle(rename)]
fn rename_each(alloc: Global, norms: &Norms, to: &[u8; 32]) -> Result<Norms, AllocError>
    requires { IsRenaming to.now }
    ensures form { IfOk result (λ ms. AreRenamed to.now (trees norms.now) (trees ms)) }
    ensures all { IfOk result (λ ms. (x : Point) → all_hold (trees ms) x ≡ all_hold (trees norms.now) (point_before to.now x)) }
    ensures any { IfOk result (λ ms. (x : Point) → any_holds (trees ms) x ≡ any_holds (trees norms.now) (point_before to.now x)) }
    ensures copy { KeepsPlaces to.now → IfOk result (λ ms. trees ms ≡ trees norms.now) }
    ensures sized { (v w : ℕ) → AreSized v (trees norms.now) → SendsBelow to.now v w → IfOk result (λ ms. AreSized w (trees ms)) }
    ensures only { (allowed kept : ℕ → Bool) → TreesHaveOnly allowed (trees norms.now) →
        SendsAllowed to.now allowed kept → IfOk result (λ ms. TreesHaveOnly kept (trees ms)) }
{
    match norms {
        Norms::End => Ok(Norms::End),
        Norms::More(first, rest) => {
            let first = rename(alloc, first, to)?;
            let rest = rename_each(alloc, rest, to)?;
            Ok(Norms::More(first, Box::new(alloc, rest)?))
        }
    }
}

fn rename_atom(alloc: Global, atom: &Atom, to: &[u8; 32]) -> Result<Atom, AllocError>
    requires { IsRenaming to.now }
    ensures form { IfOk result (λ a. IsRenamedAtom to.now atom.now a) }
    ensures holds { IfOk result (λ a. (x : Point) → atom_holds a x ≡ atom_holds atom.now (point_before to.now x)) }
    ensures copy { KeepsPlaces to.now → IfOk result (λ a. a ≡ atom.now) }
    ensures sized { (v w : ℕ) → IsSizedAtom v atom.now → SendsBelow to.now v w → IfOk result (IsSizedAtom w) }
    ensures only { (allowed kept : ℕ → Bool) → HaveOnly allowed atom.now.poly →
        SendsAllowed to.now allowed kept → IfOk result (λ a. HaveOnly kept a.poly) }
{
    let _terms = atom.poly.len();
    let poly = atom.poly.rename(alloc, to)?;
    Ok(Atom {
        poly,
        rel: atom.rel,
    })
}
