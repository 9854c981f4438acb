//! Small normal forms.
ghost use Rattle.std.specs.Prelude.{◌≡◌, ℕ, Bool, IfOk, map};
ghost use Rattle.std.specs.List.{list_any};
ghost use Rattle.vp_poly.specs.Value.{Point};
ghost use Rattle.vp_logic.specs.Sized.{EachHasOnly, EachIsSized, IsSized, TreeHasOnly};
ghost use Rattle.vp_logic.specs.Tree.{tree, trees, members, AllOf, AnyOf, None, Then};
ghost use Rattle.vp_logic.specs.Truth.{parts_hold, tree_holds};

use crate::{Norm, Norms};
use std::alloc::{AllocError, Global};

// What always holds: an `And` of nothing.
pub(crate) fn always(alloc: Global) -> Result<Norm, AllocError>
    ensures { IfOk result (λ m. tree m ≡ AllOf None) }
{
    Ok(Norm::And(Box::new(alloc, Norms::End)?))
}

// One of the two holds.
pub(crate) fn either(alloc: Global, one: Norm, other: Norm) -> Result<Norm, AllocError>
    ensures { IfOk result (λ m. tree m ≡ AnyOf (Then (tree one) (Then (tree other) None))) }
{
    Ok(Norm::Or(Box::new(alloc, pair(alloc, one, other)?)?))
}

// Both hold.
pub(crate) fn both(alloc: Global, one: Norm, other: Norm) -> Result<Norm, AllocError>
    ensures { IfOk result (λ m. tree m ≡ AllOf (Then (tree one) (Then (tree other) None))) }
{
    Ok(Norm::And(Box::new(alloc, pair(alloc, one, other)?)?))
}

fn pair(alloc: Global, one: Norm, other: Norm) -> Result<Norms, AllocError>
    ensures { IfOk result (λ ms. trees ms ≡ Then (tree one) (Then (tree other) None)) }
{
    let last = Norms::More(other, Box::new(alloc, Norms::End)?);
    Ok(Norms::More(one, Box::new(alloc, last)?))
}

/// The form that holds where all of these do: their `And`, in order.
#[tactic(auto, using(crate::proofs::AllMembers::all_members))]
pub fn all_of(alloc: Global, forms: Vec<Norm>) -> Result<Norm, AllocError>
    ensures form { IfOk result (λ m. tree m ≡ AllOf (members (map tree forms.items))) }
    ensures holds { (x : Point) → IfOk result (λ m. tree_holds (tree m) x ≡ parts_hold (map tree forms.items) x) }
    ensures sized { (v : ℕ) → EachIsSized v (map tree forms.items) → IfOk result (λ m. IsSized v (tree m)) }
    ensures only { (allowed : ℕ → Bool) → EachHasOnly allowed (map tree forms.items) →
        IfOk result (λ m. TreeHasOnly allowed (tree m)) }
{
    Ok(Norm::And(Box::new(alloc, members_of(alloc, forms)?)?))
}

/// The form that holds where some of these do: their `Or`, in order.
#[tactic(auto, using(crate::proofs::AllMembers::all_members))]
pub fn any_of(alloc: Global, forms: Vec<Norm>) -> Result<Norm, AllocError>
    ensures form { IfOk result (λ m. tree m ≡ AnyOf (members (map tree forms.items))) }
    ensures holds { (x : Point) → IfOk result (λ m. tree_holds (tree m) x ≡ list_any (λ t. tree_holds t x) (map tree forms.items)) }
    ensures sized { (v : ℕ) → EachIsSized v (map tree forms.items) → IfOk result (λ m. IsSized v (tree m)) }
    ensures only { (allowed : ℕ → Bool) → EachHasOnly allowed (map tree forms.items) →
        IfOk result (λ m. TreeHasOnly allowed (tree m)) }
{
    Ok(Norm::Or(Box::new(alloc, members_of(alloc, forms)?)?))
}

fn members_of(alloc: Global, forms: Vec<Norm>) -> Result<Norms, AllocError>
    ensures { IfOk result (λ ms. trees ms ≡ members (map tree forms.items)) }
{
    let mut left = forms;
    let mut made = Norms::End;
    while let Some(last) = left.pop() {
        made = Norms::More(last, Box::new(alloc, made)?);
    }
    Ok(made)
}
