//! The truth of normal forms. The rules stand in docs/sandbox.md.
ghost use Rattle.std.specs.Prelude.{◌≡◌, ◌<◌, ◌^◌, length, map, All, ◌↔◌, IsTrue, IsNone, IfNone, IfSome};
ghost use Rattle.vp_poly.specs.Value.{Point};
ghost use Rattle.vp_logic.specs.Tree.{tree, trees};
ghost use Rattle.vp_logic.specs.Truth.{atom_holds, tree_holds, all_hold, any_holds, parts_hold};
ghost use Rattle.vp_interval.specs.Formula.{AtomFits, FormFits, MembersFit, PartsFit, of_relation, truth, truth_of_all, truth_of_any, truths, first_from, IsFirst};
ghost use Rattle.vp_interval.specs.Interval.{ends};
ghost use Rattle.vp_interval.specs.Polynomial.{interval_of};
ghost use Rattle.vp_interval.specs.Represents.{RepresentEach};
ghost use Rattle.vp_interval.specs.Truth.{Tells};

use crate::{Interval, Truth, of_poly};
use vp_logic::{Atom, Norm, Norms, Rel};

/// Whether a normal form holds where the values of all places stand in their boxes.
#[cycle(truth)]
pub fn truth_of(n: &Norm, boxes: &[Interval]) -> Truth
    requires { FormFits (length boxes.now) (tree n.now) }
    ensures exact { result ≡ truth (map ends boxes.now) (tree n.now) }
    ensures meaning { (x : Point) → RepresentEach (map ends boxes.now) x →
        Tells result (tree_holds (tree n.now) x) }
{
    match n {
        Norm::Atom(atom) => truth_of_atom(atom, boxes),
        Norm::And(members) => truth_of_all(members, boxes),
        Norm::Or(members) => truth_of_any(members, boxes),
    }
}

// Whether all members hold.
#[cycle(truth)]
fn truth_of_all(members: &Norms, boxes: &[Interval]) -> Truth
    requires { MembersFit (length boxes.now) (trees members.now) }
    ensures exact { result ≡ truth_of_all (map ends boxes.now) (trees members.now) }
    ensures meaning { (x : Point) → RepresentEach (map ends boxes.now) x →
        Tells result (all_hold (trees members.now) x) }
{
    match members {
        Norms::End => Truth::Yes,
        Norms::More(first, rest) => truth_of(first, boxes).and(truth_of_all(rest, boxes)),
    }
}

// Whether some member holds.
#[cycle(truth)]
fn truth_of_any(members: &Norms, boxes: &[Interval]) -> Truth
    requires { MembersFit (length boxes.now) (trees members.now) }
    ensures exact { result ≡ truth_of_any (map ends boxes.now) (trees members.now) }
    ensures meaning { (x : Point) → RepresentEach (map ends boxes.now) x →
        Tells result (any_holds (trees members.now) x) }
{
    match members {
        Norms::End => Truth::No,
        Norms::More(first, rest) => truth_of(first, boxes).or(truth_of_any(rest, boxes)),
    }
}

fn truth_of_atom(atom: &Atom, boxes: &[Interval]) -> Truth
    requires { AtomFits (length boxes.now) atom.now }
    ensures exact { result ≡
        of_relation atom.now.rel (interval_of (map ends boxes.now) atom.now.poly) }
    ensures meaning { (x : Point) → RepresentEach (map ends boxes.now) x →
        Tells result (atom_holds atom.now x) }
{
    let value = of_poly(&atom.poly, boxes);
    match atom.rel {
        Rel::Ge => value.at_least_zero(),
        Rel::Gt => value.above_zero(),
        Rel::Eq => value.equal_to_zero(),
    }
}

/// The number, from 1, and the truth of the first part that is not `Yes`.
pub fn first_not_yes(parts: &[Norm], boxes: &[Interval]) -> Option<(u32, Truth)>
    requires fits { PartsFit (length boxes.now) (map tree parts.now) }
    requires few { length parts.now < 2 ^ 32 }
    ensures exact { result ≡ first_from 1 (truths (map ends boxes.now) (map tree parts.now)) }
    ensures none { IsNone result ↔
        All (λ t. t ≡ Truth.Yes) (truths (map ends boxes.now) (map tree parts.now)) }
    ensures some { IfSome result (λ r.
        IsFirst (truths (map ends boxes.now) (map tree parts.now)) r.0 r.1) }
    ensures meaning { IfNone result ((x : Point) → RepresentEach (map ends boxes.now) x →
        IsTrue (parts_hold (map tree parts.now) x)) }
{
    for (index, part) in parts.iter().enumerate() {
        let truth = truth_of(part, boxes);
        if !truth.is_yes() {
            return Some((index as u32 + 1, truth));
        }
    }
    None
}
