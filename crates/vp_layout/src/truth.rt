//! How many truths a form needs at once.
ghost use Rattle.std.specs.Prelude.{◌≡◌};
ghost use Rattle.vp_logic.specs.Tree.{tree, trees};
ghost use Rattle.vp_layout.specs.Truths.{need, needs, joint};

use vp_logic::{Norm, Norms};

/// How many truths two forms hold at once, where the one that holds more comes first.
fn joint(a: u32, b: u32) -> u32
    ensures { result ≡ joint a b }
{
    if a == b {
        a.saturating_add(1)
    } else {
        a.max(b)
    }
}

/// How many truths the code of a form holds at once, where of each list the member that holds most is
/// worked out first. A number above 2^32 - 1 is given as that.
#[cycle(need)]
pub fn need(norm: &Norm) -> u32
    ensures { result ≡ need (tree norm.now) }
{
    match norm {
        Norm::Atom(_) => 1,
        Norm::And(members) => needs(members),
        Norm::Or(members) => needs(members),
    }
}

/// The same of the members of a list.
#[cycle(need)]
pub fn needs(members: &Norms) -> u32
    ensures { result ≡ needs (trees members.now) }
{
    match members {
        Norms::End => 0,
        Norms::More(first, rest) => joint(need(first), needs(rest)),
    }
}
