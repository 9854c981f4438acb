//! What stands for the variables where states are replaced.
ghost use Rattle.std.specs.Prelude.{◌≡◌, ◌+◌, ◌≤◌, ◌++◌, IfOk, OnOk, length};
ghost use Rattle.vp_poly.specs.Places.{places_for};
ghost use Rattle.vp_monitor.specs.Standing.{AreSelves, with_states};
ghost use Rattle.vp_words.specs.Record.{IsValid};

use std::alloc::{AllocError, Global};
use vp_poly::{Scaled, plain};
use vp_words::Counts;

/// Each variable for itself.
pub(crate) fn selves(alloc: Global, counts: Counts) -> Result<Vec<Scaled>, AllocError>
    requires { IsValid counts }
    ensures { IfOk result (λ v. AreSelves counts v.items) }
{
    let env = plain(alloc, counts)?;
    Ok(env)
}

/// These stand for the states, and the rest of `env` for the other variables.
pub(crate) fn with_states(
    alloc: Global,
    counts: Counts,
    env: &[Scaled],
    states: &[Scaled],
) -> Result<Vec<Scaled>, AllocError>
    requires { counts.params + counts.states ≤ length env.now }
    ensures { IfOk result (λ v. v.items ≡ with_states (places_for counts) env.now states.now) }
{
    let first = usize::from(counts.params);
    let behind = first + usize::from(counts.states);
    let mut all = Vec::new(alloc);
    add_copies(alloc, &mut all, &env[..first])?;
    add_copies(alloc, &mut all, states)?;
    add_copies(alloc, &mut all, &env[behind..])?;
    Ok(all)
}

// Each of these once more, behind those that are there.
fn add_copies(alloc: Global, all: &mut Vec<Scaled>, more: &[Scaled]) -> Result<(), AllocError>
    ensures { OnOk result (all.new.items ≡ all.old.items ++ more.now) }
{
    for scaled in more {
        let copy = scaled.copy(alloc)?;
        all.push(copy)?;
    }
    Ok(())
}
