//! The sandbox that is made of monitors.
ghost use Rattle.std.specs.Prelude.{◌≡◌, IfOk, map};
ghost use Rattle.vp_logic.specs.Tree.{AnyOf, members, tree};
ghost use Rattle.vp_monitor.specs.Obligations.{path_tree};
ghost use Rattle.vp_synth.specs.Sandboxes.{IsMadeOf};

use std::alloc::{AllocError, Global};
use vp_ctrl::Path;
use vp_logic::{Norm, all_of, any_of, conjuncts, rename};
use vp_monitor::Monitors;
use vp_sandbox::Sandbox;
use vp_terms::Items;

// Each place is sent to itself.
const KEPT: [u8; 32] = [
    0, 1, 2, 3, 4, 5, 6, 7, 8, 9, 10, 11, 12, 13, 14, 15, 16, 17, 18, 19, 20, 21, 22, 23, 24, 25,
    26, 27, 28, 29, 30, 31,
];

/// The sandbox of a package with these monitors.
pub(crate) fn sandbox_from(alloc: Global, monitors: Monitors) -> Result<Sandbox, AllocError>
    ensures { IfOk result (IsMadeOf monitors) }
{
    let ctrl = some_path(alloc, monitors.paths.get())?;
    let init = conjuncts(alloc, monitors.init)?;
    Ok(Sandbox {
        counts: monitors.counts,
        init: Items::of(init),
        ctrl,
        plant: monitors.plant,
        fallback: monitors.fallback,
    })
}

// Some path holds.
fn some_path(alloc: Global, paths: &[Path]) -> Result<Norm, AllocError>
    ensures { IfOk result (λ n. tree n ≡ AnyOf (members (map path_tree paths.now))) }
{
    let mut forms = Vec::new(alloc);
    for path in paths {
        forms.push(path_form(alloc, path)?)?;
    }
    any_of(alloc, forms)
}

// All parts of the path hold.
fn path_form(alloc: Global, path: &Path) -> Result<Norm, AllocError>
    ensures { IfOk result (λ n. tree n ≡ path_tree path.now) }
{
    let mut parts = Vec::new(alloc);
    for part in path.parts.get() {
        parts.push(copied(alloc, part)?)?;
    }
    all_of(alloc, parts)
}

// The same form once more.
fn copied(alloc: Global, form: &Norm) -> Result<Norm, AllocError>
    ensures { IfOk result (λ n. tree n ≡ tree form.now) }
{
    rename(alloc, form, &KEPT)
}
