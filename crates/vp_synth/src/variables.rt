//! The names of a model's variables.
ghost use Rattle.std.specs.Prelude.{◌≡◌, ◌++◌, map, string_bytes, IfOk, OnOk};
ghost use Rattle.vp_synth.specs.Printing.{next_name, variable_names};

use std::alloc::{AllocError, Global};
use vp_terms::{NameList, Names};

/// The name of each variable of a model in the order of their places: parameters, states, controls, next
/// states, next controls and `tau`. A next value has the name with `@`.
pub fn variable_names(alloc: Global, names: &Names) -> Result<NameList, AllocError>
    ensures { IfOk result (λ l. l ≡ variable_names names.now) }
{
    let mut all = Vec::new(alloc);
    push_names(alloc, names.params.get(), &mut all)?;
    push_names(alloc, names.states.get(), &mut all)?;
    push_names(alloc, names.controls.get(), &mut all)?;
    push_next_names(alloc, names.states.get(), &mut all)?;
    push_next_names(alloc, names.controls.get(), &mut all)?;
    all.push("tau".to_string(alloc)?)?;
    Ok(NameList::of(all))
}

fn push_names(alloc: Global, names: &[String], all: &mut Vec<String>) -> Result<(), AllocError>
    ensures { OnOk result (map string_bytes all.new.items ≡
        map string_bytes all.old.items ++ map string_bytes names.now) }
{
    for name in names {
        all.push(name.to_string(alloc)?)?;
    }
    Ok(())
}

fn push_next_names(alloc: Global, names: &[String], all: &mut Vec<String>) -> Result<(), AllocError>
    ensures { OnOk result (map string_bytes all.new.items ≡
        map string_bytes all.old.items ++ map next_name (map string_bytes names.now)) }
{
    for name in names {
        all.push(next_name(alloc, name)?)?;
    }
    Ok(())
}

fn next_name(alloc: Global, name: &str) -> Result<String, AllocError>
    ensures { IfOk result (λ s. string_bytes s ≡ next_name name.now) }
{
    let mut next = name.to_string(alloc)?;
    next.push_str("@")?;
    Ok(next)
}
