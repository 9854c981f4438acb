//! The places of a model's variables.

ghost use Rattle.std.specs.Prelude.{◌≡◌};
ghost use Rattle.vp_terms.specs.Places.{place};
ghost use Rattle.vp_terms.specs.WellFormed.{AreGoodNames, places_of};
ghost use Rattle.vp_words.specs.Record.{IsValid};
ghost use Rattle.vp_poly.specs.Places.{places_for};

use vp_terms::{Names, Places, Var};
use vp_words::Counts;

/// How many parameters, states and controls there are names for.
pub fn counts_of(names: &Names) -> Counts
    requires { AreGoodNames names.now }
    ensures same { places_for result ≡ places_of names.now }
    ensures valid { IsValid result }
{
    Counts {
        params: names.params.get().len() as u8,
        states: names.states.get().len() as u8,
        controls: names.controls.get().len() as u8,
    }
}

/// The place of a variable, from 0.
pub fn place_in(variable: Var, counts: Counts) -> usize
    ensures { result ≡ place (places_for counts) variable }
{
    variable.place(to_places(counts)) as usize
}

fn to_places(counts: Counts) -> Places
    ensures { result ≡ places_for counts }
{
    Places {
        params: u32::from(counts.params),
        states: u32::from(counts.states),
        controls: u32::from(counts.controls),
    }
}
