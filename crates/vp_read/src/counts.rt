//! How many names and entries there are, and names that are declared twice.
ghost use Rattle.std.specs.Prelude.{◌≡◌, ◌≤◌, ◌++◌, [], length, map, string_bytes, MatchOption, None, Some};
ghost use Rattle.vp_terms.specs.WellFormed.{all_names};
ghost use Rattle.vp_read.specs.Naming.{contains, first_again};
ghost use Rattle.vp_read.specs.Reading.{AreShort, wrong_entries};

use crate::pieces::{FALLBACK, FLOW, SLACK};
use vp_terms::{Names, Package};

// Whether the name stands in the list.
fn contains(names: &[String], name: &str) -> bool
    ensures { result ≡ contains (map string_bytes names.now) name.now }
{
    for declared in names {
        if declared.as_str() == name {
            return true;
        }
    }
    false
}

// Whether the name stands in one of three lists.
#[tactic(auto, using(crate::proofs::AgainSteps::standing))]
fn stands(first: &[String], second: &[String], third: &[String], name: &str) -> bool
    ensures { result ≡ contains ((map string_bytes first.now ++ map string_bytes second.now) ++ map string_bytes third.now) name.now }
{
    contains(first, name) || contains(second, name) || contains(third, name)
}

// The first name of a list that stands in it or in the two lists before it already.
fn first_again<'a>(first: &[String], second: &[String], names: &'a [String]) -> Option<&'a str>
    ensures { MatchOption result
        (first_again (map string_bytes first.now ++ map string_bytes second.now) (map string_bytes names.now) ≡ None)
        (λ name. first_again (map string_bytes first.now ++ map string_bytes second.now) (map string_bytes names.now) ≡ Some name.now) }
{
    for (i, name) in names.iter().enumerate() {
        let name = name.as_str();
        if stands(first, second, &names[..i], name) {
            return Some(name);
        }
    }
    None
}

/// The first name that is declared a second time.
pub(crate) fn name_again(names: &Names) -> Option<&str>
    ensures { MatchOption result
        (first_again [] (all_names names.now) ≡ None)
        (λ name. first_again [] (all_names names.now) ≡ Some name.now) }
{
    let params = names.params.get();
    let states = names.states.get();
    let controls = names.controls.get();
    if let Some(name) = first_again(&[], &[], params) {
        return Some(name);
    }
    if let Some(name) = first_again(&[], params, states) {
        return Some(name);
    }
    first_again(params, states, controls)
}

/// The first of pieces 10, 11 and 13 that hasn't one entry for each state or control, and how many it has.
pub(crate) fn wrong_entries(pkg: &Package) -> Option<(u32, u32)>
    requires { AreShort pkg.now }
    ensures { result ≡ wrong_entries pkg.now }
{
    let states = pkg.names.states.get().len();
    let controls = pkg.names.controls.get().len();
    let rates = pkg.plant.rates.get().len();
    let slack = pkg.plant.slack.get().len();
    let fallback = pkg.fallback.get().len();
    if rates != states {
        Some((FLOW, rates as u32))
    } else if slack != states {
        Some((SLACK, slack as u32))
    } else if fallback != controls {
        Some((FALLBACK, fallback as u32))
    } else {
        None
    }
}
