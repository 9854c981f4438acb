//! Renamings that exchange variables with their next values.
ghost use Rattle.std.specs.Prelude.{◌≡◌, ◌+◌, ◌≤◌};
ghost use Rattle.vp_words.specs.Record.{IsValid};
ghost use Rattle.vp_poly.specs.Places.{IsRenaming, places_for};
ghost use Rattle.vp_logic.specs.Renamed.{KeepsPlaces};
ghost use Rattle.vp_monitor.specs.Exchange.{actuating, exchanging, priming};

use vp_poly::laws::renamings_are_exchanges;
use vp_words::Counts;

/// The renaming that exchanges states and controls with their next values.
pub(crate) fn priming(counts: Counts) -> [u8; 32]
    requires { IsValid counts }
    ensures exact { result ≡ priming (places_for counts) }
    ensures renaming { IsRenaming result }
{
    let changing = counts.states + counts.controls;
    exchange(counts.params, changing, changing)
}

/// The one that exchanges controls alone.
pub(crate) fn actuating(counts: Counts) -> [u8; 32]
    requires { IsValid counts }
    ensures exact { result ≡ actuating (places_for counts) }
    ensures renaming { IsRenaming result }
{
    exchange(
        counts.params + counts.states,
        counts.controls,
        counts.states + counts.controls,
    )
}

/// The one that leaves each place.
pub(crate) fn keeping() -> [u8; 32]
    ensures places { KeepsPlaces result }
    ensures renaming { IsRenaming result }
{
    exchange(0, 0, 0)
}

// The renaming that exchanges places with those `by` further on.
fn exchange(first: u8, places: u8, by: u8) -> [u8; 32]
    requires apart { places ≤ by }
    requires inside { first + by + places ≤ 32 }
    ensures exact { result ≡ exchanging first places by }
    ensures renaming { IsRenaming result }
{
    renamings_are_exchanges();
    let mut to = [0; 32];
    for k in 0..32 {
        to[k as usize] = k;
    }
    for k in first..first + places {
        to.swap(k as usize, (k + by) as usize);
    }
    to
}
