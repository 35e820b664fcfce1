//! A law of maps of transient properties.
ghost use Rattle.std.specs.Prelude.{◌≡◌, ℕ, List};
ghost use Rattle.transient_props.specs.Transients.{column_of};

use crate::Transients;

/// Two maps that have the same column for each name are the same map: nothing else is seen of a map than its look-ups.
pub fn look_ups_determine_maps(one: &Transients, other: &Transients)
    ensures { ((name : List ℕ) → column_of one.now name ≡ column_of other.now name) → one.now ≡ other.now }
{
    // The names of both rise.
    one.props();
    other.props();
}
