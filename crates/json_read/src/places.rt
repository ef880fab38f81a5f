//! Places in a tree, in preorder.

ghost use Rattle.std.specs.Prelude.{◌≡◌, reverse};
ghost use Rattle.std.specs.Option.{option_map};
ghost use Rattle.json_read.specs.Machinery.Ways.{place_is_before};

use dt_base::List;
use json_tree::Place;

/// Whether a place comes before another in preorder: a value comes before its parts, and these in their order.
pub fn is_before(place: &[u64], other: &[u64]) -> bool
    ensures { result ≡ place_is_before place.now other.now }
{
    'steps: for at in 0..other.len() {
        if at >= place.len() {
            return true;
        }
        if place[at] != other[at] {
            return place[at] < other[at];
        }
    }
    false
}

/// The place to which a way up leads down.
pub fn place_of(steps: Option<Vec<u64>>) -> Option<Place>
    ensures { option_map (λ p. p.steps) result ≡ option_map (λ up. reverse up) (option_map (λ v. v.items) steps) }
{
    match steps {
        Some(mut steps) => {
            steps.reverse();
            Some(Place {
                steps: List::from_vec(steps),
            })
        }
        None => None,
    }
}
