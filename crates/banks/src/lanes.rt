ghost use Rattle.std.specs.Prelude.{◌≡◌, [], ◌∷◌};
ghost use Rattle.belts.specs.Belts.{made, in_series};
ghost use Rattle.belts.specs.Layouts.{ring_of};
ghost use Rattle.banks.specs.Banks.{racked, beside, six_lanes};
ghost use Rattle.banks.specs.Racks.{rack_of};

use crate::bank::Bank;
use crate::beside::Beside;
use crate::rack::Rack;
use crate::single::Single;
use belts::belt::Belt;
use belts::ring::Ring;
use belts::series::Series;

/// The bank of the six-lane machine: its lanes, and the crossover between them.
pub type SixLanes = Beside<Rack, Single<Series<Ring, Ring>>>;

/// Six packed rows of sixteen words, beside a series of two rings of eight, all empty and four bits wide.
pub fn six_lanes() -> SixLanes
    ensures lanes { rack_of result.first ≡ racked 6 16 4 }
    ensures front { ring_of result.second.belt.front ≡ made 8 4 }
    ensures rear { ring_of result.second.belt.rear ≡ made 8 4 }
    ensures bank { let belts = result.second.belt in
        let crossover = in_series (ring_of belts.front) (ring_of belts.rear) in
        beside (rack_of result.first) (crossover ∷ []) ≡ six_lanes }
{
    let lanes = Rack::new(6, 16, 4);
    let crossover = Series::new(Ring::new(8, 4), Ring::new(8, 4));
    Beside::new(lanes, Single::new(crossover))
}

/// What the six-lane bank tells of itself: its number of belts, and the places and width of the last, the crossover.
pub fn told() -> (usize, u16, u8)
    ensures { result ≡ (7, 16, 4) }
{
    let bank = six_lanes();
    (bank.size(), bank.places(6), bank.width(6))
}
