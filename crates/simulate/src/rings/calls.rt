ghost use Rattle.std.specs.Prelude.{◌≡◌, ◌≤◌, map, replicate, IfOk};
ghost use Rattle.belts.specs.Belts.{made};
ghost use Rattle.banks.specs.Banks.{racked};
ghost use Rattle.simulate.specs.Rings.{rings_of};
ghost use Rattle.std.proofs.Common.{arith};
ghost use Rattle.std.proofs.lemmas.List.{length-map};
ghost use Rattle.belts.specs.Layouts.{ring_of};
ghost use Rattle.banks.specs.Rows.{each_belt};

use super::Rings;
use banks::bank::Bank;
use belts::belt::Belt;
use belts::ring::Ring;
use sheet::limits::MOST_BELTS;
use std::alloc::{AllocError, Global};

impl Rings {
    // Empty rings alike in places, four bits wide. A figure outside 1 to 32 rings or 1 to 16 places counts as the nearer end.
    pub(crate) fn new(heap: Global, rings: usize, places: u8) -> Result<Self, AllocError>
        ensures { IfOk result (λ r. rings_of r ≡ racked rings places 4) }
    {
        let rings = alike(heap, rings.clamp(1, MOST_BELTS), places)?;
        Ok(Rings { rings })
    }
}

// So many empty rings.
fn alike(heap: Global, n: usize, places: u8) -> Result<Vec<Ring>, AllocError>
    ensures { IfOk result (λ v. map ring_of v.items ≡ replicate n (made places 4)) }
{
    let mut rings = Vec::new(heap);
    for _ in 0..n {
        rings.push(Ring::new(places, 4))?;
    }
    Ok(rings)
}

impl Bank for Rings {
    ghost belts = { rings_of };

    ghost sized = { λ b. let n = length-map b.rings.items ring_of in (omega arith, omega arith) };

    ghost small = { λ b i. each_belt ring_of (λ m. (m.places ≤ 65535) × (m.width ≤ 4)) (omega arith, omega arith) (λ r. (omega arith, omega arith)) b.rings.items i };

    fn size(&self) -> usize {
        self.rings.len()
    }

    fn places(&self, i: usize) -> u16 {
        self.rings.get(i).map_or(0, |ring| ring.places())
    }

    fn width(&self, i: usize) -> u8 {
        self.rings.get(i).map_or(0, |ring| ring.width())
    }

    fn count(&self, i: usize) -> u16 {
        self.rings.get(i).map_or(0, |ring| ring.count())
    }

    fn head(&self, i: usize) -> Option<u8> {
        self.rings.get(i)?.head()
    }

    fn put(&mut self, i: usize, word: u8) -> bool {
        if i < self.rings.len() {
            self.rings[i].put(word)
        } else {
            false
        }
    }

    fn take(&mut self, i: usize) -> Option<u8> {
        if i < self.rings.len() {
            self.rings[i].take()
        } else {
            None
        }
    }

    fn clear(&mut self, i: usize) {
        if i < self.rings.len() {
            self.rings[i].clear();
        }
    }
}
