ghost use Rattle.std.specs.Prelude.{◌≡◌, ℕ, ◌<◌, ◌≤◌, ◌%◌, max};
ghost use Rattle.std.specs.Int.{◌∣◌};
ghost use Rattle.kinds.specs.Kinds.{gcd as divisor_of};

/// The greatest common divisor of a and b: it divides both, and every common divisor divides it. By Euclid it is that of b
/// and the remainder of a by b, until b is 0.
#[tactic(auto, using(crate::proofs::Euclid::ended_gcd, crate::proofs::Euclid::stepped_gcd, crate::proofs::Euclid::stepped_left, crate::proofs::Euclid::stepped_right, crate::proofs::Euclid::stepped_greatest))]
pub fn gcd(a: u64, b: u64) -> u64
    ensures value { result ≡ divisor_of a b }
    ensures end { b ≡ 0 → result ≡ a }
    ensures step { 0 < b → result ≡ divisor_of b (a % b) }
    ensures common { (result ∣ a) × (result ∣ b) }
    ensures greatest { (d : ℕ) → d ∣ a → d ∣ b → d ∣ result }
    ensures bound { result ≤ max a b }
{
    if b == 0 { a } else { gcd(b, a % b) }
}
