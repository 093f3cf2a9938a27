ghost use Rattle.std.specs.Prelude.{◌≡◌, ◌/◌, ◌%◌, ◌^◌, ◌<◌, ◌≤◌, set, replicate, MatchOption, bit_or, nat_lt};
ghost use Rattle.terms.specs.Sets.{number_of};
ghost use Rattle.terms.specs.Forms.{high};

/// A set of free wires: wire n is bit n mod 8, lowest first, of byte n div 8.
pub type Set = [u8; 16];

/// The set of no wire.
pub const EMPTY: Set = [0; 16];

/// A set as the number that its bytes spell, byte 0 lowest.
pub fn number(set: &Set) -> u128
    ensures { result ≡ number_of set.now }
{
    u128::from_le_bytes(*set)
}

// The set whose bytes spell a number.
fn spelling(number: u128) -> Set
    ensures { number_of result ≡ number }
{
    number.to_le_bytes()
}

/// The set of the wires that are in either.
pub fn join(one: &Set, other: &Set) -> Set
    ensures { number_of result ≡ bit_or (number_of one.now) (number_of other.now) }
{
    spelling(number(one) | number(other))
}

// Whether the one set comes before the other.
pub(super) fn before(one: &Set, other: &Set) -> bool
    ensures { result ≡ nat_lt (number_of one.now) (number_of other.now) }
{
    number(one) < number(other)
}

/// The set of one wire: its bit, of its byte. There is none past wire 127.
pub fn alone(wire: usize) -> Option<Set>
    ensures { MatchOption result (128 ≤ wire) (λ s. (wire < 128)
        × (s ≡ set (replicate 16 0) (wire / 8) (2 ^ (wire % 8)))
        × (number_of s ≡ 2 ^ wire)) }
{
    if wire < 128 { Some(marked(wire)) } else { None }
}

fn marked(wire: usize) -> Set
    requires { wire < 128 }
    ensures bytes { result ≡ set (replicate 16 0) (wire / 8) (2 ^ (wire % 8)) }
    ensures number { number_of result ≡ 2 ^ wire }
{
    let mut bytes = EMPTY;
    bytes[wire / 8] = 1 << (wire % 8);
    bytes
}

// Whether the wires of a set are all high in a row, given as the set of its high wires.
pub(super) fn all_high(set: &Set, row: &Set) -> bool
    ensures { result ≡ high (number_of set.now) (number_of row.now) }
{
    number(set) | number(row) == number(row)
}
