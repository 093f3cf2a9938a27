ghost use Rattle.std.specs.Prelude.{◌≡◌, ℕ, ◌≤◌, length, take, IfOk, IfErr, Ok, List};
ghost use Rattle.sheet.specs.Refusals.{IsOneOf, list_numbers};
ghost use Rattle.listing.specs.Listing.{list_of, list_balances};
ghost use Rattle.listing.specs.Truth.{Truth};

use crate::balances::Balances;
use sheet::fault::Fault;

/// Reads the sheet of a text, derives its balances in whole numbers, writes their list into the first of the caller's bytes,
/// and answers how many bytes it has. Later bytes stay, and a refusal changes nothing. 9,504 bytes are enough for every list.
#[tactic(auto, using(crate::proofs::Numbered::short_listed))]
pub fn list_balances(text: &[u8], list: &mut [u8]) -> Result<usize, Fault>
    ensures exact { record { answer = result; memory = list.new }
        ≡ list_balances text.now list.old }
    ensures within { IfOk result (λ n. n ≤ length list.new) }
    ensures numbers { IfErr result (IsOneOf list_numbers) }
    ensures enough { (bytes : List ℕ) → list_of text.now ≡ Ok bytes → length bytes ≤ 9504 }
    ensures truth { IfOk result (λ n. Truth text.now (take n list.new)) }
{
    Balances::of(text)?.print(list)
}
