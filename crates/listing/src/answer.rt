// The answer to a text: its list, or the line of its refusal.
ghost use Rattle.std.specs.Prelude.{◌≡◌, ◌≤◌, length, take, IsOk, IfOk, IfErr};
ghost use Rattle.std.specs.Bool.{OnTrue};
ghost use Rattle.sheet.specs.Refusals.{IsOneOf, answer_numbers};
ghost use Rattle.listing.specs.Listing.{answer_text};
ghost use Rattle.listing.specs.Truth.{Truth};

use crate::balances::Balances;
use printing::print_refusal;
use sheet::fault::Fault;

/// What stands on a page: the list of an accepted text, or else the line of its refusal; so many bytes.
#[derive(Clone, Copy, Debug, PartialEq, Eq)]
pub struct Answer {
    pub accepted: bool,
    pub length: usize,
}

/// Reads the sheet of a text, derives its balances in whole numbers, and writes their list into the first bytes of the page,
/// or the line of the first refusal on the way; tells which, and how many bytes it has. Later bytes stay. A page that is too
/// short for that text is refused, and stays as it was; 9,504 bytes are always enough.
pub fn answer_text(text: &[u8], page: &mut [u8]) -> Result<Answer, Fault>
    ensures exact { record { answer = result; memory = page.new } ≡ answer_text text.now page.old }
    ensures within { IfOk result (λ a. a.length ≤ length page.new) }
    ensures numbers { IfErr result (IsOneOf answer_numbers) }
    ensures enough { 9504 ≤ length page.old → IsOk result }
    ensures truth { IfOk result (λ a. OnTrue a.accepted
        (Truth text.now (take a.length page.new))) }
{
    match Balances::of(text) {
        Ok(balances) => Ok(Answer {
            accepted: true,
            length: balances.print(page)?,
        }),
        Err(fault) => Ok(Answer {
            accepted: false,
            length: print_refusal(fault, page)?,
        }),
    }
}
