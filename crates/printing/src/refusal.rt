// The refusal line.
ghost use Rattle.std.specs.Prelude.{◌≡◌, ◌≤◌, length, IsOk, IfOk, IfErr};
ghost use Rattle.printing.specs.Pages.{text_on};
ghost use Rattle.printing.specs.Printing.{refusal_text, print_refusal};
ghost use Rattle.sheet.specs.Refusals.{IsOneOf, refusal_line_numbers};

use crate::page::Page;
use sheet::fault::Fault;

// The page with the line of a refusal's number and place.
fn refusal_page(fault: Fault) -> Page
    ensures { text_on result ≡ refusal_text fault }
{
    let number = u32::from(fault.refusal.number());
    let place = u32::from(fault.place);
    let mut page = Page::new();
    page.push_text(b"refused ");
    page.push_number(number);
    page.push_text(b" at ");
    page.push_number(place);
    page.end_line();
    page
}

/// Writes the line of a refusal, `refused N at P`, into the first of the caller's bytes, and answers how many bytes it has.
/// Later bytes stay; text memory that is too short is refused, and then nothing changes.
pub fn print_refusal(fault: Fault, text: &mut [u8]) -> Result<usize, Fault>
    ensures exact { record { answer = result; memory = text.new } ≡ print_refusal fault text.old }
    ensures within { IfOk result (λ n. n ≤ length text.new) }
    ensures numbers { IfErr result (IsOneOf refusal_line_numbers) }
    ensures enough { 9504 ≤ length text.old → IsOk result }
{
    refusal_page(fault).copy_to(text)
}
