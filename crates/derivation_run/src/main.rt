// Boards, read from their files, with what is derived and printed of each.
#![tactic(auto)]

ghost use Rattle.std.specs.Prelude.{◌≤◌, length, IfOk};
ghost use Rattle.std.specs.Result.{ForOk};

#[cfg(test)]
mod tests;

use derivation::{MOST_WEIGHTS, derive_parity};
use listing::{MOST_WRITTEN, list_balances};
use printing::{print_list, print_refusal};
use sheet::fault::Fault;
use sheet::sheet::Sheet;
use std::fs;
use std::io::Write;

// The parity balances of a board, as a list.
fn list_parities(text: &[u8], page: &mut [u8]) -> Result<usize, Fault>
    ensures within { IfOk result (λ n. n ≤ length page.new) }
{
    let sheet = Sheet::load(text)?;
    let mut weights = [0; MOST_WEIGHTS];
    let balances = derive_parity(&sheet, &mut weights)?;
    print_list(sheet.belts(), balances, &weights, page)
}

// Prints the list that stands on a page, of so many bytes, or the line of its refusal, which has to have left the page as it
// was.
fn print_page(rt: &HostRuntime, listed: Result<usize, Fault>, page: &mut [u8]) -> anyhow::Result<()>
    requires within { ForOk listed (λ n. n ≤ length page.old) }
{
    let written = match listed {
        Ok(n) => n,
        Err(fault) => {
            if page.iter().any(|byte| *byte != 0) {
                println!(rt; "a refusal wrote on the page")?;
            }
            print_refusal(fault, page)?
        }
    };
    rt.stdout().write_all(&page[..written])?;
    Ok(())
}

// Prints for each board that a line of standard input names its balances in whole numbers, and its parity balances.
fn main(rt: HostRuntime) -> anyhow::Result<()> {
    for line in rt.lines(rt.alloc()) {
        let board = line?;
        let path = format!(in rt.alloc(); "{board}.sheet")?;
        let text = fs::read(&rt, path.as_str())?;
        println!(rt; "{board}")?;
        let mut page = [0; MOST_WRITTEN];
        let listed = list_balances(text.as_slice(), &mut page);
        print_page(&rt, listed, &mut page)?;
        let mut page = [0; MOST_WRITTEN];
        let listed = list_parities(text.as_slice(), &mut page);
        print_page(&rt, listed, &mut page)?;
    }
    Ok(())
}
