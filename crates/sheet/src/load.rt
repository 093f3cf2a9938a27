ghost use Rattle.std.specs.Prelude.{◌≡◌, true, [], Ok, Err, IfErr, MatchResult};
ghost use Rattle.sheet.specs.Loading.{value_lines, text_fits, loaded};
ghost use Rattle.sheet.specs.Promises.{Accepted, Refused};
ghost use Rattle.sheet.specs.Refusals.{fault, IsOneOf, load_numbers};
ghost use Rattle.sheet.specs.Text.{lines_of};
ghost use Rattle.sheet.specs.Views.{nodes_in, so_far};
ghost use Rattle.sheet.specs.declared.fault.Refusal.TheVariants.{UnfitText};

use crate::fault::{Fault, Refusal};
use crate::limits::MOST_BYTES;
use crate::reader::{read_line, read_names};
use crate::sheet::Sheet;
use crate::sheet::draft::Draft;
use crate::split::split_once;
use crate::text::Order;

// Refuses a text that is empty or too long, or lacks its last line feed.
fn check_text(text: &[u8]) -> Result<(), Fault>
    ensures { MatchResult result (λ _. text_fits text.now ≡ true) (λ e. loaded text.now ≡ Err e) }
{
    if text.len() <= MOST_BYTES && text.last() == Some(&b'\n') {
        return Ok(());
    }
    Err(Refusal::UnfitText.into())
}

// The nodes of the value lines, in one pass.
fn read_values(order: Order, values: &[u8]) -> Result<Draft, Fault>
    ensures { MatchResult result
        (λ d. value_lines order [] (lines_of values.now) ≡ Ok (so_far d))
        (λ e. value_lines order [] (lines_of values.now) ≡ Err e) }
{
    let mut draft = Draft::new();
    let mut rest = values;
    while let Some((line, after)) = split_once(rest, b'\n') {
        let node = read_line(order, line, draft.next_line())?;
        draft.push(node)?;
        rest = after;
    }
    Ok(draft)
}

// The sheet of a text that is fit, or the first refusal.
fn read_text(text: &[u8]) -> Result<Sheet, Fault>
    requires { text_fits text.now ≡ true }
    ensures { MatchResult result
        (λ s. loaded text.now ≡ Ok (nodes_in s))
        (λ e. loaded text.now ≡ Err e) }
{
    let Some((names, values)) = split_once(text, b'\n') else {
        return Err(Refusal::UnfitText.into());
    };
    let order = read_names(names)?;
    let draft = read_values(order, values)?;
    draft.finish()
}

impl Sheet {
    /// The sheet that a text writes, or the first refusal.
    #[tactic(auto, using(crate::proofs::Written::accepted, crate::proofs::Written::turned_away, crate::proofs::Numbered::numbered))]
    pub fn load(text: &[u8]) -> Result<Sheet, Fault>
        ensures exact { MatchResult result
            (λ s. Accepted text.now (nodes_in s))
            (λ e. Refused text.now e) }
        ensures numbers { IfErr result (IsOneOf load_numbers) }
    {
        check_text(text)?;
        read_text(text)
    }
}
