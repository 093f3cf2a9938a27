// The printed list.
ghost use Rattle.std.specs.Prelude.{◌≡◌, ◌<◌, ◌≤◌, true, false, ◌++◌, map, take, length, IsOk, IfOk, IfErr};
ghost use Rattle.std.specs.List.{list_any, range_with_len, flat_map};
ghost use Rattle.printing.specs.Pages.{text_on, gap, RoomFor};
ghost use Rattle.printing.specs.Printing.{line_of, name_of, row_text, rows_of, list_text, is_large, list_unfit, print_list};
ghost use Rattle.printing.specs.Reading.{reading, listed};
ghost use Rattle.printing.specs.Words.{UnfitList, fault};
ghost use Rattle.sheet.specs.Refusals.{IsOneOf, print_numbers};

use crate::page::Page;
use sheet::fault::{Fault, Refusal};
use sheet::limits::MOST_BELTS;

// The limit of a weight either way.
const LIMIT: u32 = 1_000_000;

fn is_large(weight: i32) -> bool
    ensures { result ≡ is_large weight }
{
    weight.unsigned_abs() > LIMIT
}

// Whether some weight passes the limit.
fn any_large(weights: &[i32]) -> bool
    ensures { result ≡ list_any is_large weights.now }
{
    weights.iter().any(|weight| is_large(*weight))
}

// Whether a list is refused.
fn is_unfit(belts: usize, balances: usize, weights: &[i32]) -> bool
    ensures { result ≡ list_unfit belts balances weights.now }
{
    belts > MOST_BELTS
        || balances > MOST_BELTS
        || weights.len() < belts * balances
        || any_large(&weights[..belts * balances])
}

// A blank before word i of a line, unless it is the first.
fn push_gap(page: &mut Page, i: usize)
    requires { RoomFor page.old (gap i) }
    ensures { text_on page.new ≡ text_on page.old ++ gap i }
{
    if i > 0 {
        page.push(b' ');
    }
}

// The name of a belt.
fn push_name(page: &mut Page, belt: usize)
    requires small { belt < 32 }
    requires room { RoomFor page.old (name_of belt) }
    ensures { text_on page.new ≡ text_on page.old ++ name_of belt }
{
    page.push(b'B');
    page.push_number(belt as u32);
}

// The line of one balance.
fn push_row(page: &mut Page, row: &[i32])
    requires { RoomFor page.old (row_text row.now) }
    ensures { text_on page.new ≡ text_on page.old ++ row_text row.now }
{
    for (i, weight) in row.iter().enumerate() {
        push_gap(page, i);
        page.push_weight(*weight);
    }
    page.end_line();
}

// A list that fits: for each of `balances` balances the weights of `belts` belts, one after another.
#[derive(Drop)]
struct Listing<'a> {
    belts: usize,
    balances: usize,
    weights: &'a [i32],
    ghost fit: { list_unfit belts balances weights.now ≡ false },
}

impl<'a> Listing<'a> {
    // The list, if it fits.
    fn fitting(belts: usize, balances: usize, weights: &'a [i32]) -> Result<Listing<'a>, Fault>
        ensures fits { IfOk result (λ l. (l.belts ≡ belts) × (l.balances ≡ balances)
            × (l.weights.now ≡ weights.now)) }
        ensures unfit { IfErr result (λ f. (f ≡ fault UnfitList 0)
            × (list_unfit belts balances weights.now ≡ true)) }
    {
        if is_unfit(belts, balances, weights) {
            return Err(Refusal::UnfitList.into());
        }
        Ok(Listing {
            belts,
            balances,
            weights,
        })
    }

    // The line of the belts' names.
    fn push_names(&self, page: &mut Page)
        requires { RoomFor page.old (line_of (map name_of (range_with_len 0 self.now.belts))) }
        ensures { text_on page.new
            ≡ text_on page.old ++ line_of (map name_of (range_with_len 0 self.now.belts)) }
    {
        for belt in 0..self.belts {
            push_gap(page, belt);
            push_name(page, belt);
        }
        page.end_line();
    }

    // A line for each balance.
    fn push_rows(&self, page: &mut Page)
        requires { RoomFor page.old (flat_map row_text
            (rows_of self.now.belts self.now.balances self.now.weights.now)) }
        ensures { text_on page.new ≡ text_on page.old ++ flat_map row_text
            (rows_of self.now.belts self.now.balances self.now.weights.now) }
    {
        let mut rest = self.weights;
        for _ in 0..self.balances {
            let (row, more) = rest.split_at(self.belts);
            push_row(page, row);
            rest = more;
        }
    }

    // The page with the whole list.
    fn page(&self) -> Page
        ensures { text_on result
            ≡ list_text self.now.belts self.now.balances self.now.weights.now }
    {
        let mut page = Page::new();
        self.push_names(&mut page);
        self.push_rows(&mut page);
        page
    }

    // Writes the list.
    fn print(&self, text: &mut [u8]) -> Result<usize, Fault>
        ensures exact { record { answer = result; memory = text.new }
            ≡ print_list self.now.belts self.now.balances self.now.weights.now text.old }
        ensures readback { IfOk result (λ n. reading (take n text.new)
            ≡ listed self.now.belts self.now.balances self.now.weights.now) }
        ensures within { IfOk result (λ n. n ≤ length text.new) }
        ensures numbers { IfErr result (IsOneOf print_numbers) }
        ensures enough { 9504 ≤ length text.old → IsOk result }
    {
        self.page().copy_to(text)
    }
}

/// Writes the list of the balances' weights into the first of the caller's bytes, and answers how many bytes it has: a line
/// of the belts' names, then a line of `belts` weights for each balance. Later bytes stay; a list that is too large, or text
/// memory that is too short, is refused, and then nothing changes.
pub fn print_list(
    belts: usize,
    balances: usize,
    weights: &[i32],
    text: &mut [u8],
) -> Result<usize, Fault>
    ensures exact { record { answer = result; memory = text.new }
        ≡ print_list belts balances weights.now text.old }
    ensures readback { IfOk result (λ n. reading (take n text.new)
        ≡ listed belts balances weights.now) }
    ensures within { IfOk result (λ n. n ≤ length text.new) }
    ensures numbers { IfErr result (IsOneOf print_numbers) }
    ensures enough { list_unfit belts balances weights.now ≡ false
        → 9504 ≤ length text.old → IsOk result }
{
    let list = Listing::fitting(belts, balances, weights)?;
    list.print(text)
}
