// The balances of a text's sheet, before they are written.
ghost use Rattle.std.specs.Prelude.{◌≡◌, ◌≤◌, false, length, take, replicate, pos, Ok, Err, IsOk, IfOk, IfErr, MatchResult};
ghost use Rattle.sheet.specs.Refusals.{fault, IsOneOf, list_numbers};
ghost use Rattle.sheet.specs.declared.fault.Refusal.TheVariants.{ShortText};
ghost use Rattle.kinds.specs.Kinds.{wholes};
ghost use Rattle.flows.specs.Derivation.{derive};
ghost use Rattle.printing.specs.Printing.{list_text, list_unfit, in_text};
ghost use Rattle.printing.specs.Reading.{reading, listed};

use derivation::{MOST_WEIGHTS, derive_whole};
use printing::print_list;
use sheet::fault::Fault;
use sheet::sheet::Sheet;

// Balances in whole numbers: of so many belts, so many, and their weights, one balance after another.
#[derive(Drop)]
pub(crate) struct Balances {
    belts: usize,
    count: usize,
    weights: [i32; MOST_WEIGHTS],
    ghost fit: { list_unfit belts count weights ≡ false },
}

impl Balances {
    ghost use Rattle.sheet.specs.Views.{nodes_in};
    ghost use Rattle.listing.specs.Listing.{list_of, list_of_nodes};
    ghost use Rattle.listing.specs.Balances.{BalancesOf, BalancesOn};

    // The balances of a sheet that derivation has written into weights.
    fn new(sheet: &Sheet, count: usize, weights: [i32; MOST_WEIGHTS]) -> Balances
        requires { record { answer = Ok count; memory = weights }
            ≡ derive wholes (nodes_in sheet.now) (replicate 1024 (pos 0)) }
        ensures { BalancesOn (nodes_in sheet.now) result }
    {
        Balances {
            belts: sheet.belts(),
            count,
            weights,
        }
    }

    // The balances of a sheet, or the refusal that stands against them.
    fn on(sheet: &Sheet) -> Result<Balances, Fault>
        ensures { MatchResult result (BalancesOn (nodes_in sheet.now))
            (λ f. list_of_nodes (nodes_in sheet.now) ≡ Err f) }
    {
        let mut weights = [0; MOST_WEIGHTS];
        let count = derive_whole(sheet, &mut weights)?;
        Ok(Balances::new(sheet, count, weights))
    }

    // The balances of a text's sheet, or the first refusal on the way.
    #[tactic(auto, using(crate::proofs::Numbered::loading_listed))]
    pub(crate) fn of(text: &[u8]) -> Result<Balances, Fault>
        ensures exact { MatchResult result (BalancesOf text.now) (λ f. list_of text.now ≡ Err f) }
        ensures numbers { IfErr result (IsOneOf list_numbers) }
    {
        let sheet = Sheet::load(text)?;
        Balances::on(&sheet)
    }

    // Their list, written.
    pub(crate) fn print(&self, list: &mut [u8]) -> Result<usize, Fault>
        ensures exact { record { answer = result; memory = list.new }
            ≡ in_text (Ok (list_text self.now.belts self.now.count self.now.weights)) list.old }
        ensures readback { IfOk result (λ n. reading (take n list.new)
            ≡ listed self.now.belts self.now.count self.now.weights) }
        ensures within { IfOk result (λ n. n ≤ length list.new) }
        ensures short { IfErr result (λ f. f ≡ fault ShortText 0) }
        ensures enough { 9504 ≤ length list.old → IsOk result }
    {
        print_list(self.belts, self.count, &self.weights, list)
    }
}
