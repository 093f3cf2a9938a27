ghost use Rattle.std.specs.Prelude.{◌≡◌, take, IfSome};
ghost use Rattle.terms.specs.Records.{form_in, Written};

use super::merging::put_form;
use super::term::Term;

/// Writes a form into the first of the caller's records, and answers how many terms it has; refused where the records are fewer.
pub fn write_form(form: &[Term], records: &mut [Term]) -> Option<usize>
    ensures exact { Written form.now records.old records.new result }
    ensures form { IfSome result (λ n. form_in (take n records.new) ≡ form_in form.now) }
{
    if records.len() < form.len() {
        return None;
    }
    Some(put_form(records, form))
}
