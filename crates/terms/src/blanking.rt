ghost use Rattle.std.specs.Prelude.{◌≡◌, ◌-◌, ◌≤◌, ◌++◌, map, length, take, drop, replicate};
ghost use Rattle.terms.specs.Records.{entry_of, form_in, term_of, blank_term};

use super::term::Term;

// Blanks the records behind the first `len`, up to place `reach`.
pub(super) fn blank_behind(work: &mut [Term], len: usize, reach: usize)
    requires { (len ≤ reach) × (reach ≤ length work.old) }
    ensures whole { work.new
        ≡ take len work.old ++ (replicate (reach - len) blank_term ++ drop reach work.old) }
    ensures terms { map term_of (form_in (take len work.old)) ≡ take len work.old }
{
    // nothing is done with the records in use: a record's bytes are known to be sixteen once it is read
    for t in &work[..len] {
        read(*t);
    }
    for i in len..reach {
        work[i] = unused();
    }
}

// Of a record that is read: it is the record of its term.
fn read(term: Term)
    ensures { term_of (entry_of term) ≡ term }
{}

// A record that no form uses.
fn unused() -> Term
    ensures { result ≡ blank_term }
{
    Term::default()
}
