use std::alloc::Global;
use std::test::Fail;
use terms::sets::{Set, join};
use terms::{Term, alone, and_form, not_form, or_form, same, value, xor_form};

// Records to work in: enough for two forms of 24 terms and their product.
const WORK: usize = 624;

type Form = Vec<Term>;

// The form in the first of some records.
fn kept(heap: Global, work: &[Term], count: Option<usize>) -> Result<Form, Fail> {
    let count = count.ok_or("refused")?;
    let terms = work.get(..count).ok_or("more terms than records")?;
    let mut form = Vec::new(heap);
    form.extend_from_slice(terms)?;
    Ok(form)
}

// The set of one wire.
fn one(n: usize) -> Result<Set, Fail> {
    Ok(alone(n).ok_or("no such wire")?)
}

fn wire(heap: Global, n: usize) -> Result<Form, Fail> {
    let term = Term {
        set: one(n)?,
        coefficient: 1,
    };
    kept(heap, &[term], Some(1))
}

fn not(heap: Global, form: &Form) -> Result<Form, Fail> {
    let mut work = [Term::default(); WORK];
    let count = not_form(form.as_slice(), &mut work);
    kept(heap, &work, count)
}

// A gate of two forms.
fn gate<G: FnOnce(&[Term], &[Term], &mut [Term]) -> Option<usize>>(
    heap: Global,
    gate: G,
    one: &Form,
    other: &Form,
) -> Result<Form, Fail>
    requires { G.IsAlwaysCallable gate }
{
    let mut work = [Term::default(); WORK];
    let count = gate(one.as_slice(), other.as_slice(), &mut work);
    kept(heap, &work, count)
}

fn and(heap: Global, one: &Form, other: &Form) -> Result<Form, Fail> {
    gate(heap, and_form, one, other)
}

fn or(heap: Global, one: &Form, other: &Form) -> Result<Form, Fail> {
    gate(heap, or_form, one, other)
}

fn xor(heap: Global, one: &Form, other: &Form) -> Result<Form, Fail> {
    gate(heap, xor_form, one, other)
}

// (x OR y) AND NOT p AND NOT q AND NOT r.
#[test]
fn twenty_four_terms(rt: HostRuntime) -> Result<(), Fail> {
    let heap = rt.alloc();
    let either = or(heap, &wire(heap, 0)?, &wire(heap, 127)?)?;
    let clear = and(
        heap,
        &not(heap, &wire(heap, 7)?)?,
        &not(heap, &wire(heap, 8)?)?,
    )?;
    let form = and(
        heap,
        &and(heap, &either, &clear)?,
        &not(heap, &wire(heap, 63)?)?,
    )?;
    assert_eq!(rt; form.len(), 24);
    Ok(())
}

// Three ORs of different wires, joined.
#[test]
fn twenty_seven_terms(rt: HostRuntime) -> Result<(), Fail> {
    let heap = rt.alloc();
    let first = or(heap, &wire(heap, 1)?, &wire(heap, 2)?)?;
    let second = or(heap, &wire(heap, 30)?, &wire(heap, 40)?)?;
    let third = or(heap, &wire(heap, 64)?, &wire(heap, 65)?)?;
    let form = and(heap, &and(heap, &first, &second)?, &third)?;
    assert_eq!(rt; form.len(), 27);
    Ok(())
}

// NOT (NOT x AND NOT y) is x OR y, and not x XOR y.
#[test]
fn same_by_another_way(rt: HostRuntime) -> Result<(), Fail> {
    let heap = rt.alloc();
    let x = wire(heap, 3)?;
    let y = wire(heap, 100)?;
    let round = not(heap, &and(heap, &not(heap, &x)?, &not(heap, &y)?)?)?;
    assert!(rt; same(round.as_slice(), or(heap, &x, &y)?.as_slice()));
    assert!(rt; !same(round.as_slice(), xor(heap, &x, &y)?.as_slice()));
    Ok(())
}

// A product of 25 terms inside an XOR of 24 and an OR of 1.
#[test]
fn longer_product_inside(rt: HostRuntime) -> Result<(), Fail> {
    let heap = rt.alloc();
    let p = wire(heap, 0)?;
    let shut = and(
        heap,
        &not(heap, &wire(heap, 3)?)?,
        &not(heap, &wire(heap, 4)?)?,
    )?;
    let open = and(heap, &or(heap, &wire(heap, 1)?, &wire(heap, 2)?)?, &shut)?;
    let one = not(heap, &and(heap, &p, &open)?)?;
    let either = or(heap, &wire(heap, 5)?, &wire(heap, 6)?)?;
    let fits = and(heap, &either, &not(heap, &wire(heap, 9)?)?)?;
    let other = not(heap, &and(heap, &not(heap, &p)?, &fits)?)?;
    assert_eq!(rt; and(heap, &one, &other)?.len(), 25);
    assert_eq!(rt; xor(heap, &one, &other)?.len(), 24);
    assert_eq!(rt; or(heap, &one, &other)?.len(), 1);
    Ok(())
}

// x XOR y comes to 1 where one wire is high, and to 0 where both are; working records too few are refused.
#[test]
fn values_and_refusals(rt: HostRuntime) -> Result<(), Fail> {
    let heap = rt.alloc();
    let x = wire(heap, 9)?;
    let y = wire(heap, 17)?;
    let form = xor(heap, &x, &y)?;
    assert_eq!(rt; value(form.as_slice(), &one(9)?), 1);
    assert_eq!(rt; value(form.as_slice(), &join(&one(9)?, &one(17)?)), 0);
    let mut short = [Term::default(); 2];
    assert_eq!(rt; xor_form(x.as_slice(), y.as_slice(), &mut short), None);
    Ok(())
}

// Terms are equal where both the set and the coefficient are.
#[test]
fn terms_compare(rt: HostRuntime) -> Result<(), Fail> {
    let heap = rt.alloc();
    let set = one(9)?;
    let once = Term {
        set,
        coefficient: 1,
    };
    let twice = Term {
        set,
        coefficient: 2,
    };
    assert_eq!(rt; wire(heap, 9)?.as_slice(), [once].as_slice());
    assert!(rt; once != twice);
    assert!(rt; once != Term::default());
    Ok(())
}
