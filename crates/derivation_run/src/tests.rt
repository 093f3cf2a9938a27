use derivation::{derive_parity, derive_whole};
use listing::{Answer, MOST_WRITTEN, answer_text};
use sheet::fault::{Fault, Refusal};
use sheet::sheet::Sheet;

// The board of three belts.
const THREE: &[u8] =
    b"kind left right\ni - -\ni - -\nr 0 -\nr 1 -\nr 2 -\nh 0 -\nh 1 -\nh 2 -\na 0 4\na 0 2\na 1 7\na 1 6\nb 8 3\nb 5 10\nb 9 11\n";

// How many balances derivation finds, in whole numbers and then in parities, which it writes over them.
fn derive_into(text: &[u8], weights: &mut [i32]) -> Result<(usize, usize), Fault> {
    let sheet = Sheet::load(text)?;
    let whole = derive_whole(&sheet, weights)?;
    Ok((whole, derive_parity(&sheet, weights)?))
}

#[test]
fn memory_of_weights(rt: HostRuntime) {
    let mut short = [7; 8];
    assert_eq!(rt;
        derive_into(THREE, &mut short),
        Err(Refusal::ShortWeights.at(0))
    );
    assert_eq!(rt; short, [7; 8]);
    let mut exact = [7; 9];
    assert_eq!(rt; derive_into(THREE, &mut exact), Ok((1, 1)));
    assert_eq!(rt; exact, [1, 1, 1, 7, 7, 7, 7, 7, 7]);
}

// Three belts that nothing enters or leaves.
const IDLE: &[u8] =
    b"kind left right\n0 - -\nb 0 0\nr 0 -\nh 0 -\nb 0 0\nr 1 -\nh 1 -\nb 0 0\nr 2 -\nh 2 -\n";

// A gate that names a later wire.
const LATER: &[u8] = b"kind left right\ni - -\nn 5 -\n";

// An answer of so many bytes.
fn answer(accepted: bool, length: usize) -> Result<Answer, Fault> {
    Ok(Answer { accepted, length })
}

#[test]
fn answers_of_lists(rt: HostRuntime) {
    let mut page = [b'.'; 18];
    assert_eq!(rt; answer_text(THREE, &mut page), answer(true, 16));
    assert_eq!(rt; page, *b"B0 B1 B2\n1 1 -1\n..");
    let mut page = [b'.'; 27];
    assert_eq!(rt; answer_text(IDLE, &mut page), answer(true, 27));
    assert_eq!(rt; page, *b"B0 B1 B2\n1 0 0\n0 1 0\n0 0 1\n");
}

#[test]
fn answers_of_refusals(rt: HostRuntime) {
    let mut page = [b'.'; 17];
    assert_eq!(rt; answer_text(LATER, &mut page), answer(false, 15));
    assert_eq!(rt; page, *b"refused 5 at 1\n..");
    let mut page = [b'.'; 15];
    assert_eq!(rt; answer_text(b"", &mut page), answer(false, 15));
    assert_eq!(rt; page, *b"refused 1 at 0\n");
    let long = [b'\n'; 8193];
    assert_eq!(rt;
        answer_text(&long, &mut [0; MOST_WRITTEN]),
        answer(false, 15)
    );
}

// A page that is too short for the answer stays as it was, also where a refusal line would find room.
#[test]
fn pages_too_short(rt: HostRuntime) {
    let short = Refusal::ShortText.at(0);
    let mut page = [b'.'; 26];
    assert_eq!(rt; answer_text(IDLE, &mut page), Err(short));
    assert_eq!(rt; page, [b'.'; 26]);
    let mut page = [b'.'; 14];
    assert_eq!(rt; answer_text(LATER, &mut page), Err(short));
    assert_eq!(rt; page, [b'.'; 14]);
    assert_eq!(rt; answer_text(b"", &mut page), Err(short));
    assert_eq!(rt; answer_text(b"", &mut []), Err(short));
}
