ghost use Rattle.std.specs.Prelude.{◌≡◌, nat_lt};
ghost use Rattle.sheet.specs.Refusals as refusals;

use sheet::fault::Refusal;

// The rule that a refused sheet breaks, in plain words.
pub(crate) fn broken_rule(refusal: Refusal) -> &'static str {
    match refusal {
        Refusal::UnfitText => "a text has 1 to 8192 bytes and ends with a line feed",
        Refusal::WrongNamesLine =>
            "the first line is the names kind, left and right in any order, with one blank between",
        Refusal::WrongValues =>
            "a value line is a kind with the two values that it takes, with one blank between; a number is 0 to 639 without leading zeros",
        Refusal::TooMany => "a sheet has at most 640 value lines, 32 belts and 128 free wires",
        Refusal::GateOutOfOrder => "a gate names wires of earlier lines only",
        Refusal::UnknownName =>
            "flop, belt and bit lines name wires of the sheet, and room, item and bit lines name belts of it",
        Refusal::UnfitBelt => "a belt has one room line, one item line and at most four bit lines",
        _ => "loading a sheet gives no such refusal",
    }
}

// Whether a refusal of loading names a line: all but those of the text and of the names line do.
pub(crate) fn names_a_line(refusal: Refusal) -> bool
    ensures { result ≡ nat_lt 2 (refusals.number refusal) }
{
    !matches!(refusal, Refusal::UnfitText | Refusal::WrongNamesLine)
}
