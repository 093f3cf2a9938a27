#![tactic(auto)]

#[cfg(test)]
mod tests {
    use forms::{Forms, same_form, terms};
    use sheet::fault::Fault;
    use sheet::sheet::Sheet;
    use std::test::Fail;
    use terms::Term;

    const UNREAD: Term = Term {
        set: [0; 16],
        coefficient: 7,
    };

    // Wire 11 is (x OR y) AND NOT p AND NOT q AND NOT r, with 24 terms; then twice itself, joined and set apart; line 14 is a belt.
    const WIDE: &[u8] =
        b"kind left right\ni - -\ni - -\ni - -\ni - -\ni - -\no 0 1\nn 2 -\nn 3 -\nn 4 -\na 5 6\na 9 7\na 10 8\no 11 11\nx 11 11\nb 0 1\nr 0 -\nh 0 -\n";

    // Three ORs of different wires joined have 27 terms at line 10.
    const WIDER: &[u8] =
        b"kind left right\ni - -\ni - -\ni - -\ni - -\ni - -\ni - -\no 0 1\no 2 3\no 4 5\na 6 7\na 9 8\n";

    // Wire 5 is NOT (NOT x AND NOT y), wire 6 is x OR y, wire 7 is x XOR y.
    const ALIKE: &[u8] =
        b"kind left right\ni - -\ni - -\nn 0 -\nn 1 -\na 2 3\nn 4 -\no 0 1\nx 0 1\n";

    // What telling a wire's form answers, where the text is a sheet.
    fn tell(text: &[u8], wire: u16, records: &mut [Term]) -> Result<usize, Fault> {
        terms(&Sheet::load(text)?, wire, records)
    }

    fn compare(text: &[u8], one: u16, other: u16) -> Result<bool, Fault> {
        same_form(&Sheet::load(text)?, one, other)
    }

    // An answer: 0 and what it tells, or the refusal's number and place.
    fn answer(told: Result<usize, Fault>) -> (u8, usize) {
        match told {
            Ok(n) => (0, n),
            Err(fault) => (fault.refusal.number(), usize::from(fault.place)),
        }
    }

    fn told(text: &[u8], wire: u16, records: &mut [Term]) -> (u8, usize) {
        answer(tell(text, wire, records))
    }

    // The same of comparing two wires, which tells 1 or 0.
    fn compared(text: &[u8], one: u16, other: u16) -> (u8, usize) {
        answer(compare(text, one, other).map(usize::from))
    }

    #[test]
    fn wide_forms(rt: HostRuntime) {
        let mut records = [UNREAD; 24];
        assert_eq!(rt; told(WIDE, 11, &mut records), (0, 24));
        assert_eq!(rt; told(WIDE, 12, &mut records), (0, 24));
        assert_eq!(rt; told(WIDE, 13, &mut records), (0, 0));
        assert_eq!(rt; told(WIDER, 9, &mut records), (15, 10));
        let mut short = [UNREAD; 23];
        assert_eq!(rt; told(WIDE, 11, &mut short), (21, 0));
        assert_eq!(rt; short[0].coefficient, 7);
    }

    #[test]
    fn no_wires(rt: HostRuntime) {
        let mut records = [UNREAD; 24];
        assert_eq!(rt; told(WIDE, 14, &mut records), (20, 0));
        assert_eq!(rt; told(WIDE, 17, &mut records), (20, 0));
        assert_eq!(rt; compared(WIDE, 0, 14), (20, 0));
        assert_eq!(rt; compared(WIDE, 17, 0), (20, 0));
        assert_eq!(rt; compared(WIDER, 0, 0), (15, 10));
    }

    #[test]
    fn records_written(rt: HostRuntime) {
        let mut records = [UNREAD; 5];
        assert_eq!(rt; told(ALIKE, 6, &mut records), (0, 3));
        assert_eq!(rt; (records[0].set[0], records[0].coefficient), (1, 1));
        assert_eq!(rt; (records[1].set[0], records[1].coefficient), (2, 1));
        assert_eq!(rt; (records[2].set[0], records[2].coefficient), (3, -1));
        assert_eq!(rt; records[3].coefficient, 7);
        assert_eq!(rt; told(ALIKE, 7, &mut records), (0, 3));
        assert_eq!(rt; (records[2].set[0], records[2].coefficient), (3, -2));
    }

    #[test]
    fn wires_alike(rt: HostRuntime) {
        assert_eq!(rt; compared(ALIKE, 5, 6), (0, 1));
        assert_eq!(rt; compared(ALIKE, 6, 7), (0, 0));
        assert_eq!(rt; compared(ALIKE, 0, 1), (0, 0));
        assert_eq!(rt; compared(WIDE, 11, 12), (0, 1));
    }

    // Each line's form by its line, and none past the last.
    #[test]
    fn forms_by_line(rt: HostRuntime) -> Result<(), Fail> {
        let sheet = Sheet::load(b"kind left right\n0 - -\n1 - -\n")?;
        let forms = Forms::of(&sheet)?;
        assert_eq!(rt; forms.line(0).len(), 0);
        assert_eq!(rt; forms.line(1).len(), 1);
        assert_eq!(rt;
            (forms.line(1)[0].set, forms.line(1)[0].coefficient),
            ([0; 16], 1)
        );
        assert_eq!(rt; forms.line(2).len(), 0);
        Ok(())
    }
}
