// Lists and refusal lines, printed and compared.
#![tactic(auto)]

#[cfg(test)]
mod tests {
    use printing::{MOST_WRITTEN, print_list, print_refusal};
    use sheet::fault::{Fault, Refusal};

    // What a printing call answers: 0 and the number of bytes, or the refusal's number and place.
    fn told(answer: Result<usize, Fault>) -> (u8, usize) {
        match answer {
            Ok(n) => (0, n),
            Err(fault) => (fault.refusal.number(), usize::from(fault.place)),
        }
    }

    // The same for a list, in text memory that is long enough for any.
    fn listed(belts: usize, balances: usize, weights: &[i32]) -> (u8, usize) {
        told(print_list(belts, balances, weights, &mut [0; MOST_WRITTEN]))
    }

    const THREE: [i32; 3] = [1, 1, -1];

    #[test]
    fn three_belts(rt: HostRuntime) {
        let mut text = [b'.'; 18];
        assert_eq!(rt; told(print_list(3, 1, &THREE, &mut text)), (0, 16));
        assert_eq!(rt; text, *b"B0 B1 B2\n1 1 -1\n..");
        let mut exact = [b'.'; 16];
        assert_eq!(rt; told(print_list(3, 1, &THREE, &mut exact)), (0, 16));
        assert_eq!(rt; exact, *b"B0 B1 B2\n1 1 -1\n");
        let mut short = [b'.'; 15];
        assert_eq!(rt; told(print_list(3, 1, &THREE, &mut short)), (23, 0));
        assert_eq!(rt; short, *b"...............");
    }

    #[test]
    fn no_belts(rt: HostRuntime) {
        let mut text = [b'.'; 4];
        assert_eq!(rt; told(print_list(0, 0, &[], &mut text)), (0, 1));
        assert_eq!(rt; text, *b"\n...");
        assert_eq!(rt; told(print_list(0, 2, &[], &mut text)), (0, 3));
        assert_eq!(rt; text, *b"\n\n\n.");
        assert_eq!(rt; told(print_list(2, 0, &[], &mut [0; 6])), (0, 6));
    }

    // 32 names in 118 bytes, then 32 lines of 32 weights, each of 8 bytes with one more after it.
    #[test]
    fn most_belts_and_balances(rt: HostRuntime) {
        let least = [-1_000_000; 1056];
        assert_eq!(rt; listed(32, 32, &least), (0, 9334));
        assert_eq!(rt; listed(33, 32, &least), (22, 0));
        assert_eq!(rt; listed(32, 33, &least), (22, 0));
        assert_eq!(rt; listed(33, 0, &[]), (22, 0));
        assert_eq!(rt; listed(0, 33, &[]), (22, 0));
        assert_eq!(rt; told(print_list(32, 32, &least, &mut [0; 9334])), (0, 9334));
        assert_eq!(rt; told(print_list(32, 32, &least, &mut [0; 9333])), (23, 0));
    }

    #[test]
    fn weights(rt: HostRuntime) {
        assert_eq!(rt; listed(2, 2, &[1, 0, 1]), (22, 0));
        assert_eq!(rt; listed(2, 2, &[1, 0, 0, 1]), (0, 14));
        assert_eq!(rt; listed(1, 1, &[1_000_000]), (0, 11));
        assert_eq!(rt; listed(1, 1, &[-1_000_000]), (0, 12));
        assert_eq!(rt; listed(1, 1, &[1_000_001]), (22, 0));
        assert_eq!(rt; listed(1, 1, &[-1_000_001]), (22, 0));
        assert_eq!(rt; listed(1, 1, &[i32::MIN]), (22, 0));
        assert_eq!(rt; listed(1, 1, &[0, i32::MIN]), (0, 5));
        assert_eq!(rt; told(print_list(33, 1, &[], &mut [])), (22, 0));
    }

    #[test]
    fn refusal_lines(rt: HostRuntime) {
        let mut text = [b'.'; 18];
        let laden = Refusal::LadenBelt.at(31);
        assert_eq!(rt; told(print_refusal(laden, &mut text)), (0, 17));
        assert_eq!(rt; text, *b"refused 10 at 31\n.");
        let values = Refusal::WrongValues.at(639);
        assert_eq!(rt; told(print_refusal(values, &mut text)), (0, 17));
        assert_eq!(rt; text, *b"refused 3 at 639\n.");
        let unfit = Refusal::UnfitText.at(0);
        let mut short = [b'.'; 14];
        assert_eq!(rt; told(print_refusal(unfit, &mut short)), (23, 0));
        assert_eq!(rt; short, *b"..............");
        let mut exact = [b'.'; 15];
        assert_eq!(rt; told(print_refusal(unfit, &mut exact)), (0, 15));
        assert_eq!(rt; exact, *b"refused 1 at 0\n");
    }
}
