// Eliminations worked by hand, and run.
#![tactic(auto)]

#[cfg(test)]
mod tests {
    use elimination::{EliminationError, eliminate_parity, eliminate_whole};
    use kinds::{Number, Parity, Whole, gcd};

    // Three rows over three columns: the third is the sum of the first two.
    const FLOWS: [i64; 9] = [1, -1, 0, 0, 1, -1, 1, 0, -1];

    #[test]
    fn three_rows(rt: HostRuntime) {
        let mut weights = [7; 9];
        assert_eq!(rt; eliminate_whole(3, 3, &FLOWS, &mut weights), Ok(1));
        assert_eq!(rt; weights, [1, 1, -1, 7, 7, 7, 7, 7, 7]);
    }

    #[test]
    fn three_rows_in_parities(rt: HostRuntime) {
        let mut weights = [7; 9];
        assert_eq!(rt; eliminate_parity(3, 3, &FLOWS, &mut weights), Ok(1));
        assert_eq!(rt; weights, [1, 1, 1, 7, 7, 7, 7, 7, 7]);
    }

    #[test]
    fn divided(rt: HostRuntime) {
        let mut weights = [7; 4];
        assert_eq!(rt; eliminate_whole(2, 1, &[6, -4], &mut weights), Ok(1));
        assert_eq!(rt; weights, [2, 3, 7, 7]);
    }

    #[test]
    fn at_the_limit(rt: HostRuntime) {
        let mut weights = [7; 4];
        assert_eq!(rt; eliminate_whole(2, 1, &[1000000, -1], &mut weights), Ok(1));
        assert_eq!(rt; weights, [1, 1000000, 7, 7]);
    }

    #[test]
    fn too_large_at_the_start(rt: HostRuntime) {
        let mut weights = [7; 4];
        assert_eq!(rt;
            eliminate_whole(2, 1, &[6, 1000001], &mut weights),
            Err(EliminationError::LargeNumber(1))
        );
        assert_eq!(rt; weights, [7, 7, 7, 7]);
    }

    #[test]
    fn too_large_after_a_step(rt: HostRuntime) {
        let mut weights = [7; 4];
        assert_eq!(rt;
            eliminate_whole(2, 2, &[999999, 1000000, 1000000, 1], &mut weights),
            Err(EliminationError::LargeNumber(1))
        );
        assert_eq!(rt; weights, [7, 7, 7, 7]);
    }

    #[test]
    fn no_columns(rt: HostRuntime) {
        let mut weights = [7; 5];
        assert_eq!(rt; eliminate_whole(2, 0, &[], &mut weights), Ok(2));
        assert_eq!(rt; weights, [1, 0, 0, 1, 7]);
        assert_eq!(rt; eliminate_parity(0, 0, &[], &mut weights), Ok(0));
        assert_eq!(rt; weights, [1, 0, 0, 1, 7]);
    }

    #[test]
    fn sizes(rt: HostRuntime) {
        let mut weights = [7; 4];
        assert_eq!(rt;
            eliminate_whole(2, 2, &[1, 1, 1], &mut weights),
            Err(EliminationError::Sizes)
        );
        assert_eq!(rt;
            eliminate_whole(33, 0, &[], &mut weights),
            Err(EliminationError::Sizes)
        );
        assert_eq!(rt;
            eliminate_parity(3, 0, &[], &mut weights),
            Err(EliminationError::Sizes)
        );
        assert_eq!(rt; weights, [7, 7, 7, 7]);
    }

    #[test]
    fn counted(rt: HostRuntime) {
        assert_eq!(rt; Whole::counted(1), Some(Whole::one()));
        assert_eq!(rt;
            Whole::counted(-1000000),
            Whole::counted(1000000).map(Whole::negated)
        );
        assert_eq!(rt; Whole::counted(1000001), None);
        assert_eq!(rt; Parity::counted(-3), Some(Parity { odd: true }));
        assert_eq!(rt; Parity::counted(1000001), Parity::counted(1));
    }

    #[test]
    fn divisors(rt: HostRuntime) {
        assert_eq!(rt; gcd(0, 0), 0);
        assert_eq!(rt; gcd(7, 0), 7);
        assert_eq!(rt; gcd(0, 7), 7);
        assert_eq!(rt; gcd(12, 18), 6);
        assert_eq!(rt; gcd(1000000, 999999), 1);
    }
}
