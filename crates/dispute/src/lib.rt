// Dispute papers from filing to resolution, each a value that is moved along and can neither be copied nor let go.
#![tactic(auto)]

mod figures;
mod limits;
mod paper;
mod refusal;

pub use figures::worked_figures;
pub use limits::{
    ASSET_MOST, CLOSES_MOST, DAY_MOST, FILING_CLOSES, PERIOD_MOST, REPLY_DAYS, SUM_MOST,
};
pub use paper::{Filed, Note, Offer, Paper, Referred, Rejected, Resolution, Served, Unserved};
pub use refusal::Refusal;

#[cfg(test)]
mod tests {
    use crate::limits::DAY_MOST;
    use crate::paper::{Filed, Referred, Resolution, Served};
    use crate::refusal::Refusal;

    // The number by which filing is refused, 0 where it is not.
    fn filing(asset: u64, period: u64, closes: u64) -> u64 {
        match Filed::file(asset, period, closes) {
            Ok(filed) => {
                filed.withdraw();
                0
            }
            Err(why) => why.number(),
        }
    }

    #[test]
    fn files_four_closes_after_the_period(rt: HostRuntime) {
        let first = [filing(1, 1, 5), filing(1, 1, 4)];
        let last = [filing(9_999, 356, 360), filing(9_999, 357, 360)];
        assert_eq!(rt; [first, last], [[0, 17], [0, 17]]);
    }

    #[test]
    fn files_in_range_alone(rt: HostRuntime) {
        let assets = [filing(0, 1, 5), filing(10_000, 1, 5)];
        let periods = [filing(1, 0, 5), filing(1, 361, 360)];
        let closes = [filing(1, 1, 361), filing(1, 1, u64::MAX)];
        assert_eq!(rt; [assets, periods, closes], [[4; 2]; 3]);
    }

    // Ends what a call gave or handed back.
    trait End {
        fn end(self);
    }

    impl End for Filed {
        fn end(self) {
            self.withdraw();
        }
    }

    // Accepted on the day that it was served, which none refuses.
    impl End for Served {
        fn end(self) {
            let day = self.day();
            self.accept(day).unwrap().end();
        }
    }

    impl End for Referred {
        fn end(self) {
            self.withdraw();
        }
    }

    impl End for Resolution {
        fn end(self) {
            let _ = self.note();
        }
    }

    // The number by which a call is refused, 0 where it is not.
    fn refused_by<A: End, B: End>(answer: Result<A, (B, Refusal)>) -> u64 {
        match answer {
            Ok(given) => {
                given.end();
                0
            }
            Err((back, why)) => {
                back.end();
                why.number()
            }
        }
    }

    fn offering(cents: i64, day: u64) -> u64 {
        refused_by(Filed::file(7, 1, 5).unwrap().offer(cents, day))
    }

    #[test]
    fn offers_in_range_alone(rt: HostRuntime) {
        let most = 1_000_000_000;
        let ends = [offering(most, 0), offering(-most, 100_000)];
        let past = [offering(most + 1, 0), offering(-most - 1, 0)];
        let sums = [offering(0, 0), offering(i64::MIN, 0)];
        let days = [offering(1, 100_001), offering(1, u64::MAX)];
        assert_eq!(rt; [ends, past, sums, days], [[0; 2], [4; 2], [4; 2], [4; 2]]);
    }

    // A paper served on this day, or on the last one that there is.
    fn served(day: u64) -> Served {
        let filed = Filed::file(7, 1, 5).unwrap();
        filed.offer(500, day.min(DAY_MOST)).unwrap()
    }

    #[test]
    fn accepts_and_rejects_for_thirty_days(rt: HostRuntime) {
        let accepted = [
            refused_by(served(100).accept(99)),
            refused_by(served(100).accept(100)),
            refused_by(served(100).accept(130)),
            refused_by(served(100).accept(131)),
            refused_by(served(100).accept(100_001)),
        ];
        let rejected = [
            refused_by(served(100).reject(99)),
            refused_by(served(100).reject(100)),
            refused_by(served(100).reject(130)),
            refused_by(served(100).reject(131)),
            refused_by(served(100).reject(u64::MAX)),
        ];
        assert_eq!(rt; [accepted, rejected], [[18, 0, 0, 18, 4]; 2]);
    }

    #[test]
    fn lapses_later(rt: HostRuntime) {
        let lapsed = [
            refused_by(served(100).lapse(130)),
            refused_by(served(100).lapse(131)),
            refused_by(served(99_969).lapse(100_000)),
            refused_by(served(99_970).lapse(100_000)),
            refused_by(served(99_970).lapse(100_001)),
        ];
        assert_eq!(rt; lapsed, [18, 0, 0, 18, 4]);
    }

    #[test]
    fn hands_the_paper_back_and_takes_it_again(rt: HostRuntime) {
        let served = Filed::file(7, 2, 6).unwrap().offer(-500, 100).unwrap();
        let (served, late) = served.reject(131).unwrap_err();
        let referred = served.reject(130).unwrap();
        let (referred, none) = referred.determine(0).unwrap_err();
        let period = referred.period();
        let note = referred.determine(-1_000_000_000).unwrap().note();
        assert_eq!(rt;
            [late.number(), none.number(), period, note.asset],
            [18, 4, 2, 7]
        );
        assert_eq!(rt; note.cents, -1_000_000_000);
    }
}
