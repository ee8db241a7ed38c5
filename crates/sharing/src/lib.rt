// How a pool of cents is shared among claims: what a sharing rule is, and two of them.
#![tactic(auto)]

mod figures;
mod pro_rata;
mod rank;
mod refusal;
mod rule;

pub use figures::worked_figures;
pub use pro_rata::ProRata;
pub use rank::ByRank;
pub use refusal::Refusal;
pub use rule::{MOST_CENTS, Seats, SharingRule};

#[cfg(test)]
mod tests {
    use crate::pro_rata::ProRata;
    use crate::rank::ByRank;
    use crate::refusal::Refusal;
    use crate::rule::{MOST_CENTS, SharingRule};

    // The shares of three claims.
    fn shared<R: SharingRule>(rule: &R, pool: u64, claims: [u64; 3]) -> Result<[u64; 3], Refusal> {
        let mut into = [7; 3];
        rule.share(pool, &claims, &mut into)?;
        Ok(into)
    }

    #[test]
    fn shares_the_worked_figures(rt: HostRuntime) {
        assert_eq!(rt; shared(&ProRata, 100, [50, 30, 40]), Ok([41, 25, 34]));
        assert_eq!(rt; shared(&ByRank, 100, [50, 30, 40]), Ok([50, 30, 20]));
        assert_eq!(rt; shared(&ProRata, 1, [1, 1, 1]), Ok([0, 0, 1]));
        assert_eq!(rt; shared(&ByRank, 1, [1, 1, 1]), Ok([1, 0, 0]));
        assert_eq!(rt; shared(&ProRata, 5, [0, 0, 0]), Ok([0, 0, 0]));
        assert_eq!(rt;
            shared(&ProRata, MOST_CENTS, [MOST_CENTS, 0, 0]),
            Ok([MOST_CENTS, 0, 0])
        );
        assert_eq!(rt; ProRata.share(9, &[], &mut []), Ok(()));
    }

    #[test]
    fn refuses_and_leaves_the_list(rt: HostRuntime) {
        let most = MOST_CENTS;
        assert_eq!(rt;
            shared(&ProRata, most + 1, [1, 1, 1]),
            Err(Refusal::Unshareable)
        );
        assert_eq!(rt; shared(&ByRank, 1, [most, 1, 0]), Err(Refusal::Unshareable));
        assert_eq!(rt;
            shared(&ByRank, 1, [u64::MAX, u64::MAX, 2]),
            Err(Refusal::Unshareable)
        );
        let mut short = [7; 2];
        assert_eq!(rt;
            ProRata.share(1, &[1, 1, 1], &mut short),
            Err(Refusal::Unshareable)
        );
        assert_eq!(rt; short, [7; 2]);
        let mut full = [7; 64];
        assert_eq!(rt; ProRata.share(64, &[1; 64], &mut full), Ok(()));
        assert_eq!(rt; full, [1; 64]);
        let mut over = [7; 65];
        assert_eq!(rt;
            ByRank.share(1, &[1; 65], &mut over),
            Err(Refusal::Unshareable)
        );
        assert_eq!(rt; over, [7; 65]);
        assert_eq!(rt; Refusal::Unshareable.number(), 19);
    }
}
