// Filing a paper, and serving it with an offer.
ghost use Rattle.std.specs.Prelude.{◌≡◌, IfOk};
ghost use Rattle.dispute.specs.Filing.{FiledStep, file_ground, offer_ground};
ghost use Rattle.dispute.specs.Life.{Lawful};
ghost use Rattle.dispute.specs.Paper.{filed, offer, served, taken};
ghost use Rattle.dispute.specs.Refusal.{refusal, refused_by};
ghost use Rattle.dispute.specs.Views.{Same, after, answer, filed_paper, served_paper};

use crate::limits::{FILING_CLOSES, is_asset, is_closes, is_day, is_period, is_sum};
use crate::paper::{Filed, Offer, Paper, Served, Unserved};
use crate::refusal::Refusal;

impl Offer {
    // This sum offered on this day, if it can be.
    fn new(cents: i64, day: u64) -> Result<Offer, Refusal>
        ensures cases { refusal result ≡ offer_ground cents day }
        ensures value { IfOk result (λ given. (given.cents ≡ cents) × (given.day ≡ day)) }
    {
        if !is_sum(cents) || !is_day(day) {
            return Err(Refusal::OutOfRange);
        }
        Ok(Offer { cents, day })
    }
}

impl Filed {
    // A paper for an asset and a period, after so many closes. The clause `life` is the law of all that may become of it.
    pub fn file(asset: u64, period: u64, closes: u64) -> Result<Filed, Refusal>
        ensures cases { refusal result ≡ file_ground asset period closes }
        ensures value { IfOk result (λ paper. filed_paper paper ≡ filed asset period) }
        ensures life { IfOk result (λ paper. Lawful asset (filed_paper paper)) }
    {
        if !is_asset(asset) || !is_period(period) || !is_closes(closes) {
            return Err(Refusal::OutOfRange);
        }
        if closes < period + FILING_CLOSES {
            return Err(Refusal::TooEarly);
        }
        Ok(Paper {
            asset,
            period,
            stage: Unserved,
        })
    }

    // Offers a sum and serves the paper, on this day.
    pub fn offer(self, cents: i64, day: u64) -> Result<Served, (Filed, Refusal)>
        ensures cases { refused_by result ≡ offer_ground cents day }
        ensures value { IfOk result (λ paper. served_paper paper ≡ served self.asset self.period cents day) }
        ensures same { Same self result }
        ensures step { FiledStep (filed_paper self) (offer cents day) (answer (λ _. taken) result) (after served_paper filed_paper result) }
    {
        match Offer::new(cents, day) {
            Ok(offer) => Ok(self.into_stage(offer)),
            Err(why) => Err((self, why)),
        }
    }
}
