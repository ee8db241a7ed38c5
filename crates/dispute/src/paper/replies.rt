// Replying to a served paper: accepting it, letting it lapse, rejecting it.
ghost use Rattle.std.specs.Prelude.{◌≡◌, IfOk};
ghost use Rattle.dispute.specs.Paper.{accept, lapse, referred, reject, reply, resolution, resolved, taken};
ghost use Rattle.dispute.specs.Refusal.{refusal, refused_by};
ghost use Rattle.dispute.specs.Replies.{ServedStep, day_ground, in_time, late, reply_ground};
ghost use Rattle.dispute.specs.Views.{Same, after, answer, referred_paper, served_paper, yields};

use crate::limits::{REPLY_DAYS, is_day};
use crate::paper::{Offer, Referred, Rejected, Resolution, Served};
use crate::refusal::Refusal;

// Whether a reply stands on this day, which is in the reply's time or is not.
fn can_reply(day: u64, timely: bool) -> Result<(), Refusal>
    ensures cases { refusal result ≡ day_ground day timely }
{
    if !is_day(day) {
        return Err(Refusal::OutOfRange);
    }
    if !timely {
        return Err(Refusal::OutsideTime);
    }
    Ok(())
}

impl Offer {
    fn in_time(&self, day: u64) -> bool
        ensures value { result ≡ in_time self.now.day day }
    {
        (self.day..=self.day + REPLY_DAYS).contains(&day)
    }

    fn is_late(&self, day: u64) -> bool
        ensures value { result ≡ late self.now.day day }
    {
        day > self.day + REPLY_DAYS
    }
}

impl Served {
    // Resolves the paper by the sum offered, if a reply stands on this day.
    fn resolve(self, day: u64, timely: bool) -> Result<Resolution, (Served, Refusal)>
        ensures cases { refused_by result ≡ day_ground day timely }
        ensures value { IfOk result (λ given. yields given ≡ resolution self.asset self.stage.cents) }
        ensures same { Same self result }
    {
        match can_reply(day, timely) {
            Ok(()) => {
                let cents = self.cents();
                Ok(self.into_resolution(cents))
            }
            Err(why) => Err((self, why)),
        }
    }

    // Accepts the sum offered.
    pub fn accept(self, day: u64) -> Result<Resolution, (Served, Refusal)>
        ensures cases { refused_by result ≡ reply_ground self.stage.day (accept day) }
        ensures value { IfOk result (λ given. yields given ≡ resolution self.asset self.stage.cents) }
        ensures same { Same self result }
        ensures step { ServedStep (served_paper self) (reply (accept day)) (answer yields result) (after (λ _. resolved) served_paper result) }
    {
        let timely = self.stage.in_time(day);
        self.resolve(day, timely)
    }

    // Takes the sum offered as accepted, since nobody replied in time.
    pub fn lapse(self, day: u64) -> Result<Resolution, (Served, Refusal)>
        ensures cases { refused_by result ≡ reply_ground self.stage.day (lapse day) }
        ensures value { IfOk result (λ given. yields given ≡ resolution self.asset self.stage.cents) }
        ensures same { Same self result }
        ensures step { ServedStep (served_paper self) (reply (lapse day)) (answer yields result) (after (λ _. resolved) served_paper result) }
    {
        let timely = self.stage.is_late(day);
        self.resolve(day, timely)
    }

    // Rejects the sum offered, which refers the paper.
    pub fn reject(self, day: u64) -> Result<Referred, (Served, Refusal)>
        ensures cases { refused_by result ≡ reply_ground self.stage.day (reject day) }
        ensures value { IfOk result (λ paper. referred_paper paper ≡ referred self.asset self.period) }
        ensures same { Same self result }
        ensures step { ServedStep (served_paper self) (reply (reject day)) (answer (λ _. taken) result) (after referred_paper served_paper result) }
    {
        match can_reply(day, self.stage.in_time(day)) {
            Ok(()) => Ok(self.into_stage(Rejected)),
            Err(why) => Err((self, why)),
        }
    }

    // The sum offered.
    pub fn cents(&self) -> i64
        ensures value { result ≡ self.now.stage.cents }
    {
        self.stage.cents
    }

    // The day served.
    pub fn day(&self) -> u64
        ensures value { result ≡ self.now.stage.day }
    {
        self.stage.day
    }
}
