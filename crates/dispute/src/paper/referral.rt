// Determining a referred paper.
ghost use Rattle.std.specs.Prelude.{◌≡◌, IfOk};
ghost use Rattle.dispute.specs.Paper.{determine, resolution, resolved};
ghost use Rattle.dispute.specs.Referral.{ReferredStep, determine_ground};
ghost use Rattle.dispute.specs.Refusal.{refused_by};
ghost use Rattle.dispute.specs.Views.{Same, after, answer, referred_paper, yields};

use crate::limits::is_sum;
use crate::paper::{Referred, Resolution};
use crate::refusal::Refusal;

impl Referred {
    // Gives the dispute a sum, whatever was offered.
    pub fn determine(self, cents: i64) -> Result<Resolution, (Referred, Refusal)>
        ensures cases { refused_by result ≡ determine_ground cents }
        ensures value { IfOk result (λ given. yields given ≡ resolution self.asset cents) }
        ensures same { Same self result }
        ensures step { ReferredStep (referred_paper self) (determine cents) (answer yields result) (after (λ _. resolved) referred_paper result) }
    {
        if !is_sum(cents) {
            return Err((self, Refusal::OutOfRange));
        }
        Ok(self.into_resolution(cents))
    }
}
