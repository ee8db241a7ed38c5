// Withdrawing a paper, at the stages that allow it.
ghost use Rattle.std.specs.Prelude.{ℕ};
ghost use Rattle.dispute.specs.Filing.{FiledStep, filed_withdrawn};
ghost use Rattle.dispute.specs.Paper.{Act, Answer, Paper as State, filed, referred, taken, withdraw, withdrawn};
ghost use Rattle.dispute.specs.Referral.{ReferredStep, referred_withdrawn};

use crate::paper::{Paper, Rejected, Unserved};

// A stage at which a paper can be withdrawn: its papers, and their steps, which have a withdrawal of each. Other crates
// cannot name this trait, so no stage is added elsewhere.
pub trait Withdrawable: Copy {
    ghost paper: { ℕ → ℕ → State };

    ghost step: { State → Act → Answer → State → Type 0 };

    ghost withdrawal: { (asset period : ℕ) → step (paper asset period) withdraw taken withdrawn };
}

impl Withdrawable for Unserved {
    ghost paper = { filed };

    ghost step = { FiledStep };

    ghost withdrawal = { λ asset period. filed_withdrawn };
}

impl Withdrawable for Rejected {
    ghost paper = { referred };

    ghost step = { ReferredStep };

    ghost withdrawal = { λ asset period. referred_withdrawn };
}

impl<S: Withdrawable> Paper<S> {
    pub fn withdraw(self)
        ensures step { S.step (S.paper self.asset self.period) withdraw taken withdrawn }
    {
        let Paper {
            asset: _,
            period: _,
            stage: _,
        } = self;
    }
}
