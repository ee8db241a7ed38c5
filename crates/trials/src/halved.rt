// A payment rule of the trials' own: half of the total, rounded toward zero.
ghost use Rattle.std.specs.Prelude.{[]};
ghost use Rattle.trials.specs.Halved.{halved as half_of};
ghost use Rattle.std.proofs.Common.{rules};

use payment::{PaymentRule, Standing};

#[derive(Clone, Copy, Debug, PartialEq, Eq)]
pub struct Halved;

impl PaymentRule for Halved {
    ghost pays = { half_of };

    ghost limits = { [] };

    ghost owes = { Prim.search rules };

    fn pay(&self, _standing: &Standing, total: i64) -> i64 {
        total / 2
    }
}
