// What a layer over a payment rule is and owes, and the three layers: floor, cap and withhold.
ghost use Rattle.std.specs.Prelude.{◌≡◌, List, [], ◌∷◌, ℤ};
ghost use Rattle.payment.specs.Layers.{turns_cap, turns_floor, turns_withhold};
ghost use Rattle.payment.specs.Rule.{AllKept, Between, Limit, capped, floored};
ghost use Rattle.payment.specs.Stand.{InRange, Stand};
ghost use Rattle.payment.specs.Standing.{view};
ghost use Rattle.std.proofs.Common.{rules};

use crate::standing::Standing;

pub trait Layer {
    // from a standing and the payment below to what is paid in its place
    ghost turns: { Stand → ℤ → ℤ };

    // the floors and caps that the layer adds
    ghost adds: { List Limit };

    fn turn(&self, standing: &Standing, below: i64) -> i64
        ensures value { result ≡ turns (view standing.now) below };

    ghost shrinks: { (s : Stand) (below : ℤ) → InRange s → Between below (turns s below) };

    ghost keeps: { (s : Stand) (below : ℤ) → InRange s → AllKept adds s (turns s below) };
}

#[derive(Clone, Copy, Debug, PartialEq, Eq)]
pub struct Floor;

impl Layer for Floor {
    ghost turns = { turns_floor };

    ghost adds = { floored ∷ [] };

    ghost shrinks = { Prim.search rules };

    ghost keeps = { Prim.search rules };

    fn turn(&self, standing: &Standing, below: i64) -> i64 {
        if standing.award() >= 0 {
            below.max(0)
        } else {
            below
        }
    }
}

#[derive(Clone, Copy, Debug, PartialEq, Eq)]
pub struct Cap;

impl Layer for Cap {
    ghost turns = { turns_cap };

    ghost adds = { capped ∷ [] };

    ghost shrinks = { Prim.search rules };

    ghost keeps = { Prim.search rules };

    fn turn(&self, standing: &Standing, below: i64) -> i64 {
        if standing.award() >= 0 {
            below.min(2 * standing.cap_base())
        } else {
            below
        }
    }
}

#[derive(Clone, Copy, Debug, PartialEq, Eq)]
pub struct Withhold;

impl Layer for Withhold {
    ghost turns = { turns_withhold };

    ghost adds = { [] };

    ghost shrinks = { Prim.search rules };

    ghost keeps = { Prim.search rules };

    fn turn(&self, standing: &Standing, below: i64) -> i64 {
        if standing.commitment() > 0 && !standing.mark().is_ready() {
            below.min(0)
        } else {
            below
        }
    }
}
