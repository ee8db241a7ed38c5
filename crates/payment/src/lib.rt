// What of a total is paid now: the standing of an asset, payment rules and their law, and the piles that layers make.
#![tactic(auto)]

mod figures;
mod layers;
mod mark;
mod pile;
mod refusal;
mod rule;
mod standing;

pub use figures::worked_figures;
pub use layers::{Cap, Floor, Layer, Withhold};
pub use mark::Mark;
pub use pile::{Over, StandardPile, standard_payment, standard_pile};
pub use refusal::Refusal;
pub use rule::{PaymentRule, Whole, payment};
pub use standing::{AWARD_MOST, CAP_BASE_MOST, COMMITMENT_MOST, Standing};
