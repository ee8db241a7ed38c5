// Plays tables of calls on books, and prints each call with its answer. What it should print was worked from the rules.
#![tactic(auto)]

mod act;
mod halved;
mod invoices;
mod last_first;
mod limits;
mod order;
mod own;
mod payins;
mod payments;
mod places;
mod play;
mod posting;
mod ranges;
mod shares;
mod tell;
mod years;

use book::worked_figures;
use halved::Halved;
use last_first::LastFirst;
use payment::{Cap, Over, Whole, standard_pile};
use play::Player;
use sharing::{ByRank, ProRata};

// Every table, each on a book of its own.
fn run(rt: &HostRuntime) -> anyhow::Result<()> {
    Player::open(rt, ProRata, standard_pile())?.play("assets and holders", &ranges::ENDS)?;
    Player::open(rt, ProRata, standard_pile())?.play(
        "several grounds, before a term",
        &order::GROUNDS,
    )?;
    Player::open(rt, ProRata, standard_pile())?.play("class totals", &limits::TOTALS)?;
    Player::open(rt, ProRata, standard_pile())?.play("the month's entries", &limits::ENTRIES)?;
    Player::open(rt, ProRata, standard_pile())?.play("balances at a term", &limits::BALANCES)?;
    Player::open(rt, ProRata, standard_pile())?.play("payins", &payins::PAYINS)?;
    Player::open(rt, ProRata, standard_pile())?.play("invoices", &invoices::SUMS)?;
    Player::open(rt, ProRata, standard_pile())?.play("a year before invoices", &invoices::CREDITS)?;
    Player::open(rt, ProRata, standard_pile())?.play(
        "a year without a term between",
        &invoices::YEARS_APART,
    )?;
    Player::open(rt, ProRata, standard_pile())?.play("claims pro rata", &shares::CLAIMS)?;
    Player::open(rt, ByRank, standard_pile())?.play("claims by rank", &shares::CLAIMS)?;
    Player::open(rt, ProRata, standard_pile())?.play("a claim beside a charge", &shares::SET_OFF)?;
    Player::open(rt, ByRank, standard_pile())?.play("a negative award", &shares::NEGATIVE_AWARD)?;
    Player::open(rt, ProRata, standard_pile())?.play("delivery first", &shares::DELIVERY_FIRST)?;
    Player::open(rt, ProRata, standard_pile())?.play("cap and floor", &payments::CAP_AND_FLOOR)?;
    Player::open(rt, ProRata, standard_pile())?.play("withheld until ready", &payments::WITHHELD)?;
    Player::open(rt, ProRata, standard_pile())?.play("large sums", &payments::LARGE_SUMS)?;
    Player::open(rt, ByRank, Over::new(Cap, Whole))?.play(
        "a pile of a cap alone",
        &payments::OTHER_PILES,
    )?;
    Player::open(rt, ProRata, Whole)?.play("a pile without a layer", &payments::OTHER_PILES)?;
    Player::open(rt, ProRata, standard_pile())?.play("the cap base", &years::CAP_BASE)?;
    Player::open(rt, ProRata, standard_pile())?.play("listed late", &years::LISTED_LATE)?;
    Player::open(rt, ProRata, standard_pile())?.play("the last periods", &years::LAST_PERIODS)?;
    Player::open(rt, ProRata, standard_pile())?.play("an empty book and row lists", &places::FEW)?;
    Player::open(rt, ByRank, standard_pile())?.play("a full book", &places::FULL)?;
    Player::open(rt, LastFirst, Halved)?.play(
        "a rule of three seats and a pile that pays half",
        &own::THREE_SEATS,
    )?;
    println!(rt; "worked figures {}", worked_figures())?;
    Ok(())
}

fn main(rt: HostRuntime) -> anyhow::Result<()> {
    run(&rt)
}
