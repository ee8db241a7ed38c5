// One line of input: a pool, a claim on it, or an asset's standing with the total due to it.
use payment::{Mark, Refusal, Standing};
use std::str::{FromStr, SplitWhitespace};
use thiserror::Error;

#[derive(Clone, Copy, Debug, PartialEq, Eq)]
pub struct Due {
    pub standing: Standing,
    pub total: i64,
}

#[derive(Clone, Copy, Debug, PartialEq, Eq)]
pub enum Entry {
    // an empty line
    Nothing,
    Pool(u64),
    Claim(u64),
    Due(Due),
}

// Why a line is not taken.
#[derive(Clone, Copy, Debug, PartialEq, Eq, Error)]
pub enum Fault {
    // its words are no entry
    #[error("it cannot be read")]
    Unreadable,
    #[error("a value is outside its range (refusal {number})", number = .0.number())]
    Refused(#[from] Refusal),
}

// The next word, as a number.
fn number<F: FromStr>(words: &mut SplitWhitespace<'_>) -> Result<F, Fault>
where
    F::Err: Drop,
{
    let word = words.next().ok_or(Fault::Unreadable)?;
    word.parse().map_err(|_| Fault::Unreadable)
}

// A word that has to stand next, with the number behind it.
fn named<F: FromStr>(words: &mut SplitWhitespace<'_>, name: &str) -> Result<F, Fault>
where
    F::Err: Drop,
{
    if words.next() != Some(name) {
        return Err(Fault::Unreadable);
    }
    number(words)
}

fn read_due(words: &mut SplitWhitespace<'_>) -> Result<Due, Fault> {
    let award = named(words, "award")?;
    let cap_base = named(words, "cap")?;
    let commitment = named(words, "kw")?;
    let mark: u64 = named(words, "mark")?;
    let total = named(words, "total")?;
    let standing = Standing::new(award, cap_base, commitment, mark.try_into()?)?;
    Ok(Due { standing, total })
}

impl FromStr for Entry {
    type Err = Fault;

    fn from_str(line: &str) -> Result<Entry, Fault> {
        let mut words = line.split_whitespace();
        let entry = match words.next() {
            None => Entry::Nothing,
            Some("pool") => Entry::Pool(number(&mut words)?),
            Some("claim") => Entry::Claim(number(&mut words)?),
            Some("asset") => Entry::Due(read_due(&mut words)?),
            Some(_) => return Err(Fault::Unreadable),
        };
        match words.next() {
            None => Ok(entry),
            Some(_) => Err(Fault::Unreadable),
        }
    }
}
