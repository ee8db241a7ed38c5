// What a run of letters, digits and minus signs is.
ghost use Rattle.std.specs.Prelude.{◌≡◌, ◌≤◌, true, length};
ghost use Rattle.text.specs.Tokens.{all_within, digits, magnitude, natural, numeral, word};

fn all_letters(run: &[u8]) -> bool
    ensures { result ≡ all_within 97 122 run.now }
{
    run.iter().all(u8::is_ascii_lowercase)
}

fn all_digits(run: &[u8]) -> bool
    ensures { result ≡ digits run.now }
{
    run.iter().all(u8::is_ascii_digit)
}

pub(crate) fn is_word(run: &[u8]) -> bool
    ensures value { result ≡ word run.now }
{
    (1..=12).contains(&run.len()) && all_letters(run)
}

fn is_natural(run: &[u8]) -> bool
    ensures value { result ≡ natural run.now }
{
    (1..=15).contains(&run.len()) && all_digits(run) && (run.len() == 1 || run[0] != b'0')
}

fn is_numeral(run: &[u8]) -> bool
    ensures value { result ≡ numeral run.now }
{
    match run {
        [b'-', digits @ ..] => is_natural(digits) && digits[0] != b'0',
        _ => is_natural(run),
    }
}

// What at most 15 digits say.
fn magnitude_of(run: &[u8]) -> u64
    requires { (digits run.now ≡ true) × (length run.now ≤ 15) }
    ensures value { result ≡ magnitude run.now }
    ensures bound { result ≤ 999999999999999 }
{
    let mut n = 0;
    for b in run {
        n = n * 10 + u64::from(*b - b'0');
    }
    n
}

// A run that is a number.
#[derive(Clone, Copy, Debug, PartialEq, Eq)]
pub(crate) struct Numeral<'a> {
    run: &'a [u8],
    ghost valid: { numeral run.now ≡ true },
}

impl<'a> Numeral<'a> {
    ghost use Rattle.std.specs.Prelude.{false, MatchOption};
    ghost use Rattle.text.specs.Tokens.{value};

    pub(crate) fn new(run: &'a [u8]) -> Option<Numeral<'a>>
        ensures { MatchOption result (numeral run.now ≡ false) (λ n. n.run.now ≡ run.now) }
    {
        if is_numeral(run) {
            Some(Numeral { run })
        } else {
            None
        }
    }

    // What it says.
    pub(crate) fn value(self) -> i64
        ensures { result ≡ value self.entry.run.now }
    {
        match self.run {
            [b'-', digits @ ..] => -(magnitude_of(digits) as i64),
            digits => magnitude_of(digits) as i64,
        }
    }
}
