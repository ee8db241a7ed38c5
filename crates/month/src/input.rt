// The input, line by line, to a month.
use crate::entry::{Due, Entry, Fault};
use std::alloc::{AllocError, Global};
use std::io::BufRead;
use thiserror::Error;

// What a month asks for.
#[derive(Debug, Drop)]
pub struct Month {
    pub pool: u64,
    pub claims: Vec<u64>,
    pub dues: Vec<Due>,
}

// Why an input is no month: memory ran out, or the first line that is not taken.
#[derive(Debug, Drop, Error)]
pub enum NotRead {
    #[error(transparent)]
    Memory(#[from] AllocError),
    #[error("line {line}: {fault}")]
    Line { line: usize, fault: Fault },
}

impl Month {
    fn new(heap: Global) -> Month {
        Month {
            pool: 0,
            claims: Vec::new(heap),
            dues: Vec::new(heap),
        }
    }

    // A later pool takes the place of an earlier one.
    fn enter(&mut self, entry: Entry) -> Result<(), AllocError> {
        match entry {
            Entry::Nothing => {}
            Entry::Pool(cents) => self.pool = cents,
            Entry::Claim(cents) => self.claims.push(cents)?,
            Entry::Due(due) => self.dues.push(due)?,
        }
        Ok(())
    }
}

// The whole input.
pub fn read_month<B: BufRead + Drop>(heap: Global, input: B) -> Result<Month, NotRead> {
    let mut month = Month::new(heap);
    for (before, text) in input.lines(heap).enumerate() {
        let entry = text
            .map_err(|_| Fault::Unreadable)
            .and_then(|text| text.parse::<Entry>())
            .map_err(|fault| NotRead::Line {
                line: before + 1,
                fault,
            })?;
        month.enter(entry)?;
    }
    Ok(month)
}

#[cfg(test)]
mod tests {
    use super::*;
    use std::test::Fail;

    // The number of the line that is not taken, 0 where all are, and whether a range is why.
    fn fault(heap: Global, text: &[u8]) -> Result<(usize, bool), AllocError> {
        match read_month(heap, text) {
            Ok(_) => Ok((0, false)),
            Err(NotRead::Line { line, fault }) => Ok((line, fault != Fault::Unreadable)),
            Err(NotRead::Memory(full)) => Err(full),
        }
    }

    #[test]
    fn names_the_line_that_is_not_taken(rt: HostRuntime) -> Result<(), Fail> {
        let texts: [&[u8]; 7] = [
            b"pool 5\n\nclaim 5\n",
            b"pool 5\nclaim -1\n",
            b"\npool 5 6",
            b"claim 1\nclaim 2\n\xff",
            b"asset award 4 cap 4 kw 5 mark 2\n",
            b"asset award 4 cap 4 kw 5 mark 3 total 1",
            b"pool 1\nasset award 4 cap -1 kw 5 mark 2 total 1",
        ];
        let faults = [
            (0, false),
            (2, false),
            (2, false),
            (3, false),
            (1, false),
            (1, true),
            (2, true),
        ];
        for (text, expected) in texts.iter().zip(faults.iter()) {
            assert_eq!(rt; fault(rt.alloc(), text)?, *expected);
        }
        Ok(())
    }
}
