// Reads the lines of a settlement book from standard input, and prints the transcript: pro rata, and the standard pile.
#![tactic(auto)]

use payment::standard_pile;
use sharing::ProRata;
use std::io::{Read, Write};
use text::{INPUT_MOST, settle};

// One byte past the limit tells that an input is too long, so no more is read.
fn run(rt: &HostRuntime) -> anyhow::Result<()> {
    let mut input = Vec::new(rt.alloc());
    rt.stdin()
        .take(INPUT_MOST as u64 + 1)
        .read_to_end(&mut input)?;
    let (transcript, _book) = settle(rt.alloc(), ProRata, standard_pile(), &input)?;
    rt.stdout().write_all(&transcript)?;
    Ok(())
}

fn main(rt: HostRuntime) -> anyhow::Result<()> {
    run(&rt)
}

#[cfg(test)]
mod tests {
    use book::{ByClass, Row};
    use text::{ClosedPeriod, Fault, Invoice, Line, PAGE_LEAST, Refusal, RefusedLine, write};

    const ROW: Row = Row {
        asset: 7,
        award: 1000,
        taken: ByClass {
            delivery: 1000,
            availability: 0,
        },
        share: ByClass::NONE,
        payment: 0,
        balance: -300,
    };

    // Whether a line is written into a page of sevens as this text, and no byte behind it is another.
    fn writes<L: Line>(line: &L, text: &[u8]) -> bool {
        let mut page = [7; PAGE_LEAST];
        let answer = write(&mut page, line);
        answer == Ok(text.len())
            && page.starts_with(text)
            && page.iter().skip(text.len()).all(|b| *b == 7)
    }

    #[test]
    fn writes_the_lines_as_they_are_spelled(rt: HostRuntime) {
        let text = b"(row (asset 7) (award 1000) (taken 1000) (share 0) (paid 0) (carried -300))\n";
        assert!(rt; writes(&ROW, text));
        let closed = ClosedPeriod {
            period: 1,
            residues: ByClass {
                delivery: 1000,
                availability: 0,
            },
        };
        let text = b"(closed (period 1) (delivery 1000) (availability 0))\n";
        assert!(rt; writes(&closed, text));
        let invoice = Invoice {
            asset: 7,
            cents: 200,
        };
        assert!(rt; writes(&invoice, b"(invoice (asset 7) (cents 200))\n"));
        let refused = RefusedLine {
            line: 5,
            fault: Fault::Book(book::Refusal::NotListed),
        };
        let text = b"(refused (line 5) (byte 1) (layer book) (number 8))\n";
        assert!(rt; writes(&refused, text));
    }

    #[test]
    fn writes_a_sum_past_64_bits(rt: HostRuntime) {
        let most = ByClass {
            delivery: u64::MAX,
            availability: u64::MAX,
        };
        let row = Row { taken: most, ..ROW };
        let text =
            b"(row (asset 7) (award 1000) (taken 36893488147419103230) (share 0) (paid 0) (carried -300))\n";
        assert!(rt; writes(&row, text));
    }

    #[test]
    fn leaves_a_page_that_is_too_short(rt: HostRuntime) {
        let mut page = [7; PAGE_LEAST - 1];
        assert_eq!(rt; write(&mut page, &ROW), Err(Refusal::ShortPage));
        assert_eq!(rt; Refusal::ShortPage.number(), 16);
        assert!(rt; page.iter().all(|b| *b == 7));
    }
}
