// What comes of a line.
use crate::print::{ClosedPeriod, Invoice};

#[derive(Clone, Copy, Debug, PartialEq, Eq)]
pub(crate) enum Answer {
    // nothing is printed
    Silent,
    Invoice(Invoice),
    // so many rows, and the end of the close
    Closed { count: usize, period: ClosedPeriod },
}
