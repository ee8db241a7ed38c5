// Walks papers down every road from filing to their end, and prints each step.
// Each `unwrap` and `unwrap_err` is proved from what the calls promise: which are taken, and which are refused.
#![tactic(auto)]

use dispute::{Filed, Note, Paper, Refusal, Served};
use std::{fmt, io};

// What a paper is for.
#[derive(Clone, Copy, Debug)]
struct Subject {
    asset: u64,
    period: u64,
}

impl Subject {
    fn of<S>(paper: &Paper<S>) -> Subject {
        Subject {
            asset: paper.asset(),
            period: paper.period(),
        }
    }
}

// What is printed of a step on a paper's road.
#[derive(Clone, Copy, Debug)]
enum Step {
    Taken(&'static str),
    Refused(&'static str, Refusal),
    Served { cents: i64, day: u64 },
    Noted(Note),
}

impl Step {
    fn served(paper: &Served) -> Step {
        Step::Served {
            cents: paper.cents(),
            day: paper.day(),
        }
    }
}

impl fmt::Display for Step {
    fn fmt<W: fmt::Write>(&self, f: &mut fmt::Formatter<W>) -> fmt::Result {
        match self {
            Step::Taken(act) => f.write_str(act),
            Step::Refused(act, why) => write!(f, "{act}: refused by {}", why.number()),
            Step::Served { cents, day } => write!(f, "{cents} cents offered: served on day {day}"),
            Step::Noted(note) => write!(f, "noted: asset {}, {} cents", note.asset, note.cents),
        }
    }
}

// Prints a paper's road. The paper is spent by now, so a failure to print lets none go.
fn tell(rt: &HostRuntime, subject: Subject, steps: &[Step]) -> io::Result<()> {
    println!(rt; "asset {}, period {}", subject.asset, subject.period)?;
    for step in steps {
        println!(rt; "  {step}")?;
    }
    Ok(())
}

// Filed too early and offered nothing at first, accepted too late and then on the last day.
fn by_acceptance(rt: &HostRuntime) -> io::Result<()> {
    let early = Filed::file(7, 1, 4).unwrap_err();
    let filed = Filed::file(7, 1, 5).unwrap();
    let (filed, nothing) = filed.offer(0, 100).unwrap_err();
    let paper = filed.offer(50_000, 100).unwrap();
    let (paper, late) = paper.accept(131).unwrap_err();
    let (subject, served) = (Subject::of(&paper), Step::served(&paper));
    let resolution = paper.accept(130).unwrap();
    let note = resolution.note();
    let steps = [
        Step::Refused("filed after 4 closes", early),
        Step::Taken("filed after 5 closes"),
        Step::Refused("0 cents offered on day 100", nothing),
        served,
        Step::Refused("accepted on day 131", late),
        Step::Taken("accepted on day 130"),
        Step::Noted(note),
    ];
    tell(rt, subject, &steps)
}

// Nobody replies for thirty days.
fn by_lapse(rt: &HostRuntime) -> io::Result<()> {
    let filed = Filed::file(8, 2, 6).unwrap();
    let paper = filed.offer(-1_200, 100).unwrap();
    let (paper, early) = paper.lapse(130).unwrap_err();
    let (subject, served) = (Subject::of(&paper), Step::served(&paper));
    let note = paper.lapse(131).unwrap().note();
    let steps = [
        Step::Taken("filed after 6 closes"),
        served,
        Step::Refused("lapsed on day 130", early),
        Step::Taken("lapsed on day 131"),
        Step::Noted(note),
    ];
    tell(rt, subject, &steps)
}

// Rejected, and determined at another sum than the one offered.
fn by_determination(rt: &HostRuntime) -> io::Result<()> {
    let filed = Filed::file(9, 3, 7).unwrap();
    let paper = filed.offer(700, 100).unwrap();
    let served = Step::served(&paper);
    let (paper, early) = paper.reject(99).unwrap_err();
    let referred = paper.reject(100).unwrap();
    let (referred, much) = referred.determine(1_000_000_001).unwrap_err();
    let subject = Subject::of(&referred);
    let note = referred.determine(900).unwrap().note();
    let steps = [
        Step::Taken("filed after 7 closes"),
        served,
        Step::Refused("rejected on day 99", early),
        Step::Taken("rejected on day 100: referred"),
        Step::Refused("determined at 1000000001 cents", much),
        Step::Taken("determined at 900 cents"),
        Step::Noted(note),
    ];
    tell(rt, subject, &steps)
}

// Withdrawn before an offer.
fn withdrawn_from_filed(rt: &HostRuntime) -> io::Result<()> {
    let filed = Filed::file(10, 356, 360).unwrap();
    let (filed, never) = filed.offer(700, 100_001).unwrap_err();
    let subject = Subject::of(&filed);
    filed.withdraw();
    let steps = [
        Step::Taken("filed after 360 closes"),
        Step::Refused("700 cents offered on day 100001", never),
        Step::Taken("withdrawn"),
    ];
    tell(rt, subject, &steps)
}

// Served so late that it cannot lapse, rejected on the last day there is, and withdrawn before a determination.
fn withdrawn_from_referred(rt: &HostRuntime) -> io::Result<()> {
    let filed = Filed::file(11, 4, 8).unwrap();
    let paper = filed.offer(700, 99_970).unwrap();
    let served = Step::served(&paper);
    let (paper, early) = paper.lapse(100_000).unwrap_err();
    let (paper, never) = paper.lapse(100_001).unwrap_err();
    let referred = paper.reject(100_000).unwrap();
    let subject = Subject::of(&referred);
    referred.withdraw();
    let steps = [
        Step::Taken("filed after 8 closes"),
        served,
        Step::Refused("lapsed on day 100000", early),
        Step::Refused("lapsed on day 100001", never),
        Step::Taken("rejected on day 100000: referred"),
        Step::Taken("withdrawn"),
    ];
    tell(rt, subject, &steps)
}

fn main(rt: HostRuntime) -> io::Result<()> {
    by_acceptance(&rt)?;
    by_lapse(&rt)?;
    by_determination(&rt)?;
    withdrawn_from_filed(&rt)?;
    withdrawn_from_referred(&rt)
}
