// What is paid of a total, and what is carried.
use crate::act::Act;
use book::Class;

pub const CAP_AND_FLOOR: [Act; 11] = [
    Act::List(7, 1),
    Act::Term(7, 400, 500, true),
    Act::Uplift(7, 400),
    Act::Close(1),
    Act::Uplift(7, 401),
    Act::Close(1),
    Act::Close(1),
    Act::Resolve(7, -401),
    Act::Under(Class::Delivery, 7, 50),
    Act::Close(1),
    Act::Close(1),
];

// Asset 7 is ready late, asset 8 is committed to nothing, asset 9 owes by its award.
pub const WITHHELD: [Act; 18] = [
    Act::List(7, 1),
    Act::List(8, 1),
    Act::List(9, 1),
    Act::Term(7, 400, 500, false),
    Act::Term(8, 400, 0, false),
    Act::Term(9, -400, 500, false),
    Act::Close(3),
    Act::Resolve(9, 430),
    Act::Ready(7),
    Act::Ready(7),
    Act::Look(7),
    Act::Close(3),
    Act::Look(7),
    Act::Ready(7),
    Act::Ready(9),
    Act::Close(3),
    Act::Resolve(9, 430),
    Act::Close(3),
];

// Withheld for a year, and then paid up to the cap without a term.
pub const LARGE_SUMS: [Act; 9] = [
    Act::List(7, 1),
    Act::Term(7, 1_000_000_000, 1, false),
    Act::Months(12),
    Act::Look(7),
    Act::Resolve(7, 1_000_000_000),
    Act::Close(1),
    Act::Months(4),
    Act::Close(1),
    Act::Close(1),
];

pub const OTHER_PILES: [Act; 6] = [
    Act::List(7, 1),
    Act::Term(7, 400, 500, false),
    Act::Resolve(7, -401),
    Act::Close(1),
    Act::Uplift(7, 10_000),
    Act::Close(1),
];
