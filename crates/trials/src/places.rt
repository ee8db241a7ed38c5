// Empty and full books, and row lists of any length.
use crate::act::Act;
use book::Class;

pub const FEW: [Act; 7] = [
    Act::Close(0),
    Act::Close(3),
    Act::Pools,
    Act::ListTo(2),
    Act::Close(1),
    Act::Close(2),
    Act::Close(5),
];

pub const FULL: [Act; 16] = [
    Act::ListTo(64),
    Act::List(65, 1),
    Act::List(65, 1_000),
    Act::List(64, 1),
    Act::List(1, 1),
    Act::Close(63),
    Act::Pools,
    Act::Term(1, 100, 500, true),
    Act::Term(64, 100, 500, true),
    Act::Under(Class::Delivery, 1, 60),
    Act::Over(Class::Delivery, 64, 90),
    Act::Months(1),
    Act::Look(1),
    Act::Look(64),
    Act::List(65, 1),
    Act::Pools,
];
