// What closes take of charges, and how they share it.
use crate::act::Act;
use book::Class;

pub const CLAIMS: [Act; 17] = [
    Act::ListTo(4),
    Act::Term(1, 100, 500, true),
    Act::Term(2, 100, 500, true),
    Act::Term(3, 100, 500, true),
    Act::Term(4, 100, 500, true),
    Act::Over(Class::Delivery, 1, 50),
    Act::Over(Class::Delivery, 2, 30),
    Act::Over(Class::Delivery, 3, 40),
    Act::Under(Class::Delivery, 4, 100),
    Act::Close(4),
    Act::Under(Class::Delivery, 4, 50),
    Act::Close(4),
    Act::Over(Class::Delivery, 1, 1),
    Act::Over(Class::Delivery, 2, 1),
    Act::Over(Class::Delivery, 3, 1),
    Act::Under(Class::Delivery, 4, 1),
    Act::Close(4),
];

pub const SET_OFF: [Act; 12] = [
    Act::List(7, 1),
    Act::List(8, 1),
    Act::Term(7, 0, 500, true),
    Act::Term(8, 100, 500, true),
    Act::Over(Class::Delivery, 7, 100),
    Act::Under(Class::Delivery, 7, 100),
    Act::Close(2),
    Act::Look(7),
    Act::Under(Class::Delivery, 8, 100),
    Act::Close(2),
    Act::Look(7),
    Act::Close(2),
];

pub const NEGATIVE_AWARD: [Act; 10] = [
    Act::ListTo(2),
    Act::Term(1, -400, 500, true),
    Act::Term(2, 400, 500, true),
    Act::Months(11),
    Act::Under(Class::Delivery, 1, 30),
    Act::Under(Class::Availability, 1, 20),
    Act::Over(Class::Delivery, 2, 10),
    Act::Over(Class::Availability, 2, 25),
    Act::Close(2),
    Act::Close(2),
];

pub const DELIVERY_FIRST: [Act; 11] = [
    Act::List(7, 1),
    Act::List(8, 1),
    Act::Term(7, 100, 500, true),
    Act::Term(8, 0, 500, true),
    Act::Months(11),
    Act::Under(Class::Delivery, 7, 70),
    Act::Under(Class::Availability, 7, 80),
    Act::Over(Class::Availability, 8, 200),
    Act::Close(2),
    Act::Resolve(7, 60),
    Act::Close(2),
];
