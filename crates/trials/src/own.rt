// A book of a sharing rule and a pile that the libraries know nothing of.
use crate::act::Act;
use book::Class;

pub const THREE_SEATS: [Act; 17] = [
    Act::ListTo(3),
    Act::List(4, 1),
    Act::List(3, 1),
    Act::List(4, 0),
    Act::Term(1, 100, 500, false),
    Act::Term(2, 100, 500, false),
    Act::Term(3, 100, 500, false),
    Act::Over(Class::Delivery, 1, 50),
    Act::Over(Class::Delivery, 2, 30),
    Act::Under(Class::Delivery, 3, 60),
    Act::Close(2),
    Act::Close(4),
    Act::Resolve(3, -151),
    Act::Close(3),
    Act::Under(Class::Delivery, 3, 100),
    Act::Close(3),
    Act::List(4, 1),
];
