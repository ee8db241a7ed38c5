// Sums paid in, up to exactly what is owed.
use crate::act::Act;
use book::Class;

pub const PAYINS: [Act; 20] = [
    Act::List(7, 1),
    Act::Term(7, 0, 500, true),
    Act::Resolve(7, -20),
    Act::Months(11),
    Act::Payin(7, 21),
    Act::Under(Class::Delivery, 7, 100),
    Act::Under(Class::Availability, 7, 50),
    Act::Look(7),
    Act::Payin(7, 171),
    Act::Payin(7, 120),
    Act::Look(7),
    Act::Pools,
    Act::Payin(7, 51),
    Act::Payin(7, 50),
    Act::Look(7),
    Act::Pools,
    Act::Payin(7, 1),
    Act::Over(Class::Delivery, 7, 10),
    Act::Payin(7, 1),
    Act::Close(1),
];
