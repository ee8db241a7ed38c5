// Calls on which several grounds of refusal hold: the lowest number is named.
use crate::act::Act;
use book::Class;

// Where several grounds hold, they stand beside the act. Asset 9 is not listed before the end, and no asset has a term at first.
pub const GROUNDS: [Act; 56] = [
    Act::List(7, 1),
    Act::List(8, 1),
    Act::List(7, 1_000), // 4 and 6
    Act::List(7, 2),
    Act::Term(9, 1_000_000_001, 0, false), // 4 and 8
    Act::Term(9, 0, 0, false),
    Act::Over(Class::Delivery, 9, 0), // 4 and 8
    Act::Over(Class::Availability, 9, 1), // 8 and 9
    Act::Under(Class::Availability, 9, 1), // 8 and 9
    Act::Over(Class::Availability, 7, 0), // 4, 9 and 11
    Act::Over(Class::Availability, 7, 1), // 9 and 11
    Act::Under(Class::Availability, 7, 1), // 9 and 11
    Act::Over(Class::Delivery, 7, 1),
    Act::Under(Class::Delivery, 7, 1),
    Act::Uplift(7, 1),
    Act::Uplift(9, 0), // 4 and 8
    Act::Uplift(9, 1),
    Act::Payin(9, 0), // 4 and 8
    Act::Payin(9, 1),
    Act::Payin(7, 0), // 4 and 14
    Act::Payin(7, 1),
    Act::Ready(9),
    Act::Resolve(9, 5),
    Act::Close(1),
    Act::Look(7),
    Act::Pools,
    // Asset 8 still has no term.
    Act::Part("several grounds, at the limits"),
    Act::Term(7, 0, 500, true),
    Act::Term(7, 0, 500, true),
    Act::Term(7, 1_000_000_001, 500, true), // 4 and 10
    Act::Over(Class::Delivery, 7, 1_000_000_000),
    Act::Over(Class::Delivery, 7, 1_000_000_000),
    Act::Over(Class::Delivery, 7, 1),
    Act::Over(Class::Delivery, 7, 1_000_000_001), // 4 and 13
    Act::Over(Class::Delivery, 9, 1), // 8 and 13
    Act::Over(Class::Delivery, 8, 1), // 11 and 13
    Act::Under(Class::Delivery, 7, 1_000_000_000),
    Act::Under(Class::Delivery, 7, 1_000_000_000),
    Act::Under(Class::Delivery, 7, 1),
    Act::Under(Class::Delivery, 9, 1), // 8 and 13
    Act::Under(Class::Delivery, 8, 1), // 11 and 13
    Act::Resolve(8, 1_000_000_000),
    Act::Resolve(8, 1),
    Act::Uplift(8, 1), // 11 and 13
    Act::Ready(8),
    Act::Ready(8),
    Act::Ready(7),
    Act::Part("several grounds, in month 2"),
    Act::Close(2),
    Act::Term(9, 0, 0, false), // 8 and 9
    Act::Term(7, 0, 500, true), // 9 and 10
    Act::Term(8, 0, 500, true),
    Act::Over(Class::Availability, 7, 1),
    Act::Under(Class::Availability, 8, 1), // 9 and 11
    Act::ResolveTwice(9, 5),
    Act::Look(9),
];
