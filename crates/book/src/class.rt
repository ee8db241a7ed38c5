// The two classes of adjustments, and what is kept once for each.
ghost use Rattle.std.specs.Prelude.{◌≡◌, ◌+◌, ◌^◌, ◌<◌, ◌≤◌};
ghost use Rattle.book.specs.Class.{minus, more, of, plus};

#[derive(Clone, Copy, Debug, PartialEq, Eq)]
pub enum Class {
    Delivery,
    Availability,
}

// One value for each class.
#[derive(Clone, Copy, Debug, PartialEq, Eq)]
pub struct ByClass {
    pub delivery: u64,
    pub availability: u64,
}

impl ByClass {
    // Nothing in either.
    pub const NONE: ByClass = ByClass {
        delivery: 0,
        availability: 0,
    };

    // What is kept for a class.
    pub fn of(&self, class: Class) -> u64
        ensures value { result ≡ of class self.now }
    {
        match class {
            Class::Delivery => self.delivery,
            Class::Availability => self.availability,
        }
    }

    // The same with so much more in one class.
    pub(crate) fn more(self, class: Class, cents: u64) -> ByClass
        requires { of class self + cents < 2 ^ 64 }
        ensures value { result ≡ more class cents self }
    {
        match class {
            Class::Delivery => ByClass {
                delivery: self.delivery + cents,
                ..self
            },
            Class::Availability => ByClass {
                availability: self.availability + cents,
                ..self
            },
        }
    }

    // Class by class.
    pub(crate) fn plus(self, other: ByClass) -> ByClass
        requires { (self.delivery + other.delivery < 2 ^ 64) × (self.availability + other.availability < 2 ^ 64) }
        ensures value { result ≡ plus self other }
    {
        ByClass {
            delivery: self.delivery + other.delivery,
            availability: self.availability + other.availability,
        }
    }

    // Class by class; no more is taken off than there is.
    pub(crate) fn minus(self, other: ByClass) -> ByClass
        requires { (other.delivery ≤ self.delivery) × (other.availability ≤ self.availability) }
        ensures value { result ≡ minus self other }
    {
        ByClass {
            delivery: self.delivery - other.delivery,
            availability: self.availability - other.availability,
        }
    }
}
