//! Lists of numbers to sort.
use std::alloc::{AllocError, Global};
use std::fmt;

/// The numbers below some count, in some order.
#[derive(Clone, Copy)]
pub(crate) struct Numbers {
    count: u32,
    order: Order,
}

#[derive(Clone, Copy)]
enum Order {
    Rising,
    Falling,
    Mixed,
}

impl Numbers {
    pub(crate) const ALL: [Numbers; 3] = [
        Numbers {
            count: 100,
            order: Order::Falling,
        },
        Numbers {
            count: 100,
            order: Order::Mixed,
        },
        Numbers {
            count: 10_000,
            order: Order::Mixed,
        },
    ];

    pub(crate) fn are_many(self) -> bool {
        self.count > 1000
    }

    /// The same numbers in their order.
    pub(crate) fn sorted(self) -> Numbers {
        Numbers {
            count: self.count,
            order: Order::Rising,
        }
    }

    pub(crate) fn list(self, alloc: Global) -> Result<Vec<u32>, AllocError> {
        let mut list = Vec::new(alloc);
        for place in 0..self.count {
            list.push(match self.order {
                Order::Rising => place,
                Order::Falling => self.count - 1 - place,
                // Each number comes once, since 37 divides no power of ten.
                Order::Mixed => place.wrapping_mul(37) % self.count,
            })?;
        }
        Ok(list)
    }
}

impl fmt::Display for Numbers {
    fn fmt<W: fmt::Write>(&self, f: &mut fmt::Formatter<W>) -> fmt::Result {
        let order = match self.order {
            Order::Rising => "rising",
            Order::Falling => "falling",
            Order::Mixed => "mixed",
        };
        write!(f, "{} {order}", self.count)
    }
}
