/// In which order the moments of the pairs come.
#[derive(Clone, Copy)]
pub(crate) enum Order {
    Rising,
    Falling,
    Mixed,
}

/// An odd number: times it, modulo 2^64, no two numbers are the same, and they lie in no order.
const STRIDE: u64 = 0x9E37_79B9_7F4A_7C15;

impl Order {
    /// The moment of the pair with this ticket.
    pub(crate) fn moment(self, ticket: u64) -> u64 {
        match self {
            Order::Rising => ticket,
            Order::Falling => u64::MAX - ticket,
            Order::Mixed => ticket.wrapping_mul(STRIDE),
        }
    }
}
