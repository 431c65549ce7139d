//! Orders in which things come.
ghost use Rattle.std.specs.Prelude.{◌≡◌, ◌<◌, ◌≤◌, ◌^◌};
ghost use Rattle.hc_bench.specs.Places.{place_of};

use crate::error::BenchError;

#[derive(Clone, Copy)]
pub(crate) enum Order {
    /// From the first to the last.
    Forward,
    /// From the last to the first.
    Backward,
    /// Every second one from the first on, and then the others.
    Alternate,
}

/// The order that the word names.
pub(crate) fn order_of(word: &str) -> Result<Order, BenchError> {
    match word {
        "forward" => Ok(Order::Forward),
        "backward" => Ok(Order::Backward),
        "alternate" => Ok(Order::Alternate),
        _ => Err(BenchError::Usage),
    }
}

/// The place of what comes as the k-th of `count`.
pub(crate) fn place(order: Order, k: u64, count: u64) -> u64
    requires within { k < count }
    requires few { count ≤ 2 ^ 20 }
    ensures { result ≡ place_of order k count }
{
    match order {
        Order::Forward => k,
        Order::Backward => count - 1 - k,
        Order::Alternate => {
            let evens = (count + 1) / 2;
            if k < evens {
                2 * k
            } else {
                2 * (k - evens) + 1
            }
        }
    }
}
