//! Lines of consumers.
ghost use Rattle.std.specs.Prelude.{◌≤◌, ◌^◌};

use crate::error::BenchError;
use crate::order::{Order, order_of, place};
use crate::words::{number_of, times_of};
use hc_entry::KeyLine;
use std::alloc::Global;

/// The most consumers of a line.
const MOST: u64 = 1 << 20;

/// Where a consumer goes.
#[derive(Clone, Copy)]
enum Step {
    Pass,
    Away,
    Back,
    Leave,
}

/// `ORDER CONSUMERS COUNT`.
pub(crate) fn run(alloc: Global, words: &[String]) -> Result<(), BenchError> {
    let [order, count, times] = words else {
        return Err(BenchError::Usage);
    };
    let order = order_of(order.as_str())?;
    let count = number_of(count.as_str(), 1, MOST)?;
    for _round in 0..times_of(times.as_str())? {
        walk(alloc, order, count)?;
    }
    Ok(())
}

/// So many consumers enter in order of number, and then all pass, are sent back, go away, come back and
/// leave, each time in this order.
fn walk(alloc: Global, order: Order, count: u64) -> Result<(), BenchError>
    requires { count ≤ 2 ^ 20 }
{
    let mut line = KeyLine::new(alloc);
    enter_each(&mut line, count)?;
    for step in [Step::Pass, Step::Back, Step::Away, Step::Back, Step::Leave] {
        step_each(&mut line, step, order, count);
    }
    Ok(())
}

/// So many consumers enter.
fn enter_each(line: &mut KeyLine, count: u64) -> Result<(), BenchError> {
    for c in 0..count {
        if !line.is_in(c) {
            line.enter(c)?;
        }
    }
    Ok(())
}

/// Each consumer of the line takes the step.
fn step_each(line: &mut KeyLine, step: Step, order: Order, count: u64)
    requires { count ≤ 2 ^ 20 }
{
    for k in 0..count {
        let c = place(order, k, count);
        if !line.is_in(c) {
            continue;
        }
        match step {
            Step::Pass => line.pass(c),
            Step::Away => line.away(c),
            Step::Back => line.back(c),
            Step::Leave => line.leave(c),
        }
    }
}
