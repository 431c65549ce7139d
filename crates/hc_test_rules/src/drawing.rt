//! Calls of `hc_generate`, with a small cache whose events and counts were worked out apart.
ghost use Rattle.std.specs.Prelude.{◌≡◌, ◌+◌, ◌<◌, ◌≤◌, ◌^◌, OnOk};

use crate::echo::Echo;
use crate::reported::{report_event, report_text};
use hc_event::Event;
use hc_generate::Generator;
use hc_test_frame::{Fault, Vector};
use hc_text::NoMemory;
use std::alloc::Global;

/// The most rounds.
const MOST: u64 = 10_000;

/// Writes the value of the call. `NoSuchCall` where it is none of these.
pub(crate) fn call(v: &Vector, to: &mut String) -> Result<(), Fault> {
    match v.call() {
        "event_of_seed nn" => report_drawn(v, to),
        "summary_of_seed nn" => report_summary(v, to),
        _ => Err(Fault::NoSuchCall),
    }
}

/// Writes the event of a seed that has this number, and its moment.
fn report_drawn(v: &Vector, to: &mut String) -> Result<(), Fault> {
    let mut generator = Generator::new(v.alloc(), v.number(0));
    let drawn = walk(&mut generator, v.alloc(), MOST, v.number(1))?;
    report_at(generator.moment(), &drawn, to)
}

/// Writes the event, if there is one, and its moment.
fn report_at(moment: u64, drawn: &Option<Event>, to: &mut String) -> Result<(), Fault> {
    match drawn {
        Some(event) => {
            write!(to, "{moment} ")?;
            report_event(event, to)
        }
        None => Err(Fault::NoSuchCall),
    }
}

/// Writes what was counted after so many rounds from a seed.
fn report_summary(v: &Vector, to: &mut String) -> Result<(), Fault> {
    let rounds = v.number(1);
    if rounds > MOST {
        return Err(Fault::NoSuchCall);
    }
    let mut generator = Generator::new(v.alloc(), v.number(0));
    walk(&mut generator, v.alloc(), rounds, 0)?;
    report_counts(&generator, v.alloc(), to)
}

fn report_counts(generator: &Generator, alloc: Global, to: &mut String) -> Result<(), Fault> {
    let mut summary = Vec::new(alloc);
    generator.write_summary(&mut summary)?;
    report_text(&summary, to)
}

/// Goes on by so many rounds, or up to the event of this number, which is told then.
fn walk(
    generator: &mut Generator,
    alloc: Global,
    rounds: u64,
    number: u64,
) -> Result<Option<Event>, NoMemory>
    requires few { rounds ≤ 10000 }
    requires moment { generator.old.moment ≤ 1000000 }
    requires last { generator.old.last ≤ 0 }
{
    go_on(generator, &mut Echo::new(alloc), rounds, number)
}

fn go_on(
    generator: &mut Generator,
    echo: &mut Echo,
    rounds: u64,
    number: u64,
) -> Result<Option<Event>, NoMemory>
    requires few { rounds ≤ 10000 }
    requires moment { generator.old.moment ≤ 1000000 }
    requires last { generator.old.last ≤ 0 }
{
    let mut made = 0_u64;
    for _i in 0..rounds {
        let drawn = round(generator, echo)?;
        if drawn.is_some() {
            made = made.saturating_add(1);
            if made == number {
                return Ok(drawn);
            }
        }
    }
    Ok(None)
}

/// The event of a round, if it makes one, which the cache answers.
fn round(generator: &mut Generator, echo: &mut Echo) -> Result<Option<Event>, NoMemory>
    requires moment { generator.old.moment + 30 < 2 ^ 62 }
    requires last { generator.old.last + 1 < 2 ^ 62 }
    ensures later { OnOk result (generator.new.moment ≤ generator.old.moment + 30) }
    ensures more { OnOk result (generator.new.last ≤ generator.old.last + 1) }
{
    let drawn = generator.next(&echo.wanted()?)?;
    if let Some(event) = &drawn {
        answer(generator, echo, event)?;
    }
    Ok(drawn)
}

/// The generator hears what the cache does at the event.
fn answer(generator: &mut Generator, echo: &mut Echo, event: &Event) -> Result<(), NoMemory>
    ensures moment { OnOk result (generator.new.moment ≡ generator.old.moment) }
    ensures last { OnOk result (generator.new.last ≡ generator.old.last) }
{
    echo.step(event)?;
    generator.hear(echo.acts())
}
