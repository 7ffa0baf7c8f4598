// The lines that set a script up: a calendar, carried on or not, and a closed stretch or none. One function after the other, with what the
// next one needs: each layer makes a calendar of another type.
use crate::day::day;
use crate::output::{end_at, end_refused, say};
use crate::settings::{base, closed};
use crate::tally::TalliedWeight;
use crate::terms::Base;
use crate::words::next_line;
use calendars::calendar::Calendar;
use calendars::carried_on::CarriedOn;
use calendars::closed_stretch::ClosedStretch;
use calendars::even::Even;
use calendars::fault::CalendarFault;
use calendars::listed::Listed;

// A closed stretch, where the next line, of that number, has one; then the day.
fn from_closed<W: TalliedWeight, C: Calendar>(
    rt: &HostRuntime,
    calendar: &C,
    script: &[u8],
    number: u64,
) -> anyhow::Result<()> {
    let (line, rest) = next_line(script);
    let Some(stretch) = closed(line) else {
        return day::<W, C>(rt, calendar, script, number);
    };
    match ClosedStretch::new(calendar, stretch.first, stretch.past, stretch.links) {
        Ok(calendar) => {
            say(rt, line, "accepted")?;
            day::<W, ClosedStretch<&C>>(rt, &calendar, rest, number.saturating_add(1))
        }
        Err((fault, _)) => end_refused(rt, line, fault.number()),
    }
}

// Carried on, where the third line says so.
fn from_carried_on<W: TalliedWeight, C: Calendar>(
    rt: &HostRuntime,
    calendar: &C,
    script: &[u8],
) -> anyhow::Result<()> {
    let (line, rest) = next_line(script);
    match line {
        b"carried on" => {
            say(rt, line, "accepted")?;
            let calendar = CarriedOn::new(calendar);
            from_closed::<W, CarriedOn<&C>>(rt, &calendar, rest, 4)
        }
        _ => from_closed::<W, C>(rt, calendar, script, 3),
    }
}

// The calendar that the second line makes, or the end of the account where it makes none.
fn from_made<W: TalliedWeight, C: Calendar + Drop>(
    rt: &HostRuntime,
    line: &[u8],
    script: &[u8],
    made: Result<C, CalendarFault>,
) -> anyhow::Result<()> {
    match made {
        Ok(calendar) => {
            say(rt, line, "accepted")?;
            from_carried_on::<W, C>(rt, &calendar, script)
        }
        Err(fault) => end_refused(rt, line, fault.number()),
    }
}

// The calendar of the second line.
pub(crate) fn from_calendar<W: TalliedWeight>(
    rt: &HostRuntime,
    script: &[u8],
) -> anyhow::Result<()> {
    if script.is_empty() {
        return Ok(());
    }
    let (line, rest) = next_line(script);
    match base(rt.alloc(), line)? {
        Some(Base::Even { links, end }) => {
            from_made::<W, Even>(rt, line, rest, Even::new(links.min(255) as u8, end))
        }
        Some(Base::Listed(masks)) => {
            from_made::<W, Listed<'_>>(rt, line, rest, Listed::new(masks.as_slice()))
        }
        None => end_at(rt, 2),
    }
}
