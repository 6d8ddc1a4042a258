// The calendar of an election: its four windows, by the election day and the holidays.
#![tactic(auto)]

pub mod dates;
pub mod page;

ghost use Rattle.std.specs.Prelude.{◌≡◌, ◌+◌, ◌≤◌};
ghost use Rattle.schedule.specs.Windows as definitions;
ghost use Rattle.schedule.specs.Told.{weekday_from, from_second, from_first, from_next, moved, planned_on};
ghost use Rattle.schedule.specs.Told as told;

use protocol::Rule;

// A date of the Gregorian calendar, where it exists.
#[derive(Clone, Copy)]
pub struct Date {
    pub year: u32,
    pub month: u32,
    pub day: u32,
}

// By their numbers, 2000-01-01 being 0: the next working day after the election, the days of the first and of the second dice, and the
// last day of the objections.
#[derive(Clone, Copy)]
pub struct Days {
    pub next: u32,
    pub first: u32,
    pub second: u32,
    pub last: u32,
}

// In minutes from 2000-01-01 00:00; the end is not in it.
#[derive(Clone, Copy)]
pub struct Window {
    pub start: u64,
    pub end: u64,
}

// Polling, first dice, second dice, objections.
#[derive(Clone, Copy)]
pub struct Windows {
    pub polling: Window,
    pub first: Window,
    pub second: Window,
    pub objections: Window,
}

// What a window is for, by the order of the numbers, 1 to 4.
#[derive(Clone, Copy)]
pub enum Phase {
    Polling = 1,
    FirstDice,
    SecondDice,
    Objections,
}

impl Phase {
    // Its number.
    pub fn number(self) -> u32
        ensures { result ≡ definitions.phase_number self }
    {
        self as u32
    }
}

// ---- the days of the windows

// The first of Monday to Friday from a day on.
fn weekday_from(day: u32) -> u32
    requires { day ≤ 73100 }
    ensures { (result ≡ weekday_from day) × (result ≤ day + 2) }
{
    let w = (day + 5) % 7;
    if w < 5 { day } else { day + (7 - w) }
}

// The days, where there is no holiday after the second dice's.
fn from_second(next: u32, first: u32, second: u32) -> Days
    requires { second ≤ 73100 }
    ensures { result ≡ from_second next first second }
{
    Days {
        next,
        first,
        second,
        last: second + 14,
    }
}

// The days, where there is no holiday after the first dice's.
fn from_first(next: u32, first: u32) -> Days
    requires { first ≤ 73080 }
    ensures { result ≡ from_first next first }
{
    from_second(next, first, weekday_from(first + 1))
}

// The days, where there is no holiday after the next working day.
fn from_next(next: u32) -> Days
    requires { next ≤ 73060 }
    ensures { result ≡ from_next next }
{
    from_first(next, weekday_from(next + 1))
}

// The days with a holiday more, which is after all that there were.
fn move_days(s: Days, holiday: u32) -> Days
    requires { holiday ≤ 73048 }
    ensures { result ≡ moved s holiday }
{
    let after = weekday_from(holiday + 1);
    if holiday == s.next {
        from_next(after)
    } else if holiday == s.first {
        from_first(s.next, after)
    } else if holiday == s.second {
        from_second(s.next, s.first, after)
    } else if holiday == s.last {
        Days { last: after, ..s }
    } else {
        s
    }
}

// The days of the windows of an election on this day, by one pass over the holidays. What is planned is always right for the holidays met
// so far.
fn plan_on(day: u32, holidays: &[u32]) -> Result<Days, Rule>
    requires { day ≤ 73048 }
    ensures { result ≡ planned_on day holidays.now }
{
    let mut s = from_next(weekday_from(day + 1));
    let mut least: u32 = 0;
    for number in holidays {
        let date = dates::date_in(*number);
        if !dates::exists(date) {
            return Err(Rule::Day);
        }
        let holiday = dates::day_number(date);
        if holiday < least {
            return Err(Rule::Day);
        }
        s = move_days(s, holiday);
        least = holiday + 1;
    }
    Ok(s)
}

// The days of the windows of an election on this date.
pub(crate) fn plan(election: Date, holidays: &[u32]) -> Result<Days, Rule>
    ensures { result ≡ told.plan election holidays.now }
{
    if !dates::exists(election) {
        return Err(Rule::Day);
    }
    plan_on(dates::day_number(election), holidays)
}

// ---- the windows

// A minute by its day and hour.
fn minute_of(day: u32, hour: u64) -> u64
    requires { hour ≤ 24 }
    ensures { result ≡ definitions.minute_of day hour }
{
    day as u64 * 1440 + hour * 60
}

// From an hour of a day to an hour of a day.
fn hours(day: u32, hour: u64, last_day: u32, last_hour: u64) -> Window
    requires { (hour ≤ 24) × (last_hour ≤ 24) }
    ensures { result ≡ definitions.window day hour last_day last_hour }
{
    Window {
        start: minute_of(day, hour),
        end: minute_of(last_day, last_hour),
    }
}

// The windows by their days.
fn windows_on(day: u32, s: Days) -> Windows
    ensures { result ≡ definitions.windows_on day s }
{
    Windows {
        polling: hours(day, 8, day, 20),
        first: hours(s.first, 10, s.first, 12),
        second: hours(s.second, 10, s.second, 12),
        objections: hours(s.second, 12, s.last, 24),
    }
}

// Entry: the four windows of an election.
pub fn four_windows(election: Date, holidays: &[u32]) -> Result<Windows, Rule>
    ensures { definitions.schedule_answer result ≡ definitions.scheduled election holidays.now }
{
    let days = plan(election, holidays)?;
    Ok(windows_on(dates::day_number(election), days))
}

// ---- a minute

// Whether a minute is in a window.
fn is_inside(w: Window, minute: u64) -> bool
    ensures { result ≡ definitions.inside w minute }
{
    (w.start..w.end).contains(&minute)
}

// The window that a minute is in.
fn window_of(w: Windows, minute: u64) -> Option<Phase>
    ensures { definitions.phase_in result ≡ definitions.window_of w minute }
{
    if is_inside(w.polling, minute) {
        Some(Phase::Polling)
    } else if is_inside(w.first, minute) {
        Some(Phase::FirstDice)
    } else if is_inside(w.second, minute) {
        Some(Phase::SecondDice)
    } else if is_inside(w.objections, minute) {
        Some(Phase::Objections)
    } else {
        None
    }
}

// Entry: the window of an election that a minute is in.
pub fn window_at(election: Date, holidays: &[u32], minute: u64) -> Result<Option<Phase>, Rule>
    ensures { definitions.minute_answer result ≡ definitions.window_at election holidays.now minute }
{
    let windows = four_windows(election, holidays)?;
    Ok(window_of(windows, minute))
}
