// The page of the calendar: a line for each window, or for the refusal.
ghost use Rattle.std.specs.Prelude.{◌≡◌, ◌+◌, ◌*◌, ◌≤◌, ◌<◌, length, take, drop};
ghost use Rattle.laws.specs.Writing.{Went};
ghost use Rattle.protocol.specs.Results.{in_front};
ghost use Rattle.schedule.specs.Working.{weekday};
ghost use Rattle.schedule.specs.Page as definitions;
ghost use Rattle.schedule.specs.Told.{moment_most, page_most, SmallWindows, NameReady, EndReady, LineReady};

use crate::dates::date_of;
use crate::{Date, Window, Windows, four_windows};

// The most bytes that a page may have: four lines of a word, a moment, a tab, a moment and the line's end.
pub const LONGEST_PAGE: usize = 4 * (12 + 20 + 1 + 20 + 1);

// Writes a number in this many decimal digits from a place on, and answers the next place: all digits but the last, then the last.
fn put_padded(out: &mut [u8], at: usize, digits: usize, x: u32) -> usize
    requires { at + digits ≤ length out.old }
    ensures { Went out.old at (definitions.padded digits x) out.new result }
{
    if digits == 0 {
        return at;
    }
    let next = put_padded(out, at, digits - 1, x / 10);
    wire::put1(out, next, 48 + x % 10)
}

// Writes three characters of names that are three long each: those of name w, the first being 0.
fn put_name(out: &mut [u8], at: usize, names: &[u8], w: usize) -> usize
    requires { NameReady w at (length names.now) (length out.old) }
    ensures { Went out.old at (take 3 (drop (3 * w) names.now)) out.new result }
{
    let from = 3 * w;
    let to = from + 3;
    wire::copy(out, at, &names[from..to])
}

// Writes the name of a day of the week.
fn put_weekday(out: &mut [u8], at: usize, day: u32) -> usize
    requires { (day < 73414) × (at + 3 ≤ length out.old) }
    ensures { Went out.old at (definitions.weekday_text (weekday day)) out.new result }
{
    let w = ((day + 5) % 7) as usize;
    put_name(out, at, b"MonTueWedThuFriSatSun", w)
}

// Writes a date as in 2026-03-31.
fn put_date(out: &mut [u8], at: usize, t: Date) -> usize
    requires { at + 10 ≤ length out.old }
    ensures { Went out.old at (definitions.date_text t) out.new result }
{
    let year = put_padded(out, at, 4, t.year);
    let dash = wire::put1(out, year, 45);
    let month = put_padded(out, dash, 2, t.month);
    let second = wire::put1(out, month, 45);
    put_padded(out, second, 2, t.day)
}

// Writes a day with its hour, as in Tue 2026-03-31 08:00.
fn put_moment(out: &mut [u8], at: usize, day: u32, hour: u32) -> usize
    requires { (day < 73414) × (at + moment_most ≤ length out.old) }
    ensures { Went out.old at (definitions.moment_text day hour) out.new result }
{
    let name = put_weekday(out, at, day);
    let space = wire::put1(out, name, 32);
    let date = put_date(out, space, date_of(day));
    let second = wire::put1(out, date, 32);
    let hours = put_padded(out, second, 2, hour);
    wire::copy(out, hours, b":00")
}

// Writes a minute that starts an hour.
fn put_start(out: &mut [u8], at: usize, minute: u64) -> usize
    requires { (minute ≤ 105264000) × (at + moment_most ≤ length out.old) }
    ensures { Went out.old at (definitions.start_text minute) out.new result }
{
    let day = (minute / 1440) as u32;
    let hour = (minute % 1440 / 60) as u32;
    put_moment(out, at, day, hour)
}

// Writes a minute that ends an hour, by the day of the minute before it: midnight is 24:00.
fn put_end(out: &mut [u8], at: usize, minute: u64) -> usize
    requires { EndReady minute at (length out.old) }
    ensures { Went out.old at (definitions.end_text minute) out.new result }
{
    let last = minute - 1;
    let day = (last / 1440) as u32;
    let hour = ((last % 1440 + 1) / 60) as u32;
    put_moment(out, at, day, hour)
}

// Writes the line of a window.
fn put_window(out: &mut [u8], at: usize, word: &[u8], w: Window) -> usize
    requires { LineReady word.now w at (length out.old) }
    ensures { Went out.old at (definitions.window_line word.now w) out.new result }
{
    let first = wire::copy(out, at, word);
    let start = put_start(out, first, w.start);
    let tab = wire::put1(out, start, 9);
    let end = put_end(out, tab, w.end);
    wire::put1(out, end, 10)
}

// Writes the lines of the four windows from the start on, and answers their length.
fn put_windows(out: &mut [u8], w: Windows) -> usize
    requires { SmallWindows w × (page_most ≤ length out.old) }
    ensures { Went out.old 0 (definitions.window_lines w) out.new result }
{
    let polling = put_window(out, 0, b"POLLING\t", w.polling);
    let first = put_window(out, polling, b"FIRST DICE\t", w.first);
    let second = put_window(out, first, b"SECOND DICE\t", w.second);
    put_window(out, second, b"OBJECTIONS\t", w.objections)
}

// Writes the page of the calendar, and answers its length. What lies behind it is unchanged.
pub fn put_page(election: Date, holidays: &[u32], out: &mut [u8; LONGEST_PAGE]) -> usize
    ensures output { out.new ≡ in_front (definitions.schedule_page election holidays.now) out.old }
    ensures answer { result ≡ length (definitions.schedule_page election holidays.now) }
{
    match four_windows(election, holidays) {
        Ok(w) => put_windows(out, w),
        Err(rule) => decimals::put_refused(rule.number(), out),
    }
}
