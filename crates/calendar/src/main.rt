// The program that writes an election's calendar: its arguments are the election day and the holidays, rising, each as in 2026-03-31.
#![tactic(auto)]

ghost use Rattle.std.specs.Prelude.{true, OnOk, ◌≡◌, ◌-◌, ◌≤◌, ◌<◌, length, drop};
ghost use Rattle.std.specs.Io.KnownBytes.{Appends};
ghost use Rattle.protocol.specs.Terms.{item};
ghost use Rattle.protocol.specs.Results.{in_front};
ghost use Rattle.schedule.specs.Dates as dates;
ghost use Rattle.schedule.specs.Page.{schedule_page};
ghost use Rattle.calendar.specs.Arguments.{is_digit, placed, formed, two_at, said_by, Digits};

use schedule::dates::date_in;
use schedule::page::LONGEST_PAGE;
use std::env::FillError;
use std::io;
use std::io::Write;
use std::rt::Env;

// The election day and 73,050 holidays. 200 years have 73,049 days, so that this many holidays cannot rise: the calendar refuses them by
// 22 whatever follows.
const MOST_DATES: usize = 73051;

// ---- an argument

// Whether a character is one that a date has at place i.
fn is_placed(i: usize, c: u8) -> bool
    ensures { result ≡ placed i c }
{
    if i == 4 || i == 7 {
        c == b'-'
    } else {
        c.is_ascii_digit()
    }
}

// Whether an argument has the form of a date.
fn is_formed(argument: &[u8]) -> bool
    ensures { result ≡ formed argument.now }
{
    if argument.len() != 10 {
        return false;
    }
    for (i, c) in argument.iter().enumerate() {
        if !is_placed(i, *c) {
            return false;
        }
    }
    true
}

// The number that a digit stands for.
fn digit(c: u8) -> u32
    requires { is_digit c ≡ true }
    ensures { (result ≡ c - 48) × (result ≤ 9) }
{
    u32::from(c - b'0')
}

// The number of two digits from a place on.
fn two_at(argument: &[u8], i: usize) -> u32
    requires { Digits argument.now i }
    ensures { (result ≡ two_at argument.now i) × (result ≤ 99) }
{
    digit(argument[i]) * 10 + digit(argument[i + 1])
}

// What an argument says: a date by its number, year × 10,000 + month × 100 + day; or nothing.
pub fn said(argument: &[u8]) -> Option<u32>
    ensures { result ≡ said_by argument.now }
{
    if !is_formed(argument) {
        return None;
    }
    let year = two_at(argument, 0) * 100 + two_at(argument, 2);
    let rest = two_at(argument, 5) * 100 + two_at(argument, 8);
    Some(year * 10000 + rest)
}

// ---- the page

// Writes the page for the election day and the holidays behind it, by their numbers, and answers its length. What lies behind it is
// unchanged. With no number it is the page of day 0 of month 0, which does not exist.
pub fn put_page(numbers: &[u32], out: &mut [u8; LONGEST_PAGE]) -> usize
    ensures output { let page = schedule_page (dates.date_in (item numbers.now 0)) (drop 1 numbers.now) in
        out.new ≡ in_front page out.old }
    ensures answer { result ≡ length (schedule_page (dates.date_in (item numbers.now 0)) (drop 1 numbers.now)) }
{
    match numbers.split_first() {
        Some((election, holidays)) => schedule::page::put_page(date_in(*election), holidays, out),
        None => schedule::page::put_page(date_in(0), numbers, out),
    }
}

// ---- what is read and written

// What argument i says, where there is one. One of more than ten characters says nothing.
fn argument_at(rt: &impl Env, i: usize) -> Option<Option<u32>> {
    let mut text = [0; 10];
    match rt.arg(i, &mut text) {
        Ok(n) => Some(said(&text[..n])),
        Err(FillError::TooLong) => Some(None),
        Err(FillError::NotPresent) => None,
    }
}

// Reads the arguments into the room lent, and answers what is filled of it: nothing where an argument is no date.
fn read_numbers<'a>(rt: &impl Env, room: &'a mut [u32]) -> &'a [u32]
    ensures { length result.now ≤ length room.old }
{
    let mut n = 0;
    for i in 1..usize::MAX {
        match argument_at(rt, i) {
            Some(Some(number)) => {
                if n < room.len() {
                    room[n] = number;
                    n += 1;
                }
            }
            Some(None) => return &[],
            None => break,
        }
    }
    &room[..n]
}

// Prints the page of what was read.
fn print_page<W: Write>(out: &mut W, numbers: &[u32]) -> io::Result<()>
    ensures { let page = schedule_page (dates.date_in (item numbers.now 0)) (drop 1 numbers.now) in
        OnOk result (Appends (W.contents out.old) (W.contents out.new) page) }
{
    let mut page = [0; LONGEST_PAGE];
    let n = put_page(numbers, &mut page);
    out.write_all(&page[..n])
}

fn usage(rt: &impl Eprint) -> io::Result<()> {
    eprintln!(rt; "usage: calendar DATE [HOLIDAY ..], each as in 2026-03-31")
}

fn main(rt: HostRuntime) -> io::Result<()> {
    let mut room = [0; MOST_DATES];
    let numbers = read_numbers(&rt, &mut room);
    if numbers.is_empty() {
        return usage(&rt);
    }
    print_page(&mut rt.stdout(), numbers)
}
