// The program that counts ranked votes: reads a record from standard input, judges it as drawn, and writes the rounds of the runoff among
// as many candidates as its argument says.
#![tactic(auto)]

ghost use Rattle.std.specs.Prelude.{true, OnOk, ◌++◌, ◌≡◌, ◌≤◌, length};
ghost use Rattle.std.specs.Io.KnownBytes.{Appends};
ghost use Rattle.laws.specs.Writing.{Went};
ghost use Rattle.protocol.specs.Terms.{most_ballots};
ghost use Rattle.protocol.specs.Record.{parameters_of};
ghost use Rattle.protocol.specs.Judging.{first_fault};
ghost use Rattle.protocol.specs.Results.{announced_votes, accepted_lines, in_front};
ghost use Rattle.runoff.specs.Page as definitions;
ghost use Rattle.teller.specs.Arguments.{said_by};
ghost use Rattle.teller.specs.Lengths.{page_most, VotesRoom};
ghost use Rattle.laws.specs.Faults.{Nothing};

use input::LONGEST_RECORD;
use protocol::{MOST_BALLOTS, Parameters};
use std::env::FillError;
use std::io;
use std::io::Write;
use std::rt::Env;

// The most bytes that a page may have: the first line, the election's of at most 20, and 13 lines of at most 144.
const LONGEST_PAGE: usize = 9 + 20 + 13 * 144;

// ---- the page

// Writes the page of an accepted record, by way of a slice of one number a ballot, and answers its length.
fn put_votes(
    bytes: &[u8],
    p: Parameters,
    candidates: usize,
    votes: &mut [u32],
    out: &mut [u8],
) -> usize
    requires { VotesRoom p bytes.now candidates (length votes.old) (length out.old) }
    ensures { let lines = definitions.runoff_lines candidates (announced_votes bytes.now) in
        Went out.old 0 (accepted_lines p.form ++ lines) out.new result }
{
    results::votes::read_votes(bytes, p, votes);
    let form = p.form;
    let at = wire::copy(out, 0, b"ACCEPTED\n");
    let next = results::page::put_election(form, out, at);
    runoff::page::put_lines(votes, candidates, out, next)
}

// A zero for each ballot that a record may have. The contract gives only the length, which lending the array as a slice needs.
fn numbers() -> [u32; MOST_BALLOTS]
    ensures { most_ballots ≡ length result }
{
    [0; MOST_BALLOTS]
}

// Writes the page of an accepted record, or of the refusal of the number of candidates, and answers its length.
fn put_counted(bytes: &[u8], candidates: usize, out: &mut [u8]) -> usize
    requires { (first_fault true bytes.now ≡ Nothing) × (page_most ≤ length out.old) }
    ensures { let page = definitions.counted_page candidates (parameters_of bytes.now).form (announced_votes bytes.now) in
        Went out.old 0 page out.new result }
{
    match runoff::refuse(candidates, candidates) {
        Ok(()) => {
            let p = layout::parameters(bytes);
            let n = p.ballots;
            let mut votes = numbers();
            put_votes(bytes, p, candidates, &mut votes[..n], out)
        }
        Err(rule) => decimals::put_refused(rule.number(), out),
    }
}

// Writes the page of what was read, and answers its length. What lies behind it is unchanged.
pub fn put_page(bytes: &[u8], candidates: usize, out: &mut [u8; LONGEST_PAGE]) -> usize
    ensures output { out.new ≡ in_front (definitions.runoff_page candidates bytes.now) out.old }
    ensures answer { result ≡ length (definitions.runoff_page candidates bytes.now) }
{
    if LONGEST_RECORD < bytes.len() {
        return wire::copy(out, 0, b"TOO LONG\n");
    }
    match verifier::first_fault(bytes, true) {
        Ok(()) => put_counted(bytes, candidates, out),
        Err(fault) => decimals::put_refused(fault.rule.number(), out),
    }
}

// ---- the argument

// The number that an argument says in decimal digits, every number above 9 being as good as 10; none where it says no number.
pub fn said(argument: &[u8]) -> Option<usize>
    ensures { result ≡ said_by argument.now }
{
    if argument.is_empty() {
        return None;
    }
    let mut number: usize = 0;
    for &character in argument {
        if !character.is_ascii_digit() {
            return None;
        }
        number = (number * 10 + (character - b'0') as usize).min(10);
    }
    Some(number)
}

// ---- what is read and written

// Room for one byte more than a record may have. The contract gives only the length, which lending the array as a slice needs.
fn buffer() -> [u8; LONGEST_RECORD + 1]
    ensures { 65537 ≡ length result }
{
    [0; LONGEST_RECORD + 1]
}

// Room for a page.
fn blank_page() -> [u8; LONGEST_PAGE]
    ensures { page_most ≡ length result }
{
    [0; LONGEST_PAGE]
}

// Prints the page of what was read.
fn print_page<W: Write>(out: &mut W, bytes: &[u8], candidates: usize) -> io::Result<()>
    ensures { let page = definitions.runoff_page candidates bytes.now in
        OnOk result (Appends (W.contents out.old) (W.contents out.new) page) }
{
    let mut page = blank_page();
    let n = put_page(bytes, candidates, &mut page);
    out.write_all(&page[..n])
}

// Reads a record and prints its page. A standard input that cannot be read gets no verdict.
fn count(rt: &(impl io::Input + Print + Eprint), candidates: usize) -> io::Result<()> {
    let mut record = buffer();
    match input::read_input(&mut rt.reader(), &mut record) {
        Ok(n) => print_page(&mut io::writer(rt), &record[..n], candidates),
        Err(_) => eprintln!(rt; "standard input cannot be read"),
    }
}

fn usage(rt: &impl Eprint) -> io::Result<()> {
    eprintln!(rt; "usage: teller CANDIDATES < record")
}

// What the first argument says, where there is just one. One of more than 4,096 characters says nothing.
fn first_argument(rt: &impl Env) -> Option<usize> {
    let mut argument = [0; 4096];
    if !matches!(rt.arg(2, &mut argument), Err(FillError::NotPresent)) {
        return None;
    }
    let n = rt.arg(1, &mut argument).ok()?;
    said(&argument[..n])
}

fn main(rt: HostRuntime) -> io::Result<()> {
    match first_argument(&rt) {
        Some(candidates) => count(&rt, candidates),
        None => usage(&rt),
    }
}
