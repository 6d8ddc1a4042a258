// The scrutineer's program: reads a record from standard input, judges it as drawn and writes the page of document 01.
#![tactic(auto)]

ghost use Rattle.std.specs.Prelude.{true, OnOk, ◌++◌, ◌≡◌, ◌≤◌, length};
ghost use Rattle.std.specs.Io.KnownBytes.{Appends};
ghost use Rattle.laws.specs.Writing.{Went};
ghost use Rattle.protocol.specs.Record.{parameters_of};
ghost use Rattle.protocol.specs.Judging.{first_fault};
ghost use Rattle.protocol.specs.Results as definitions;
ghost use Rattle.scrutineer.specs.Lengths.{page_most};
ghost use Rattle.laws.specs.Faults.{Nothing};

use input::LONGEST_RECORD;
use protocol::MOST_BALLOTS;
use std::io;
use std::io::Write;

// The most bytes that a page may have: the first line, the election's of at most 20, and a line of at most 22 for each ballot.
const LONGEST_PAGE: usize = 9 + 20 + 22 * MOST_BALLOTS;

// ---- the page

// Writes the page of an accepted record, and answers its length.
fn put_accepted(bytes: &[u8], out: &mut [u8]) -> usize
    requires { (first_fault true bytes.now ≡ Nothing) × (page_most ≤ length out.old) }
    ensures { let first = definitions.accepted_lines (parameters_of bytes.now).form in
        let lines = definitions.tally_lines (definitions.announced_votes bytes.now) in
        Went out.old 0 (first ++ lines) out.new result }
{
    let p = layout::parameters(bytes);
    let form = p.form;
    let at = wire::copy(out, 0, b"ACCEPTED\n");
    let next = results::page::put_election(form, out, at);
    results::page::put_result(bytes, out, next)
}

// Writes the page of what was read, and answers its length. What lies behind it is unchanged.
pub fn put_page(bytes: &[u8], out: &mut [u8; LONGEST_PAGE]) -> usize
    ensures output { out.new ≡ definitions.in_front (definitions.page bytes.now) out.old }
    ensures answer { result ≡ length (definitions.page bytes.now) }
{
    if LONGEST_RECORD < bytes.len() {
        return wire::copy(out, 0, b"TOO LONG\n");
    }
    match verifier::first_fault(bytes, true) {
        Ok(()) => put_accepted(bytes, out),
        Err(fault) => decimals::put_refused(fault.rule.number(), out),
    }
}

// ---- what is read and written

// Room for one byte more than a record may have. The contract gives only the length, which lending the array as a slice needs.
fn buffer() -> [u8; LONGEST_RECORD + 1]
    ensures { 65537 ≡ length result }
{
    [0; LONGEST_RECORD + 1]
}

// Room for a page.
fn blank_page() -> [u8; LONGEST_PAGE]
    ensures { page_most ≡ length result }
{
    [0; LONGEST_PAGE]
}

// Prints the page of what was read.
fn print_page<W: Write>(out: &mut W, bytes: &[u8]) -> io::Result<()>
    ensures { OnOk result (Appends (W.contents out.old) (W.contents out.new) (definitions.page bytes.now)) }
{
    let mut page = blank_page();
    let n = put_page(bytes, &mut page);
    out.write_all(&page[..n])
}

// A standard input that cannot be read gets no verdict.
fn main(rt: HostRuntime) -> io::Result<()> {
    let mut record = buffer();
    match input::read_input(&mut rt.stdin(), &mut record) {
        Ok(n) => print_page(&mut rt.stdout(), &record[..n]),
        Err(_) => eprintln!(rt; "standard input cannot be read"),
    }
}
