// The page of a record: the line of an election's number, and the lines of a tally.
ghost use Rattle.std.specs.Prelude.{true, [], ◌∷◌, ◌++◌, ◌≡◌, ◌+◌, ◌*◌, ◌≤◌, length};
ghost use Rattle.laws.specs.Chunks.{chunks};
ghost use Rattle.laws.specs.Writing.{Went};
ghost use Rattle.protocol.specs.Terms.{item, most_ballots, decimal};
ghost use Rattle.protocol.specs.Judging.{first_fault};
ghost use Rattle.protocol.specs.Results.{announced_votes, election_line, tally_line, tally_lines};
ghost use Rattle.results.specs.Pages.{election_most, line_most, LinesReady, LinesRoom, AnnouncedRoom};
ghost use Rattle.laws.specs.Faults.{Nothing};

use crate::tally::fill;
use crate::votes::read_votes;
use protocol::{Form, MOST_BALLOTS, Parameters};

// Writes the line of the election's number, in the form that has one, from a place on, and answers the next place.
pub fn put_election(form: Form, out: &mut [u8], at: usize) -> usize
    requires { at + election_most ≤ length out.old }
    ensures { Went out.old at (election_line form) out.new result }
{
    match form {
        Form::Unnumbered => at,
        Form::Numbered(election) => {
            let number = wire::copy(out, at, b"ELECTION ");
            let end = decimals::put_decimal(out, number, election);
            wire::copy(out, end, b"\n")
        }
    }
}

// Writes the line of a vote, one space, and how often it was announced from a place on, and answers the next place.
fn put_line(out: &mut [u8], at: usize, vote: u32, count: u32) -> usize
    requires { at + line_most ≤ length out.old }
    ensures { Went out.old at (tally_line vote count) out.new result }
{
    let space = decimals::put_decimal(out, at, vote);
    let second = wire::put1(out, space, 32);
    let end = decimals::put_decimal(out, second, count);
    wire::put1(out, end, 10)
}

// Writes a line for each of the first pairs of vote and count, and answers the next place.
fn put_lines(values: &[u32], counts: &[u64], pairs: usize, out: &mut [u8], at: usize) -> usize
    requires { LinesReady values.now counts.now pairs (length out.old) at }
    ensures { let lines = chunks (λ i. tally_line (item values.now i) (item counts.now i)) pairs in
        Went out.old at lines out.new result }
{
    let mut next = at;
    for i in 0..pairs {
        next = put_line(out, next, values[i], counts[i] as u32);
    }
    next
}

// Writes the lines of the votes' tally, by way of two slices of the votes' length, and answers the next place.
fn put_tally(
    votes: &[u32],
    values: &mut [u32],
    counts: &mut [u64],
    out: &mut [u8],
    at: usize,
) -> usize
    requires { LinesRoom votes.now (length values.old) (length counts.old) (length out.old) at }
    ensures { Went out.old at (tally_lines votes.now) out.new result }
{
    let pairs = fill(votes, values, counts);
    put_lines(values, counts, pairs, out, at)
}

// Writes the lines of the announced votes' tally, by way of three slices of one number a ballot, and answers the next place.
fn put_announced(
    bytes: &[u8],
    p: Parameters,
    votes: &mut [u32],
    values: &mut [u32],
    counts: &mut [u64],
    out: &mut [u8],
    at: usize,
) -> usize
    requires { AnnouncedRoom p bytes.now (length votes.old) (length values.old) (length counts.old) (length out.old) at }
    ensures { Went out.old at (tally_lines (announced_votes bytes.now)) out.new result }
{
    read_votes(bytes, p, votes);
    put_tally(votes, values, counts, out, at)
}

// A zero for each ballot that a record may have. The contract gives only the length, which lending the array as a slice needs.
fn numbers() -> [u32; MOST_BALLOTS]
    ensures { most_ballots ≡ length result }
{
    [0; MOST_BALLOTS]
}

fn counters() -> [u64; MOST_BALLOTS]
    ensures { most_ballots ≡ length result }
{
    [0; MOST_BALLOTS]
}

// Writes a line for each distinct vote that an accepted record announces, rising, from a place on, and answers the next place.
pub fn put_result(bytes: &[u8], out: &mut [u8], at: usize) -> usize
    requires { (first_fault true bytes.now ≡ Nothing) × (at + line_most * most_ballots ≤ length out.old) }
    ensures { Went out.old at (tally_lines (announced_votes bytes.now)) out.new result }
{
    let p = layout::parameters(bytes);
    let n = p.ballots;
    let mut votes = numbers();
    let mut values = numbers();
    let mut counts = counters();
    put_announced(
        bytes,
        p,
        &mut votes[..n],
        &mut values[..n],
        &mut counts[..n],
        out,
        at,
    )
}
