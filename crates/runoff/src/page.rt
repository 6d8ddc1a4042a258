// The page of a runoff: its rounds as a table, then the winner and what is counted apart.
ghost use Rattle.std.specs.Prelude.{◌++◌, ◌≡◌, ◌+◌, ◌*◌, ◌≤◌, ◌<◌, length};
ghost use Rattle.laws.specs.Writing.{Went};
ghost use Rattle.runoff.specs.Rounds.{candidate, winner};
ghost use Rattle.runoff.specs.Rounds as rounds;
ghost use Rattle.runoff.specs.Page as definitions;
ghost use Rattle.runoff.specs.Told.{cell_most, line_most, most_round_lines, most_lines, RoundReady, LinesReady, named_in};

use crate::{MOST_CANDIDATES, Standings, blank_votes, by_number, next, spoiled_votes, start};

// Writes a candidate's number from a place on, and answers the next place.
fn put_named(out: &mut [u8], at: usize, k: u32) -> usize
    requires { at + 11 ≤ length out.old }
    ensures { Went out.old at (definitions.named k) out.new result }
{
    let next = wire::put1(out, at, 35);
    decimals::put_decimal(out, next, k)
}

// The same, or a word where there is no candidate.
fn put_named_or(out: &mut [u8], at: usize, word: &[u8], who: Option<u32>) -> usize
    requires { (at + 11 ≤ length out.old) × (length word.now ≤ 11) }
    ensures { Went out.old at (named_in word.now who) out.new result }
{
    match who {
        Some(k) => put_named(out, at, k),
        None => wire::copy(out, at, word),
    }
}

// Writes the line over the columns.
fn put_header(out: &mut [u8], at: usize, candidates: usize) -> usize
    requires { (candidates ≤ 9) × (at + line_most ≤ length out.old) }
    ensures { Went out.old at (definitions.header_line candidates) out.new result }
{
    let mut next = wire::copy(out, at, b"ROUND");
    for i in 0..candidates {
        next = put_header_cell(out, next, i);
    }
    wire::copy(out, next, b"\tLEAVES\n")
}

fn put_header_cell(out: &mut [u8], at: usize, i: usize) -> usize
    requires { (i < 9) × (at + cell_most ≤ length out.old) }
    ensures { Went out.old at (definitions.header_cell i) out.new result }
{
    let next = wire::put1(out, at, 9);
    put_named(out, next, (i + 1) as u32)
}

// Writes the count of who stood in a round, a dash for who has left before.
fn put_count_cell(out: &mut [u8], at: usize, round: u32, left: u32, count: u32) -> usize
    requires { at + cell_most ≤ length out.old }
    ensures { Went out.old at (definitions.count_cell round left count) out.new result }
{
    let next = wire::put1(out, at, 9);
    if left == 0 || left == round {
        return decimals::put_decimal(out, next, count);
    }
    wire::copy(out, next, b"-")
}

// Writes the cells of a round's counts.
fn put_counts(out: &mut [u8], at: usize, candidates: usize, s: Standings) -> usize
    requires { RoundReady candidates s × (at + cell_most * 9 ≤ length out.old) }
    ensures { Went out.old at (definitions.count_cells candidates s) out.new result }
{
    let round = s.rounds;
    let left = s.left;
    let counts = s.counts;
    let mut next = at;
    for i in 0..candidates {
        next = put_count_cell(out, next, round, left[i], counts[i] as u32);
    }
    next
}

// Who has left in a round.
fn leaver_among(left: &[u32; MOST_CANDIDATES], round: u32, candidates: usize) -> Option<u32>
    requires { candidates ≤ 9 }
    ensures { result ≡ candidate (definitions.leaver_among left.now round candidates) }
{
    let mut leaver = None;
    for (n, &gone) in left[..candidates].iter().enumerate() {
        if gone == round {
            leaver = Some(n as u32 + 1);
        }
    }
    leaver
}

// Writes the line of a round, as it left the standings.
fn put_round(out: &mut [u8], at: usize, candidates: usize, s: Standings) -> usize
    requires { RoundReady candidates s × (at + line_most ≤ length out.old) }
    ensures { Went out.old at (definitions.round_line candidates s) out.new result }
{
    let first = decimals::put_decimal(out, at, s.rounds);
    let counted = put_counts(out, first, candidates, s);
    let left = s.left;
    let leaver = leaver_among(&left, s.rounds, candidates);
    let tab = wire::put1(out, counted, 9);
    let end = put_named_or(out, tab, b"-", leaver);
    wire::put1(out, end, 10)
}

// Writes the line of the winner.
fn put_winner(out: &mut [u8], at: usize, k: u32) -> usize
    requires { at + line_most ≤ length out.old }
    ensures { Went out.old at (definitions.winner_line k) out.new result }
{
    let word = wire::copy(out, at, b"WINNER\t");
    let end = put_named_or(out, word, b"NONE", by_number(k));
    wire::put1(out, end, 10)
}

// Writes a word, a number and the line's end.
fn put_count(out: &mut [u8], at: usize, word: &[u8], count: u32) -> usize
    requires { (at + line_most ≤ length out.old) × (length word.now ≤ 8) }
    ensures { Went out.old at (definitions.count_line word.now count) out.new result }
{
    let number = wire::copy(out, at, word);
    let end = decimals::put_decimal(out, number, count);
    wire::put1(out, end, 10)
}

// Writes the lines of all rounds and of the winner.
fn put_rounds(votes: &[u32], candidates: usize, out: &mut [u8], at: usize) -> usize
    requires { LinesReady candidates (length votes.now) most_round_lines (length out.old) at }
    ensures { let lines = definitions.round_lines candidates votes.now candidates rounds.start in
        Went out.old at (lines ++ definitions.winner_line (winner candidates votes.now)) out.new result }
{
    let mut to = at;
    let mut s = start();
    for _n in 0..candidates {
        if s.over {
            return put_winner(out, to, s.winner);
        }
        s = next(votes, candidates, s);
        to = put_round(out, to, candidates, s);
    }
    put_winner(out, to, s.winner)
}

// Writes the rounds of a runoff as a table, the winner, and how many votes are blank and spoiled, from a place on, and answers the next
// place.
pub fn put_lines(votes: &[u32], candidates: usize, out: &mut [u8], at: usize) -> usize
    requires { LinesReady candidates (length votes.now) most_lines (length out.old) at }
    ensures { Went out.old at (definitions.runoff_lines candidates votes.now) out.new result }
{
    let header = put_header(out, at, candidates);
    let counted = put_rounds(votes, candidates, out, header);
    let blank = put_count(out, counted, b"BLANK\t", blank_votes(votes) as u32);
    put_count(
        out,
        blank,
        b"SPOILED\t",
        spoiled_votes(votes, candidates) as u32,
    )
}
