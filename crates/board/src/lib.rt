// Part one of a record, commands 01 or 0C, 02 and 03: the parameters, the ballots, and the entries of all lists.
#![tactic(auto)]

ghost use Rattle.std.specs.Prelude.{◌≡◌, [], ◌+◌, ◌*◌, ◌≤◌, ◌<◌, length};
ghost use Rattle.laws.specs.Chunks.{chunks};
ghost use Rattle.laws.specs.Writing.{Went};
ghost use Rattle.protocol.specs.Answers.{answer_of, written_answer};
ghost use Rattle.protocol.specs.Tablet.{ballot_command};
ghost use Rattle.protocol.specs.Layout as layout;
ghost use Rattle.protocol.specs.Record.{entry_command};
ghost use Rattle.protocol.specs.Inputs.{inputs_of};
ghost use Rattle.protocol.specs.Refusals.{part_one_refusal, afterwards};
ghost use Rattle.protocol.specs.Servers.{posted_board, first_part};
ghost use Rattle.mixing.specs.Passed.{Passed};

use protocol::{Inputs, KEYS_WIDTH, Rule};

// Commands 02: all ballots.
fn put_ballots(out: &mut [u8], at: usize, s: &Inputs) -> usize
    requires { Passed s.now × (at + s.now.parameters.ballots * 197 ≤ length out.old) }
    ensures { let b = posted_board (inputs_of s.now) in
        let n = s.now.parameters.ballots in
        Went out.old at (chunks (λ j. ballot_command (b.id j) (b.ballot_commitment j)) n) out.new result }
{
    let p = s.parameters;
    let mut next = at;
    for j in 0..p.ballots {
        let from = KEYS_WIDTH * j;
        let keys = &s.keys[from..from + KEYS_WIDTH];
        let six = mixing::ballot(s, j);
        next = commands::put_ballot(out, next, p, s.ids[j], six, keys);
    }
    next
}

// Commands 03 of list l. With the ballots' loop this one shares its turn alone: other numbers, other keys and another command.
fn put_entries(out: &mut [u8], at: usize, s: &Inputs, l: usize) -> usize
    requires { let p = s.now.parameters in
        Passed s.now × ((l < layout.lists p) × (at + p.ballots * 196 ≤ length out.old)) }
    ensures { let b = posted_board (inputs_of s.now) in
        let n = s.now.parameters.ballots in
        Went out.old at (chunks (λ i. entry_command l i (b.entry_commitment l i)) n) out.new result }
{
    let p = s.parameters;
    let mut next = at;
    for i in 0..p.ballots {
        let from = mixing::keys_at(p, l, i);
        let keys = &s.keys[from..from + KEYS_WIDTH];
        let six = mixing::entry(s, l, i);
        next = commands::put_entry(out, next, p, l as u32, i as u32, six, keys);
    }
    next
}

// Commands 03 of all lists.
fn put_lists(out: &mut [u8], at: usize, s: &Inputs) -> usize
    requires { let p = s.now.parameters in
        Passed s.now × (at + layout.lists p * (p.ballots * 196) ≤ length out.old) }
    ensures { let b = posted_board (inputs_of s.now) in
        let p = s.now.parameters in
        let n = p.ballots in
        Went out.old at (chunks (λ l. chunks (λ i. entry_command l i (b.entry_commitment l i)) n) (layout.lists p)) out.new result }
{
    let mut next = at;
    for l in 0..2 * s.parameters.compared {
        next = put_entries(out, next, s, l);
    }
    next
}

// The whole part, of inputs that pass every test.
pub fn write(s: &Inputs, out: &mut [u8])
    requires { Passed s.now × (length out.old ≡ layout.part_one_length s.now.parameters) }
    ensures { out.new ≡ first_part s.now }
{
    let first = commands::put_first(out, 0, s.parameters);
    let next = put_ballots(out, first, s);
    put_lists(out, next, s);
}

// Entry: part one into a buffer of its own. All that can be refused is tested before the first byte is written.
pub fn part_one(s: &Inputs, out: &mut [u8]) -> Result<(), Rule>
    ensures { let k = part_one_refusal s.now (length out.old) in
        (written_answer result ≡ answer_of k []) × (out.new ≡ afterwards k out.old (first_part s.now)) }
{
    refusals::part_one(s, out.len())?;
    write(s, out);
    Ok(())
}
