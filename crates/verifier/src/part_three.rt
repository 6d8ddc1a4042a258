// Part three: commands 06 to 0B. Every stage answers the first fault of its commands with the place where it starts, and every command is
// read by the command reader.
ghost use Rattle.std.specs.Prelude.{◌≡◌, ◌<◌};
ghost use Rattle.laws.specs.Faults.{first, ◌then◌};
ghost use Rattle.protocol.specs.Layout as places;
ghost use Rattle.protocol.specs.Judging.{found, if_compared, if_opened, list_half_faults, half_faults, vote_faults, full_faults};
ghost use Rattle.protocol.specs.Judging.{trailing_fault, part_three_faults};
ghost use Rattle.layout.specs.Bounds.{Few};
ghost use Rattle.verifier.specs.Passed.{FirstDicePassed, PartTwoPassed, HalvesBegun, HalfPassed, VotesPassed};
ghost use Rattle.protocol.specs.Answers.{found_in};

use super::part_two::dice_text;
use super::{Record, each};
use protocol::{Due, Fault, Rule};

// ---- commands 07 and 08

// The half of the entry that a compared list links to ballot j.
fn half_if_compared(r: Record, j: usize, l: usize) -> Result<(), Fault>
    requires { HalfPassed r.drawn r.parameters r.bytes.now j × (l < places.lists r.parameters) }
    ensures { let d = r.entry.drawn in
        let p = r.entry.parameters in
        let r₀ = r.entry.bytes.now in
        found_in result ≡ if_compared p r₀ l (found d p r₀ (Due.ListHalf l j)) }
{
    let mask = layout::mask(r.parameters, r.bytes);
    if (mask >> (l as u32)) % 2 == 0 {
        return Ok(());
    }
    let at = layout::at_list_half(r.parameters, j, layout::rank(mask, l));
    r.fault(at, Due::ListHalf(l, j))
}

// The halves of all linked entries of ballot j.
fn list_half_faults(r: Record, j: usize) -> Result<(), Fault>
    requires { HalfPassed r.drawn r.parameters r.bytes.now j }
    ensures { let r₀ = r.entry in found_in result ≡ list_half_faults r₀.drawn r₀.parameters r₀.bytes.now j }
{
    each(layout::lists(r.parameters), |l| half_if_compared(r, j, l))
}

// Ballot j's half, and those of its linked entries. `text` is what the sides are drawn from.
fn half_faults(r: Record, j: usize, text: &[u8]) -> Result<(), Fault>
    requires { HalvesBegun r.drawn r.parameters r.bytes.now text.now × (j < r.parameters.ballots) }
    ensures { let r₀ = r.entry in found_in result ≡ half_faults r₀.drawn r₀.parameters r₀.bytes.now j }
{
    let at = layout::at_ballot_half(r.parameters, j);
    reader::drawn_fault(r.bytes, at, Due::BallotHalf(j), r.parameters, r.drawn, text)?;
    list_half_faults(r, j)
}

// The halves of all ballots.
fn all_half_faults(r: Record, text: &[u8]) -> Result<(), Fault>
    requires { HalvesBegun r.drawn r.parameters r.bytes.now text.now }
    ensures { let r₀ = r.entry in
        found_in result ≡ first (half_faults r₀.drawn r₀.parameters r₀.bytes.now) r₀.parameters.ballots }
{
    each(r.parameters.ballots, |j| half_faults(r, j, text))
}

// ---- commands 09 to 0B

// The announced votes.
fn vote_faults(r: Record) -> Result<(), Fault>
    requires { Few r.parameters }
    ensures { let r₀ = r.entry in
        found_in result ≡ vote_faults r₀.drawn r₀.parameters r₀.bytes.now r₀.parameters.ballots }
{
    each(r.parameters.ballots, |i| {
        r.fault(layout::at_vote(r.parameters, i), Due::Vote(i))
    })
}

// The full openings of one list, by how many opened lists come before.
fn full_faults(r: Record, l: usize) -> Result<(), Fault>
    requires { VotesPassed r.drawn r.parameters r.bytes.now × (l < places.lists r.parameters) }
    ensures { let r₀ = r.entry in found_in result ≡ full_faults r₀.drawn r₀.parameters r₀.bytes.now l }
{
    let rank = l - layout::rank(layout::mask(r.parameters, r.bytes), l);
    // not `each`: an opening is read only where those before it stand
    for i in 0..r.parameters.ballots {
        let at = layout::at_full_opening(r.parameters, rank, i);
        r.fault(at, Due::FullOpening(l, i))?;
    }
    Ok(())
}

// The same, where list l is opened.
fn full_if_opened(r: Record, l: usize) -> Result<(), Fault>
    requires { VotesPassed r.drawn r.parameters r.bytes.now × (l < places.lists r.parameters) }
    ensures { let d = r.entry.drawn in
        let p = r.entry.parameters in
        let r₀ = r.entry.bytes.now in
        found_in result ≡ if_opened p r₀ l (full_faults d p r₀ l) }
{
    let mask = layout::mask(r.parameters, r.bytes);
    if (mask >> (l as u32)) % 2 == 1 {
        return Ok(());
    }
    full_faults(r, l)
}

// The full openings of all opened lists.
fn opened_faults(r: Record) -> Result<(), Fault>
    requires { VotesPassed r.drawn r.parameters r.bytes.now }
    ensures { let d = r.entry.drawn in
        let p = r.entry.parameters in
        let r₀ = r.entry.bytes.now in
        found_in result ≡ first (λ l. if_opened p r₀ l (full_faults d p r₀ l)) (places.lists p) }
{
    each(layout::lists(r.parameters), |l| full_if_opened(r, l))
}

// The end, and nothing behind it.
fn end_faults(r: Record) -> Result<(), Fault>
    requires { Few r.parameters }
    ensures { let d = r.entry.drawn in
        let p = r.entry.parameters in
        let r₀ = r.entry.bytes.now in
        found_in result ≡ found d p r₀ Due.End then trailing_fault p r₀ }
{
    let at = layout::at_end(r.parameters);
    r.fault(at, Due::End)?;
    if at + 1 < r.bytes.len() {
        return Err(Fault {
            rule: Rule::BytesAfter,
            at: at + 1,
        });
    }
    Ok(())
}

// Votes, full openings and the end.
fn closing_faults(r: Record) -> Result<(), Fault>
    requires { FirstDicePassed r.drawn r.parameters r.bytes.now }
    ensures { let d = r.entry.drawn in
        let p = r.entry.parameters in
        let r₀ = r.entry.bytes.now in
        let opened = first (λ l. if_opened p r₀ l (full_faults d p r₀ l)) (places.lists p) in
        found_in result ≡ vote_faults d p r₀ p.ballots then (opened then (found d p r₀ Due.End then trailing_fault p r₀)) }
{
    vote_faults(r)?;
    opened_faults(r)?;
    end_faults(r)
}

// ---- part three, from command 06 on

// The second dice, the halves, and then votes, full openings and the end. `prefix` has taken in parts one and two.
pub fn part_three_faults(r: Record, prefix: sha3::Sponge) -> Result<(), Fault>
    requires { PartTwoPassed r.drawn r.parameters r.bytes.now prefix }
    ensures { let r₀ = r.entry in found_in result ≡ part_three_faults r₀.drawn r₀.parameters r₀.bytes.now }
{
    let at = layout::at_second_dice(r.parameters);
    r.fault(at, Due::SecondDice)?;
    let text = dice_text(r, at, prefix);
    all_half_faults(r, &text)?;
    closing_faults(r)
}
