// Part two: commands 04 and 05. Every stage answers the first fault of its commands with the place where it starts, and every command is
// read by the command reader.
ghost use Rattle.std.specs.Prelude.{true, ◌≡◌, ◌+◌, ◌≤◌, ◌<◌, length, take};
ghost use Rattle.laws.specs.Chunks.{piece};
ghost use Rattle.laws.specs.Faults.{first};
ghost use Rattle.sha3.specs.Sha3.{absorb_bytes, empty};
ghost use Rattle.protocol.specs.Layout as places;
ghost use Rattle.protocol.specs.Drawing.{challenge};
ghost use Rattle.protocol.specs.Judging.{found, if_compared, link_faults, part_two_faults};
ghost use Rattle.verifier.specs.Passed.{PartOnePassed, FirstDicePassed};
ghost use Rattle.protocol.specs.Answers.{found_in};

use super::{Record, each};
use protocol::{Due, Fault};

// The text that mask or sides are drawn from: the 30 characters behind the dice command's byte, and the sponge's digest. No text
// where nothing is drawn or the characters are not all there.
pub fn dice_text(r: Record, at: usize, prefix: sha3::Sponge) -> [u8; 86]
    requires { (prefix.fill < 144) × (at < 1073741824) }
    ensures { let r₀ = r.entry.bytes.now in
        let text = challenge (piece r₀ (at + 1) 30) (take at r₀) in
        (r.entry.drawn ≡ true → at + 31 ≤ length r₀ → prefix ≡ absorb_bytes 144 empty (take at r₀) → result ≡ text) }
{
    if !r.drawn || r.bytes.len() < at + 31 {
        return [0; 86];
    }
    challenge::text(&r.bytes[at + 1..at + 31], prefix)
}

// The first dice.
fn first_dice_fault(r: Record, prefix: sha3::Sponge) -> Result<(), Fault>
    requires { PartOnePassed r.drawn r.parameters r.bytes.now prefix }
    ensures { let r₀ = r.entry in found_in result ≡ found r₀.drawn r₀.parameters r₀.bytes.now Due.FirstDice }
{
    let at = layout::at_first_dice(r.parameters);
    let text = dice_text(r, at, prefix);
    reader::drawn_fault(r.bytes, at, Due::FirstDice, r.parameters, r.drawn, &text)
}

// The links of one compared list, with its row of marks.
fn link_faults(r: Record, l: usize) -> Result<(), Fault>
    requires { FirstDicePassed r.drawn r.parameters r.bytes.now × (l < places.lists r.parameters) }
    ensures { let r₀ = r.entry in found_in result ≡ link_faults r₀.drawn r₀.parameters r₀.bytes.now l }
{
    let rank = layout::rank(layout::mask(r.parameters, r.bytes), l);
    let mut marks = [false; 4096];
    // not `each`: a link sets a mark for those behind it
    for j in 0..r.parameters.ballots {
        let at = layout::at_link(r.parameters, rank, j);
        reader::link_fault(r.bytes, at, l, j, r.parameters, r.drawn, &marks)?;
        // the link stands, so by rule 9 its position is below n
        let position = wire::read2(r.bytes, at + 4) as usize;
        marks[position] = true;
    }
    Ok(())
}

// The same, where list l is compared.
fn links_if_compared(r: Record, l: usize) -> Result<(), Fault>
    requires { FirstDicePassed r.drawn r.parameters r.bytes.now × (l < places.lists r.parameters) }
    ensures { let d = r.entry.drawn in
        let p = r.entry.parameters in
        let r₀ = r.entry.bytes.now in
        found_in result ≡ if_compared p r₀ l (link_faults d p r₀ l) }
{
    let mask = layout::mask(r.parameters, r.bytes);
    if (mask >> (l as u32)) % 2 == 0 {
        return Ok(());
    }
    link_faults(r, l)
}

// The links of all compared lists.
fn compared_faults(r: Record) -> Result<(), Fault>
    requires { FirstDicePassed r.drawn r.parameters r.bytes.now }
    ensures { let d = r.entry.drawn in
        let p = r.entry.parameters in
        let r₀ = r.entry.bytes.now in
        found_in result ≡ first (λ l. if_compared p r₀ l (link_faults d p r₀ l)) (places.lists p) }
{
    each(layout::lists(r.parameters), |l| links_if_compared(r, l))
}

// The first dice, then the links of all compared lists. `prefix` has taken in part one.
pub fn part_two_faults(r: Record, prefix: sha3::Sponge) -> Result<(), Fault>
    requires { PartOnePassed r.drawn r.parameters r.bytes.now prefix }
    ensures { let r₀ = r.entry in found_in result ≡ part_two_faults r₀.drawn r₀.parameters r₀.bytes.now }
{
    first_dice_fault(r, prefix)?;
    compared_faults(r)
}
