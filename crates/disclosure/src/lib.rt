// Part three of a record, commands 06 to 0B: the second dice, the halves of all ballots and of the entries linked to them, the votes, the
// full openings of the lists that are not compared, and the end.
#![tactic(auto)]

mod announced;
mod halves;
mod opened;
mod placing;

ghost use Rattle.std.specs.Prelude.{◌≡◌, [], ◌++◌, ◌≤◌, length};
ghost use Rattle.protocol.specs.Terms.{most_ballots};
ghost use Rattle.protocol.specs.Drawing as drawing;
ghost use Rattle.protocol.specs.Drawing.{drawn_sides};
ghost use Rattle.protocol.specs.Refusals.{part_three_refusal, part_three_drawn_refusal, afterwards};
ghost use Rattle.protocol.specs.Servers.{third_part, sides_for};
ghost use Rattle.protocol.specs.Answers.{answer_of, written_answer};
ghost use Rattle.disclosure.specs.Disclosed.{Drawable, Writable};

use protocol::{Inputs, MOST_BALLOTS, Rule};

// The whole part, of inputs that are not refused.
pub fn write(s: &Inputs, dice: &[u8], mask: u32, sides: &[u8], out: &mut [u8])
    requires { Writable s.now dice.now mask sides.now (length out.old) }
    ensures { out.new ≡ third_part s.now dice.now mask sides.now }
{
    let a = commands::put_second_dice(out, 0, dice);
    let b = halves::put_halves(out, a, s, mask, sides);
    let c = announced::put_announced(out, b, s.votes);
    let d = opened::put_opened(out, c, s, mask);
    commands::put_end(out, d);
}

// The sides drawn from the dice and parts one and two as lent.
fn fill_sides(dice: &[u8], one: &[u8], two: &[u8], out: &mut [u8])
    requires { (length dice.now ≡ 30) × (length out.old ≤ most_ballots) }
    ensures { out.new ≡ drawn_sides (length out.old) (drawing.challenge dice.now (one.now ++ two.now)) }
{
    let text = challenge::text_of(dice, one, two);
    for j in 0..out.len() {
        out[j] = challenge::drawn_side(&text, j) as u8;
    }
}

// The whole part, of inputs that are not refused, sides drawn into the room that is lent.
pub fn write_drawn(
    s: &Inputs,
    dice: &[u8],
    mask: u32,
    one: &[u8],
    two: &[u8],
    sides: &mut [u8],
    out: &mut [u8],
)
    requires { Drawable s.now dice.now mask (length out.old) × (length sides.old ≡ s.now.parameters.ballots) }
    ensures { out.new ≡ third_part s.now dice.now mask (sides_for s.now dice.now one.now two.now) }
{
    fill_sides(dice, one, two, sides);
    write(s, dice, mask, sides, out);
}

// Entry: part three into a buffer of its own, sides given. All that can be refused is tested before the first byte is written.
pub fn part_three(
    s: &Inputs,
    dice: &[u8],
    mask: u32,
    sides: &[u8],
    out: &mut [u8],
) -> Result<(), Rule>
    ensures { let k = part_three_refusal s.now dice.now mask sides.now (length out.old) in
        (written_answer result ≡ answer_of k []) × (out.new ≡ afterwards k out.old (third_part s.now dice.now mask sides.now)) }
{
    refusals::part_three(s, dice, mask, sides, out.len())?;
    write(s, dice, mask, sides, out);
    Ok(())
}

// Entry: part three into a buffer of its own, sides drawn from the dice and parts one and two as lent.
pub fn part_three_drawn(
    s: &Inputs,
    dice: &[u8],
    mask: u32,
    one: &[u8],
    two: &[u8],
    out: &mut [u8],
) -> Result<(), Rule>
    ensures { let k = part_three_drawn_refusal s.now dice.now mask (length one.now) (length two.now) (length out.old) in
        let part = third_part s.now dice.now mask (sides_for s.now dice.now one.now two.now) in
        (written_answer result ≡ answer_of k []) × (out.new ≡ afterwards k out.old part) }
{
    refusals::part_three_drawn(s, dice, mask, one.len(), two.len(), out.len())?;
    let n = s.parameters.ballots;
    let mut sides = [0u8; MOST_BALLOTS];
    write_drawn(s, dice, mask, one, two, &mut sides[..n], out);
    Ok(())
}
