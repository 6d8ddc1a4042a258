// Part two of a record, commands 04 and 05: the first dice with the mask, and the links of all ballots to every compared list.
#![tactic(auto)]

ghost use Rattle.std.specs.Prelude.{◌≡◌, true, [], ◌+◌, ◌*◌, ◌≤◌, ◌<◌, length};
ghost use Rattle.laws.specs.Chunks.{chunks};
ghost use Rattle.laws.specs.Masks.{bit};
ghost use Rattle.laws.specs.Tests.{choose};
ghost use Rattle.laws.specs.Writing.{Went};
ghost use Rattle.protocol.specs.Answers.{answer_of, written_answer, draw_answer};
ghost use Rattle.protocol.specs.Layout as layout;
ghost use Rattle.protocol.specs.Record.{link_command};
ghost use Rattle.protocol.specs.Rules.{right_shape};
ghost use Rattle.protocol.specs.Drawing as drawing;
ghost use Rattle.protocol.specs.Drawing.{drawn_mask};
ghost use Rattle.protocol.specs.Inputs.{inputs_of};
ghost use Rattle.protocol.specs.Refusals.{part_two_refusal, part_two_drawn_refusal, afterwards};
ghost use Rattle.protocol.specs.Servers.{link_position, link_shift, second_part, mask_for};
ghost use Rattle.protocol.specs.Results.{drawn};
ghost use Rattle.mixing.specs.Passed.{Passed};
ghost use Rattle.comparison.specs.Links.{PlacesOf};

use protocol::{Inputs, MOST_BALLOTS, Parameters, Rule};

// Commands 05 of list l, from the ballots' places in it.
fn put_links(out: &mut [u8], at: usize, s: &Inputs, l: usize, places: &[u16]) -> usize
    requires { let p = s.now.parameters in
        Passed s.now × ((l < layout.lists p) × (PlacesOf s.now l places.now × (at + p.ballots * 10 ≤ length out.old))) }
    ensures { let t = inputs_of s.now in
        let n = s.now.parameters.ballots in
        Went out.old at (chunks (λ j. link_command l j (link_position t l j) (link_shift t l j)) n) out.new result }
{
    let mut next = at;
    for (j, place) in places.iter().enumerate() {
        let t = mixing::shift(s, l, j, *place as usize);
        next = commands::put_link(out, next, l as u32, j as u32, *place as u32, t);
    }
    next
}

// .. which are worked out first.
fn put_list(out: &mut [u8], at: usize, s: &Inputs, l: usize) -> usize
    requires { let p = s.now.parameters in
        Passed s.now × ((l < layout.lists p) × (at + p.ballots * 10 ≤ length out.old)) }
    ensures { let t = inputs_of s.now in
        let n = s.now.parameters.ballots in
        Went out.old at (chunks (λ j. link_command l j (link_position t l j) (link_shift t l j)) n) out.new result }
{
    let mut row = [0u16; MOST_BALLOTS];
    let places = &mut row[..s.parameters.ballots];
    mixing::fill_places(s, l, places);
    put_links(out, at, s, l, places)
}

// Commands 05 of all compared lists.
fn put_compared(out: &mut [u8], at: usize, s: &Inputs, mask: u32) -> usize
    requires { let p = s.now.parameters in
        Passed s.now × ((right_shape p.compared mask ≡ true) × (at + p.compared * (p.ballots * 10) ≤ length out.old)) }
    ensures { let t = inputs_of s.now in
        let n = s.now.parameters.ballots in
        let lists = layout.lists s.now.parameters in
        Went out.old at
        (chunks (λ l. choose (bit mask l) [] (chunks (λ j. link_command l j (link_position t l j) (link_shift t l j)) n)) lists)
        out.new result }
{
    let mut next = at;
    for l in 0..2 * s.parameters.compared {
        if (mask >> (l as u32)) % 2 != 0 {
            next = put_list(out, next, s, l);
        }
    }
    next
}

// The whole part, of inputs that pass every test.
pub fn write(s: &Inputs, dice: &[u8], mask: u32, out: &mut [u8])
    requires { let p = s.now.parameters in
        Passed s.now × ((length dice.now ≡ 30) × ((right_shape p.compared mask ≡ true) × (length out.old ≡ layout.part_two_length p))) }
    ensures { out.new ≡ second_part s.now dice.now mask }
{
    let next = commands::put_first_dice(out, 0, dice, mask);
    put_compared(out, next, s, mask);
}

// Entry: part two into a buffer of its own, mask given. All that can be refused is tested before the first byte is written.
pub fn part_two(s: &Inputs, dice: &[u8], mask: u32, out: &mut [u8]) -> Result<(), Rule>
    ensures { let k = part_two_refusal s.now dice.now mask (length out.old) in
        (written_answer result ≡ answer_of k []) × (out.new ≡ afterwards k out.old (second_part s.now dice.now mask)) }
{
    refusals::part_two(s, dice, mask, out.len())?;
    write(s, dice, mask, out);
    Ok(())
}

// The mask drawn from the dice and part one as lent.
pub fn mask_of(p: Parameters, dice: &[u8], one: &[u8]) -> u32
    requires { (p.compared ≤ 12) × (length dice.now ≡ 30) }
    ensures { result ≡ drawn_mask p.compared (drawing.challenge dice.now one.now) }
{
    let text = challenge::text_of(dice, one, &one[..0]);
    challenge::drawn_mask(&text, p.compared)
}

// Entry: part two into a buffer of its own, mask drawn from the dice and part one as lent.
pub fn part_two_drawn(s: &Inputs, dice: &[u8], one: &[u8], out: &mut [u8]) -> Result<(), Rule>
    ensures { let k = part_two_drawn_refusal s.now dice.now (length one.now) (length out.old) in
        let two = second_part s.now dice.now (mask_for s.now dice.now one.now) in
        (written_answer result ≡ answer_of k []) × (out.new ≡ afterwards k out.old two) }
{
    refusals::part_two_drawn(s, dice, one.len(), out.len())?;
    let mask = mask_of(s.parameters, dice, one);
    write(s, dice, mask, out);
    Ok(())
}

// Entry: the mask that part two draws, so that it can be handed to part three.
pub fn draw(p: Parameters, dice: &[u8], one: &[u8]) -> Result<u32, Rule>
    ensures { draw_answer result ≡ drawn p dice.now one.now }
{
    refusals::draw(p, dice, one.len())?;
    Ok(mask_of(p, dice, one))
}
