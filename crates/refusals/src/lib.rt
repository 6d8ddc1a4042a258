// What each of the writers refuses: the first rule that its inputs, or the lengths of what it is lent, break. Limits are tested first, then
// lengths, then the rest in the order of the rules.
#![tactic(auto)]

mod original;

ghost use Rattle.std.specs.Prelude.{◌≡◌, ◌*◌, ◌<◌, length};
ghost use Rattle.laws.specs.Faults.{rule};
ghost use Rattle.protocol.specs.Answers.{number_in};
ghost use Rattle.protocol.specs.Layout.{part_two_length, part_three_length};
ghost use Rattle.protocol.specs.Refusals.{due_lengths, part_one_refusal, part_two_refusal, part_two_drawn_refusal};
ghost use Rattle.protocol.specs.Refusals.{part_three_refusal, part_three_drawn_refusal};
ghost use Rattle.protocol.specs.Results.{draw_refusal};
ghost use Rattle.protocol.specs.Election.{mask_in_shape, sides_due, election_refusal};
ghost use Rattle.layout.specs.Bounds.{Few};
ghost use Rattle.protocol.specs.Election.{choice_in, sides_lent};
ghost use Rattle.refusals.specs.Contents.{rising, binary, binary_where, permutations_in, contents_refusal};

use protocol::{Inputs, Parameters, Rule};

// ---- tests of one slice

// Whether each id is above the one before.
fn ids_rise(ids: &[u32]) -> bool
    ensures { result ≡ rising ids.now }
{
    ids.is_sorted_by(|before, id| *before < *id)
}

// Whether every side is 0 or 1.
fn binary_sides(sides: &[u8]) -> bool
    ensures { result ≡ binary sides.now }
{
    sides.iter().all(|side| *side <= 1)
}

// Whether all three permutations of every list are permutations.
fn all_permutations(p: Parameters, permutations: &[u16]) -> bool
    requires { Few p × (length permutations.now ≡ 6 * (p.compared * p.ballots)) }
    ensures { result ≡ permutations_in p permutations.now }
{
    let rows = 2 * protocol::ENTRY_PERMUTATIONS * p.compared;
    // not `chunks_exact(..).all(..)`: which numbers its pieces have was not proved
    for c in 0..rows {
        let from = c * p.ballots;
        if !limits::is_permutation(p.ballots, &permutations[from..from + p.ballots]) {
            return false;
        }
    }
    true
}

// ---- tests of every part

// Whether the slices have their due lengths.
fn due_lengths(s: &Inputs) -> bool
    requires { Few s.now.parameters }
    ensures { result ≡ due_lengths s.now }
{
    let p = s.parameters;
    let entries = 2 * (p.compared * p.ballots);
    s.ids.len() == p.ballots
        && s.votes.len() == p.ballots
        && s.numbers.len()
            == protocol::BALLOT_NUMBERS * p.ballots + protocol::ENTRY_NUMBERS * entries
        && s.permutations.len() == protocol::ENTRY_PERMUTATIONS * entries
        && s.keys.len() == protocol::KEYS_WIDTH * (p.ballots + entries)
}

// What the caller has tested of dice, mask and sides.
#[derive(Clone, Copy)]
struct Passed {
    fair: bool,
    shape: bool,
    binary: bool,
}

// Lengths and contents, within the limits.
fn refuse(s: &Inputs, passed: Passed) -> Result<(), Rule>
    requires { Few s.now.parameters × (0 < s.now.parameters.modulus) }
    ensures { number_in result
        ≡ rule 18 (due_lengths s.now) (contents_refusal s.now passed.fair passed.shape passed.binary) }
{
    let p = s.parameters;
    if !due_lengths(s) {
        return Err(Rule::Length);
    }
    if !ids_rise(s.ids) {
        return Err(Rule::Id);
    }
    if !passed.fair {
        return Err(Rule::Dice);
    }
    if !passed.shape {
        return Err(Rule::MaskShape);
    }
    if !limits::all_below(p.modulus, s.votes) {
        return Err(Rule::Number);
    }
    if !limits::all_below(p.modulus, s.numbers) {
        return Err(Rule::Number);
    }
    if !passed.binary {
        return Err(Rule::Side);
    }
    if !all_permutations(p, s.permutations) {
        return Err(Rule::Permutation);
    }
    if !original::all_original(s) {
        return Err(Rule::CopiedBallot);
    }
    Ok(())
}

// ---- tests of what only some parts are lent

// The lengths of parts two and three; that of part one is where the first dice stand.
fn part_two_length(p: Parameters) -> usize
    requires { Few p }
    ensures { result ≡ part_two_length p }
{
    35 + 10 * (p.compared * p.ballots)
}

fn part_three_length(p: Parameters) -> usize
    requires { Few p }
    ensures { result ≡ part_three_length p }
{
    32 + 119 * p.ballots + 332 * (p.compared * p.ballots)
}

// A mask, where it is given, has its shape.
fn mask_in_shape(p: Parameters, mask: Option<u32>) -> bool
    requires { Few p }
    ensures { result ≡ mask_in_shape p (choice_in mask) }
{
    match mask {
        Some(mask) => limits::right_shape(p.compared, mask),
        None => true, // a mask that is drawn has it
    }
}

// Sides, where they are given, are one for each ballot ..
fn sides_due(p: Parameters, sides: Option<&[u8]>) -> bool
    ensures { result ≡ sides_due p (sides_lent sides.entry) }
{
    match sides {
        Some(sides) => sides.len() == p.ballots,
        None => true,
    }
}

// .. and 0 or 1 each.
fn sides_binary(sides: Option<&[u8]>) -> bool
    ensures { result ≡ binary_where (sides_lent sides.entry) }
{
    match sides {
        Some(sides) => binary_sides(sides),
        None => true,
    }
}

// ---- the parts

// Part one.
pub fn part_one(s: &Inputs, out_len: usize) -> Result<(), Rule>
    ensures { number_in result ≡ part_one_refusal s.now out_len }
{
    let p = s.parameters;
    if !limits::in_limits(p) {
        return Err(Rule::Limits); // before any length is worked out from them
    }
    if out_len != layout::at_first_dice(p) {
        return Err(Rule::Length);
    }
    refuse(
        s,
        Passed {
            fair: true,
            shape: true,
            binary: true,
        },
    )
}

// Part two, mask given.
pub fn part_two(s: &Inputs, dice: &[u8], mask: u32, out_len: usize) -> Result<(), Rule>
    ensures { number_in result ≡ part_two_refusal s.now dice.now mask out_len }
{
    let p = s.parameters;
    if !limits::in_limits(p) {
        return Err(Rule::Limits);
    }
    let dice_due = dice.len() == 30;
    if !dice_due || out_len != part_two_length(p) {
        return Err(Rule::Length);
    }
    refuse(
        s,
        Passed {
            fair: limits::fair_dice(dice, 0),
            shape: limits::right_shape(p.compared, mask),
            binary: true,
        },
    )
}

// Part two, mask drawn from the dice and part one as lent.
pub fn part_two_drawn(s: &Inputs, dice: &[u8], one_len: usize, out_len: usize) -> Result<(), Rule>
    ensures { number_in result ≡ part_two_drawn_refusal s.now dice.now one_len out_len }
{
    let p = s.parameters;
    if !limits::in_limits(p) {
        return Err(Rule::Limits);
    }
    let dice_due = dice.len() == 30;
    if !dice_due || one_len != layout::at_first_dice(p) || out_len != part_two_length(p) {
        return Err(Rule::Length);
    }
    refuse(
        s,
        Passed {
            fair: limits::fair_dice(dice, 0),
            shape: true,
            binary: true,
        },
    )
}

// Part three, sides given.
pub fn part_three(
    s: &Inputs,
    dice: &[u8],
    mask: u32,
    sides: &[u8],
    out_len: usize,
) -> Result<(), Rule>
    ensures { number_in result ≡ part_three_refusal s.now dice.now mask sides.now out_len }
{
    let p = s.parameters;
    if !limits::in_limits(p) {
        return Err(Rule::Limits);
    }
    let dice_due = dice.len() == 30;
    if !dice_due || sides.len() != p.ballots || out_len != part_three_length(p) {
        return Err(Rule::Length);
    }
    refuse(
        s,
        Passed {
            fair: limits::fair_dice(dice, 0),
            shape: limits::right_shape(p.compared, mask),
            binary: binary_sides(sides),
        },
    )
}

// Part three, sides drawn from the dice and parts one and two as lent.
pub fn part_three_drawn(
    s: &Inputs,
    dice: &[u8],
    mask: u32,
    one_len: usize,
    two_len: usize,
    out_len: usize,
) -> Result<(), Rule>
    ensures { number_in result ≡ part_three_drawn_refusal s.now dice.now mask one_len two_len out_len }
{
    let p = s.parameters;
    if !limits::in_limits(p) {
        return Err(Rule::Limits);
    }
    let dice_due = dice.len() == 30;
    let one = layout::at_first_dice(p);
    let two = part_two_length(p);
    if !dice_due || one_len != one || two_len != two || out_len != part_three_length(p) {
        return Err(Rule::Length);
    }
    refuse(
        s,
        Passed {
            fair: limits::fair_dice(dice, 0),
            shape: limits::right_shape(p.compared, mask),
            binary: true,
        },
    )
}

// The draw of a mask alone.
pub fn draw(p: Parameters, dice: &[u8], one_len: usize) -> Result<(), Rule>
    ensures { number_in result ≡ draw_refusal p dice.now one_len }
{
    if !limits::in_limits(p) {
        return Err(Rule::Limits);
    }
    let dice_due = dice.len() == 30;
    if !dice_due || one_len != layout::at_first_dice(p) {
        return Err(Rule::Length);
    }
    let dice_fair = limits::fair_dice(dice, 0);
    if dice_fair { Ok(()) } else { Err(Rule::Dice) }
}

// All three parts and the record that they make. Mask and sides are each given, or drawn where there are none.
pub fn election(
    s: &Inputs,
    mask: Option<u32>,
    first_dice: &[u8],
    sides: Option<&[u8]>,
    second_dice: &[u8],
    one_len: usize,
    two_len: usize,
    three_len: usize,
    joined_len: usize,
) -> Result<(), Rule>
    ensures { let k = election_refusal s.now (choice_in mask) first_dice.now (sides_lent sides.entry) second_dice.now in
        number_in result ≡ k one_len two_len three_len joined_len }
{
    let p = s.parameters;
    if !limits::in_limits(p) {
        return Err(Rule::Limits);
    }
    let first_due = first_dice.len() == 30;
    let second_due = second_dice.len() == 30;
    if !first_due
        || !second_due
        || !sides_due(p, sides)
        || one_len != layout::at_first_dice(p)
        || two_len != part_two_length(p)
        || three_len != part_three_length(p)
        || joined_len != layout::at_end(p) + 1
    {
        return Err(Rule::Length);
    }
    let fair = limits::fair_dice(first_dice, 0) && limits::fair_dice(second_dice, 0);
    refuse(
        s,
        Passed {
            fair,
            shape: mask_in_shape(p, mask),
            binary: sides_binary(sides),
        },
    )
}
