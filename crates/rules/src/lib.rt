// The rules of each command that need no hash of an opening: each function answers the first rule broken. Every one is told where its
// command starts, and that the whole of it is there.
#![tactic(auto)]

ghost use Rattle.std.specs.Prelude.{false, is_some, ◌≡◌, ◌+◌, ◌≤◌, ◌<◌, length};
ghost use Rattle.protocol.specs.Layout.{first_width, at_ballot, at_entry, at_second_dice, at_vote};
ghost use Rattle.protocol.specs.Record.{parameters_of};
ghost use Rattle.protocol.specs.Rules.{first_rules, ballot_rules, entry_rules, first_dice_rules, link_rules, second_dice_rules, vote_rules};
ghost use Rattle.rules.specs.Known.{FirstDiceReady, LinkReady, lent};
ghost use Rattle.protocol.specs.Answers.{number_in};

use protocol::{Parameters, Rule};

// 01 and 0C: M, n and m in their limits, 3.
pub fn first_rules(bytes: &[u8]) -> Result<(), Rule>
    requires { first_width (parameters_of bytes.now) ≤ length bytes.now }
    ensures { number_in result ≡ first_rules bytes.now }
{
    if !limits::in_limits(layout::parameters(bytes)) {
        return Err(Rule::Limits);
    }
    Ok(())
}

// 02: an id above the one before, 5. Rule 21 needs all ballots before, and is `copies`'.
pub fn ballot_rules(p: Parameters, bytes: &[u8], at: usize, j: usize) -> Result<(), Rule>
    requires { (at ≡ at_ballot p j) × (at + 197 ≤ length bytes.now) }
    ensures { number_in result ≡ ballot_rules p bytes.now false j }
{
    if j != 0 && wire::read4(bytes, at + 1) <= wire::read4(bytes, at - 196) {
        return Err(Rule::Id);
    }
    Ok(())
}

// 03: list and position, 4.
pub fn entry_rules(p: Parameters, bytes: &[u8], at: usize, l: usize, i: usize) -> Result<(), Rule>
    requires { (at ≡ at_entry p l i) × (at + 196 ≤ length bytes.now) }
    ensures { number_in result ≡ entry_rules p bytes.now l i }
{
    if wire::read1(bytes, at + 1) as usize != l || wire::read2(bytes, at + 2) as usize != i {
        return Err(Rule::Operand);
    }
    Ok(())
}

// 04: dice, 6; the mask's shape, 7; as drawn, the drawn mask, 8. `text` is what the mask is drawn from, where it is to be the drawn one.
pub fn first_dice_rules(
    p: Parameters,
    bytes: &[u8],
    at: usize,
    text: Option<&[u8]>,
) -> Result<(), Rule>
    requires { FirstDiceReady p bytes.now at (is_some text) (lent text) }
    ensures { number_in result ≡ first_dice_rules p bytes.now (is_some text.entry) }
{
    if !limits::fair_dice(bytes, at + 1) {
        return Err(Rule::Dice);
    }
    let mask = wire::read4(bytes, at + 31);
    if !limits::right_shape(p.compared, mask) {
        return Err(Rule::MaskShape);
    }
    if let Some(text) = text {
        if challenge::drawn_mask(text, p.compared) != mask {
            return Err(Rule::MaskDrawn);
        }
    }
    Ok(())
}

// 05: list and ballot, 4; a position that is there and not taken, 9; t, 10. The marks tell which positions earlier links
// took; the stage that reads the links sets them.
pub fn link_rules(
    p: Parameters,
    bytes: &[u8],
    at: usize,
    l: usize,
    j: usize,
    marks: &[bool],
) -> Result<(), Rule>
    requires { LinkReady p bytes.now at l j marks.now }
    ensures { number_in result ≡ link_rules p bytes.now l j }
{
    if wire::read1(bytes, at + 1) as usize != l || wire::read2(bytes, at + 2) as usize != j {
        return Err(Rule::Operand);
    }
    let position = wire::read2(bytes, at + 4) as usize;
    if p.ballots <= position || marks[position] {
        return Err(Rule::Link);
    }
    if p.modulus <= wire::read4(bytes, at + 6) {
        return Err(Rule::Number);
    }
    Ok(())
}

// 06: dice, 6.
pub fn second_dice_rules(p: Parameters, bytes: &[u8], at: usize) -> Result<(), Rule>
    requires { (at ≡ at_second_dice p) × (at + 31 ≤ length bytes.now) }
    ensures { number_in result ≡ second_dice_rules p bytes.now }
{
    let fair = limits::fair_dice(bytes, at + 1);
    if !fair {
        return Err(Rule::Dice);
    }
    Ok(())
}

// 09: index, 4; a number below M, 10; no smaller than the one before, 15.
pub fn vote_rules(p: Parameters, bytes: &[u8], at: usize, i: usize) -> Result<(), Rule>
    requires { (at ≡ at_vote p i) × (at + 7 ≤ length bytes.now) }
    ensures { number_in result ≡ vote_rules p bytes.now i }
{
    if wire::read2(bytes, at + 1) as usize != i {
        return Err(Rule::Operand);
    }
    let vote = wire::read4(bytes, at + 3);
    if p.modulus <= vote {
        return Err(Rule::Number);
    }
    if i != 0 && vote < wire::read4(bytes, at - 4) {
        return Err(Rule::VoteOrder);
    }
    Ok(())
}
