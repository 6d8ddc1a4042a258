// The command reader: each command byte leads to its own rule, and every byte not due is refused.
#![tactic(auto)]

ghost use Rattle.std.specs.Prelude.{◌≡◌, ◌+◌, ◌≤◌, ◌<◌, MatchResult, [], is_some, length};
ghost use Rattle.protocol.specs.declared.Rule.TheVariants as broken;
ghost use Rattle.protocol.specs.Rules.{fault};
ghost use Rattle.protocol.specs.Judging.{found};
ghost use Rattle.rules.specs.Known.{Told, lent};
ghost use Rattle.protocol.specs.Answers.{number_in, found_in};

use opening_rules::{ballot_half_rules, full_rules, list_half_rules};
use protocol::{Due, Fault, Parameters, Rule};

// What a command is judged by beside the record: the parameters, the text that mask and sides are drawn from, where they are to be the
// drawn ones, and the marks that tell the taken positions of a link's list.
#[derive(Clone, Copy)]
struct Context<'a> {
    parameters: Parameters,
    text: Option<&'a [u8]>,
    marks: &'a [bool],
}

// The lent record and the next command's place.
#[derive(Clone, Copy)]
struct Reader<'a> {
    bytes: &'a [u8],
    at: usize,
}

// The record, if a command of so many bytes is whole in it.
fn whole<'a>(r: Reader<'a>, width: usize) -> Result<&'a [u8], Rule>
    requires { r.at ≤ length r.bytes.now }
    ensures { MatchResult result
        (λ bytes. (bytes.now ≡ r.entry.bytes.now) × (r.entry.at + width ≤ length bytes.now))
        (λ rule. (rule ≡ broken.CutShort) × (length r.entry.bytes.now < r.entry.at + width)) }
{
    if r.bytes.len() - r.at < width {
        return Err(Rule::CutShort);
    }
    Ok(r.bytes)
}

// The first rule that the due command breaks: no byte left 1, byte not due 2, cut short 1, then its rules.
fn command(r: Reader, due: Due, c: Context) -> Result<(), Rule>
    requires { Told c.parameters r.bytes.now (is_some c.text) (lent c.text) c.marks.now r.at due }
    ensures { number_in result ≡ fault c.entry.parameters r.entry.bytes.now (is_some c.entry.text) due }
{
    let at = r.at;
    if r.bytes.len() <= at {
        return Err(Rule::CutShort);
    }
    let p = c.parameters;
    match (r.bytes[at], due) {
        (0x01, Due::First) => rules::first_rules(whole(r, 8)?),
        (0x02, Due::Ballot(j)) => rules::ballot_rules(p, whole(r, 197)?, at, j),
        (0x03, Due::Entry(l, i)) => rules::entry_rules(p, whole(r, 196)?, at, l, i),
        (0x04, Due::FirstDice) => rules::first_dice_rules(p, whole(r, 35)?, at, c.text),
        (0x05, Due::Link(l, j)) => rules::link_rules(p, whole(r, 10)?, at, l, j, c.marks),
        (0x06, Due::SecondDice) => rules::second_dice_rules(p, whole(r, 31)?, at),
        (0x07, Due::BallotHalf(j)) => ballot_half_rules(p, whole(r, 112)?, at, j, c.text),
        (0x08, Due::ListHalf(l, j)) => list_half_rules(p, whole(r, 112)?, at, l, j),
        (0x09, Due::Vote(i)) => rules::vote_rules(p, whole(r, 7)?, at, i),
        (0x0A, Due::FullOpening(l, i)) => full_rules(p, whole(r, 220)?, at, l, i),
        (0x0B, Due::End) => Ok(()),
        (0x0C, Due::First) => rules::first_rules(whole(r, 12)?), // 0C stands first or nowhere
        (0x00 | 0x0D..=0xFF, _) => Err(Rule::Command),
        _ => Err(Rule::Command), // a command that is not due
    }
}

// What is found of the due command: the first rule that it breaks with the place where it starts, or nothing.
fn found_at(r: Reader, due: Due, c: Context) -> Result<(), Fault>
    requires { Told c.parameters r.bytes.now (is_some c.text) (lent c.text) c.marks.now r.at due }
    ensures { found_in result ≡ found (is_some c.entry.text) c.entry.parameters r.entry.bytes.now due }
{
    command(r, due, c).map_err(|rule| Fault { rule, at: r.at })
}

// What is found of the due command at a place, of a command that has neither text nor marks.
pub fn command_fault(
    bytes: &[u8],
    at: usize,
    due: Due,
    p: Parameters,
    drawn: bool,
) -> Result<(), Fault>
    requires { Told p bytes.now drawn [] [] at due }
    ensures { found_in result ≡ found drawn p bytes.now due }
{
    drawn_fault(bytes, at, due, p, drawn, &[])
}

// .. of a command whose mask or side may have to be drawn from a text.
pub fn drawn_fault(
    bytes: &[u8],
    at: usize,
    due: Due,
    p: Parameters,
    drawn: bool,
    text: &[u8],
) -> Result<(), Fault>
    requires { Told p bytes.now drawn text.now [] at due }
    ensures { found_in result ≡ found drawn p bytes.now due }
{
    let c = Context {
        parameters: p,
        text: drawn.then_some(text),
        marks: &[],
    };
    found_at(Reader { bytes, at }, due, c)
}

// .. of a link, by its list's row of marks.
pub fn link_fault(
    bytes: &[u8],
    at: usize,
    l: usize,
    j: usize,
    p: Parameters,
    drawn: bool,
    marks: &[bool],
) -> Result<(), Fault>
    requires { Told p bytes.now drawn [] marks.now at (Due.Link l j) }
    ensures { found_in result ≡ found drawn p bytes.now (Due.Link l j) }
{
    let c = Context {
        parameters: p,
        text: drawn.then_some(&[]),
        marks,
    };
    found_at(Reader { bytes, at }, Due::Link(l, j), c)
}
