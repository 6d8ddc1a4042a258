// The verifier: judging a record plainly and as drawn, by the first command and then stage by stage.
#![tactic(auto)]

ghost use Rattle.std.specs.Prelude.{true, false, [], ℕ, ◌≡◌, ◌-◌, ◌≤◌, ◌<◌, length};
ghost use Rattle.laws.specs.Faults.{Found, first, ◌then◌};
ghost use Rattle.laws.specs.Chunks.{piece};
ghost use Rattle.sha3.specs.Sha3.{absorb_bytes};
ghost use Rattle.protocol.specs.Answers.{verdict_answer};
ghost use Rattle.protocol.specs.Record.{parameters_of};
ghost use Rattle.protocol.specs.Judging.{found, ballot_faults, part_one_faults, part_two_faults, part_three_faults, first_fault, judged};
ghost use Rattle.rules.specs.Known.{Told};
ghost use Rattle.verifier.specs.Passed.{Started};
ghost use Rattle.protocol.specs.Answers.{found_in};

mod part_one;
mod part_three;
mod part_two;

use protocol::{Due, Fault, Parameters, Rule};

// A record as it is judged: with the parameters that it starts with, and whether mask and sides are to be the drawn ones.
#[derive(Clone, Copy)]
struct Record<'a> {
    bytes: &'a [u8],
    parameters: Parameters,
    drawn: bool,
}

impl<'a> Record<'a> {
    // What is found of the due command at a place, where it has neither text nor marks.
    fn fault(self, at: usize, due: Due) -> Result<(), Fault>
        requires { Told self.parameters self.bytes.now self.drawn [] [] at due }
        ensures { let r₀ = self.entry in found_in result ≡ found r₀.drawn r₀.parameters r₀.bytes.now due }
    {
        reader::command_fault(self.bytes, at, due, self.parameters, self.drawn)
    }
}

// The first fault of n searches, one behind another.
fn each<F: Fn(usize) -> Result<(), Fault>>(n: usize, search: F) -> Result<(), Fault>
    requires { (i : ℕ) → i < n → F.pre search i }
    ensures { (f : ℕ → Found) → ((i : ℕ) (r : _) → i < n → F.post search i r → found_in r ≡ f i) → found_in result ≡ first f n }
{
    for i in 0..n {
        search(i)?;
    }
    Ok(())
}

// ---- the first command

// The fault of the first command. No parameters are known yet, and of its form it needs the byte alone.
pub fn first_command_fault(bytes: &[u8], drawn: bool) -> Result<(), Fault>
    ensures { found_in result ≡ found drawn (parameters_of bytes.now) bytes.now Due.First }
{
    let none = Parameters {
        form: layout::due_form(bytes),
        modulus: 0,
        ballots: 0,
        compared: 0,
    };
    reader::command_fault(bytes, 0, Due::First, none, drawn)
}

// ---- the whole record

// The sponge that has taken in the record from one place up to another; as it was where nothing is drawn.
fn take_in(r: Record, from: usize, to: usize, s: sha3::Sponge) -> sha3::Sponge
    requires { (from ≤ to) × ((to ≤ length r.bytes.now) × (s.fill < 144)) }
    ensures { let r₀ = r.entry in
        (result.fill < 144) × (r₀.drawn ≡ true → result ≡ absorb_bytes 144 s (piece r₀.bytes.now from (to - from))) }
{
    if r.drawn {
        return sha3::absorb(s, 144, &r.bytes[from..to]);
    }
    s
}

// Everything behind the first command. The sponge at the first dice is kept and goes on to the second.
fn rest_faults(r: Record) -> Result<(), Fault>
    requires { Started r.parameters r.bytes.now }
    ensures { let d = r.entry.drawn in
        let p = r.entry.parameters in
        let r₀ = r.entry.bytes.now in
        found_in result ≡ part_one_faults d p r₀ then (part_two_faults d p r₀ then part_three_faults d p r₀) }
{
    part_one::part_one_faults(r)?;
    let dice = layout::at_first_dice(r.parameters);
    let kept = take_in(r, 0, dice, sha3::start());
    part_two::part_two_faults(r, kept)?;
    let whole = take_in(r, dice, layout::at_second_dice(r.parameters), kept);
    part_three::part_three_faults(r, whole)
}

// The first fault of the parameters and of all ballots: as far as the receipt check reads.
pub fn head_fault(bytes: &[u8]) -> Result<(), Fault>
    ensures { let r₀ = bytes.now in
        let p = parameters_of r₀ in
        found_in result ≡ found false p r₀ Due.First then ballot_faults false p r₀ p.ballots }
{
    first_command_fault(bytes, false)?;
    let p = layout::parameters(bytes);
    let r = Record {
        bytes,
        parameters: p,
        drawn: false,
    };
    part_one::ballot_faults(r, p.ballots)
}

// The first fault of a record, with the place where its command starts.
pub fn first_fault(bytes: &[u8], drawn: bool) -> Result<(), Fault>
    ensures { found_in result ≡ first_fault drawn bytes.now }
{
    first_command_fault(bytes, drawn)?;
    rest_faults(Record {
        bytes,
        parameters: layout::parameters(bytes),
        drawn,
    })
}

fn judge(bytes: &[u8], drawn: bool) -> Result<(), Rule>
    ensures { verdict_answer result ≡ judged drawn bytes.now }
{
    first_fault(bytes, drawn).map_err(|fault| fault.rule)
}

// Entry: plain judging takes mask and sides as posted.
pub fn judge_plainly(bytes: &[u8]) -> Result<(), Rule>
    ensures { verdict_answer result ≡ judged false bytes.now }
{
    judge(bytes, false)
}

// Entry: drawn judging demands that mask and sides be the drawn ones.
pub fn judge_as_drawn(bytes: &[u8]) -> Result<(), Rule>
    ensures { verdict_answer result ≡ judged true bytes.now }
{
    judge(bytes, true)
}
