// The announced votes of an accepted record.
ghost use Rattle.std.specs.Prelude.{false, [], ◌≡◌, length};
ghost use Rattle.protocol.specs.Answers.{answer_of, written_answer};
ghost use Rattle.protocol.specs.Refusals.{afterwards};
ghost use Rattle.protocol.specs.Judging.{first_fault};
ghost use Rattle.protocol.specs.Results.{announced_votes, announced_refusal};
ghost use Rattle.results.specs.Ready.{VotesReady};
ghost use Rattle.laws.specs.Faults.{Nothing};

use protocol::{Parameters, Rule};

// Reads the announced votes of a record that stands into a slice of one number a ballot.
pub fn read_votes(bytes: &[u8], p: Parameters, out: &mut [u32])
    requires { VotesReady p bytes.now (length out.old) }
    ensures { out.new ≡ announced_votes bytes.now }
{
    wire::fill_numbers(bytes, layout::at_vote(p, 0) + 3, 7, out);
}

// The announced votes of a record that is known to be accepted.
fn write_votes(bytes: &[u8], out: &mut [u32]) -> Result<(), Rule>
    requires { first_fault false bytes.now ≡ Nothing }
    ensures answer { written_answer result ≡ answer_of (announced_refusal bytes.now (length out.old)) [] }
    ensures output { let k = announced_refusal bytes.now (length out.old) in
        out.new ≡ afterwards k out.old (announced_votes bytes.now) }
{
    let p = layout::parameters(bytes);
    if out.len() != p.ballots {
        return Err(Rule::Length);
    }
    read_votes(bytes, p, out);
    Ok(())
}

// Entry: the votes that an accepted record announces, into a slice of one number a ballot.
pub fn announced_votes(bytes: &[u8], out: &mut [u32]) -> Result<(), Rule>
    ensures answer { written_answer result ≡ answer_of (announced_refusal bytes.now (length out.old)) [] }
    ensures output { let k = announced_refusal bytes.now (length out.old) in
        out.new ≡ afterwards k out.old (announced_votes bytes.now) }
{
    match verifier::first_fault(bytes, false) {
        Err(fault) => Err(fault.rule),
        Ok(()) => write_votes(bytes, out),
    }
}
