// The receipt check: whether a ballot is posted as its receipt was printed. The lookup answers the same and reads no further than it must.
ghost use Rattle.std.specs.Prelude.{false, ◌≡◌};
ghost use Rattle.laws.specs.Bytes.{number};
ghost use Rattle.laws.specs.Faults.{number_of};
ghost use Rattle.laws.specs.Tests.{equal, pick};
ghost use Rattle.protocol.specs.Answers.{answer_of, receipt_answer, receipt_values};
ghost use Rattle.protocol.specs.Judging.{ballot_faults};
ghost use Rattle.protocol.specs.Record.{id_of};
ghost use Rattle.protocol.specs.Results as definitions;
ghost use Rattle.results.specs.Ready.{BallotsReady, BallotReady, LookupReady};

use protocol::{Due, Parameters, Receipt, Rule};

// The answer at a ballot with the printed id: posted as printed, or otherwise.
fn receipt_at(bytes: &[u8], p: Parameters, printed: &[u8], j: usize) -> Receipt
    requires { BallotReady p bytes.now printed.now j }
    ensures { receipt_values result ≡ definitions.receipt_at p bytes.now printed.now j }
{
    let at = layout::at_ballot(p, j);
    let to = at + 197;
    let mut hash = [0u8; 28];
    sha3::sha3_224(&bytes[at..to], &mut hash);
    if wire::same_bytes(&printed[4..32], &hash) {
        return Receipt::AsPrinted;
    }
    Receipt::Otherwise
}

// The answer of the first j ballots, which is given, and ballot j.
fn receipt_with(bytes: &[u8], p: Parameters, printed: &[u8], j: usize, given: Receipt) -> Receipt
    requires { BallotReady p bytes.now printed.now j }
    ensures { let tested = equal (id_of p bytes.now j) (number printed.now 0 4) in
        receipt_values result ≡ pick tested (definitions.receipt_at p bytes.now printed.now j) (receipt_values given) }
{
    if wire::read4(bytes, layout::at_ballot(p, j) + 1) == wire::read4(printed, 0) {
        return receipt_at(bytes, p, printed, j);
    }
    given
}

// The answer among all ballots.
fn receipt_among(bytes: &[u8], p: Parameters, printed: &[u8]) -> Receipt
    requires { BallotsReady p bytes.now printed.now }
    ensures { receipt_values result ≡ definitions.receipt_among p bytes.now printed.now p.ballots }
{
    let mut answer = Receipt::NotPosted;
    for j in 0..p.ballots {
        answer = receipt_with(bytes, p, printed, j, answer);
    }
    answer
}

// Entry: whether a receipt is posted as printed.
pub fn check_receipt(bytes: &[u8], printed: &[u8]) -> Result<Receipt, Rule>
    ensures { receipt_answer result ≡ definitions.receipt_checked bytes.now printed.now }
{
    if printed.len() != 32 {
        return Err(Rule::Length);
    }
    match verifier::head_fault(bytes) {
        Err(fault) => Err(fault.rule),
        Ok(()) => Ok(receipt_among(bytes, layout::parameters(bytes), printed)),
    }
}

// The answer from the ballots up to the first whose id is the one sought or larger. A ballot's own rules come before its id is looked at.
fn look_among(bytes: &[u8], p: Parameters, printed: &[u8]) -> Result<Receipt, Rule>
    requires { LookupReady p printed.now }
    ensures { let r₀ = bytes.now in
        let read = definitions.ballots_read p r₀ printed.now p.ballots in
        receipt_answer result ≡ answer_of (number_of (ballot_faults false p r₀ read)) (definitions.receipt_among p r₀ printed.now read) }
{
    let all = p.ballots;
    let sought = wire::read4(printed, 0);
    for j in 0..all {
        let at = layout::at_ballot(p, j);
        if let Err(fault) = reader::command_fault(bytes, at, Due::Ballot(j), p, false) {
            return Err(fault.rule);
        }
        if sought <= wire::read4(bytes, at + 1) {
            return Ok(receipt_with(bytes, p, printed, j, Receipt::NotPosted));
        }
    }
    Ok(Receipt::NotPosted)
}

// Entry: the receipt check's answers from the ballots up to the first whose id is the one sought or larger. Nothing behind that one is
// read, so that a fault there is left to the judge.
pub fn look_up(bytes: &[u8], printed: &[u8]) -> Result<Receipt, Rule>
    ensures { receipt_answer result ≡ definitions.looked_up bytes.now printed.now }
{
    let long = printed.len();
    if long != 32 {
        return Err(Rule::Length);
    }
    match verifier::first_command_fault(bytes, false) {
        Err(fault) => Err(fault.rule),
        Ok(()) => look_among(bytes, layout::parameters(bytes), printed),
    }
}
