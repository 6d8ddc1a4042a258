// The tablet: a vote in shares and halves, committed in a ballot command, and the receipt that is printed of it.
#![tactic(auto)]

ghost use Rattle.std.specs.Prelude.{[], ◌≡◌, length};
ghost use Rattle.protocol.specs.Tablet as tablets;
ghost use Rattle.protocol.specs.Tablet.{tablet_command, tablet_refusal};
ghost use Rattle.protocol.specs.Answers.{number_in, written_answer, answer_of};
ghost use Rattle.protocol.specs.Refusals.{afterwards};
ghost use Rattle.tablet.specs.Ready.{CastReady};

use protocol::{Form, Parameters, Rule};

// What a vote is cut by: its first two shares, and the first half of each of the three.
#[derive(Clone, Copy)]
struct Cut {
    vote: u32,
    x: u32,
    y: u32,
    u1: u32,
    u2: u32,
    u3: u32,
}

// The first rule that a vote, its numbers or the lengths of what is lent break.
fn refuse(
    modulus: u32,
    cut: Cut,
    keys_len: usize,
    command_len: usize,
    receipt_len: usize,
) -> Result<(), Rule>
    ensures { let refused = tablet_refusal modulus cut.vote cut.x cut.y cut.u1 cut.u2 cut.u3 in
        number_in result ≡ refused keys_len command_len receipt_len }
{
    if !limits::modulus_in_limits(modulus) {
        return Err(Rule::Limits);
    }
    if keys_len != 192 || command_len != 197 || receipt_len != 32 {
        return Err(Rule::Length);
    }
    let numbers = [cut.vote, cut.x, cut.y, cut.u1, cut.u2, cut.u3];
    if !limits::all_below(modulus, &numbers) {
        return Err(Rule::Number);
    }
    Ok(())
}

// The ballot command of a vote.
fn put_command(out: &mut [u8], form: Form, modulus: u32, id: u32, cut: Cut, keys: &[u8])
    requires { CastReady modulus cut.vote cut.x cut.y cut.u1 cut.u2 cut.u3 (length keys.now) (length out.old) }
    ensures { out.new ≡ tablet_command form modulus id cut.vote cut.x cut.y cut.u1 cut.u2 cut.u3 keys.now }
{
    let z = modular::less_two(modulus, cut.vote, cut.x, cut.y);
    let value = [cut.x, cut.y, z];
    let first = [cut.u1, cut.u2, cut.u3];
    let six = shares::split(modulus, value, first);
    let p = Parameters {
        form,
        modulus,
        ballots: 0,
        compared: 0,
    };
    commands::put_ballot(out, 0, p, id, six, keys);
}

// The receipt of a ballot command: its id and its hash.
fn put_receipt(out: &mut [u8], id: u32, command: &[u8])
    requires { length out.old ≡ 32 }
    ensures { out.new ≡ tablets.receipt id command.now }
{
    let mut hash = [0u8; 28];
    sha3::sha3_224(command, &mut hash);
    let next = wire::put4(out, 0, id);
    wire::copy(out, next, &hash);
}

// Entry: a vote's ballot command and its receipt. All that can be refused is tested before the first byte is written.
pub fn cast(
    form: Form,
    modulus: u32,
    id: u32,
    vote: u32,
    x: u32,
    y: u32,
    u1: u32,
    u2: u32,
    u3: u32,
    keys: &[u8],
    command: &mut [u8],
    receipt: &mut [u8],
) -> Result<(), Rule>
    ensures { let refused = tablet_refusal modulus vote x y u1 u2 u3 in
        let k = refused (length keys.now) (length command.old) (length receipt.old) in
        let posted = tablet_command form modulus id vote x y u1 u2 u3 keys.now in
        let printed = tablets.receipt id posted in
        (written_answer result ≡ answer_of k [])
        × ((command.new ≡ afterwards k command.old posted) × (receipt.new ≡ afterwards k receipt.old printed)) }
{
    let cut = Cut {
        vote,
        x,
        y,
        u1,
        u2,
        u3,
    };
    refuse(modulus, cut, keys.len(), command.len(), receipt.len())?;
    put_command(command, form, modulus, id, cut, keys);
    put_receipt(receipt, id, command);
    Ok(())
}
