// Writers of single commands. Each writes its command's bytes from a place of a lent buffer on, and answers the next place.
#![tactic(auto)]

ghost use Rattle.std.specs.Prelude.{◌≡◌, [], ◌∷◌, ◌++◌, ℕ, ◌+◌, ◌*◌, ◌≤◌, ◌<◌, length};
ghost use Rattle.laws.specs.Bytes.{bytes};
ghost use Rattle.laws.specs.Chunks.{chunks};
ghost use Rattle.laws.specs.Writing.{Went};
ghost use Rattle.protocol.specs.declared.Place.TheVariants.{InBallot, InEntry};
ghost use Rattle.protocol.specs.Terms.{commitment};
ghost use Rattle.protocol.specs.Layout.{number_width, first_width};
ghost use Rattle.protocol.specs.Tablet.{ballot_command};
ghost use Rattle.protocol.specs.Record.{form_bytes, first_command, entry_command, first_dice_command, link_command, second_dice_command, ballot_half_command, list_half_command, vote_command, full_command};
ghost use Rattle.commitment.specs.Slots.{in_slot};
ghost use Rattle.commands.specs.Openings.{opening_of};

use protocol::{Form, Parameters, Place};

// The six commitments to six numbers with their keys, posted in the slots of the ballot or entry that the place is in.
fn put_six_commitments(
    out: &mut [u8],
    at: usize,
    p: Parameters,
    place: Place,
    six: [u32; 6],
    keys: &[u8],
) -> usize
    requires { (length keys.now ≡ 192) × (at + 192 ≤ length out.old) }
    ensures { Went out.old at (chunks (λ q. commitment p (in_slot place q) (opening_of six keys.now q)) 6) out.new result }
{
    let mut next = at;
    for q in 0..6 {
        let from = 32 * q;
        let to = from + 32;
        let here = commitment::in_slot(place, q);
        next = commitment::put_commitment(out, next, p, here, &keys[from..to], six[q]);
    }
    next
}

// The openings of `count` slots: the first is `from`, and each next one is `step` further on.
fn put_openings(
    out: &mut [u8],
    at: usize,
    from: usize,
    step: usize,
    count: usize,
    six: [u32; 6],
    keys: &[u8],
) -> usize
    requires { (length keys.now ≡ 192) × ((at + count * 36 ≤ length out.old) × ((k : ℕ) → k < count → step * k + from < 6)) }
    ensures { Went out.old at (chunks (λ k. opening_of six keys.now (step * k + from)) count) out.new result }
{
    let mut next = at;
    for k in 0..count {
        let q = step * k + from;
        let start = 32 * q;
        let end = start + 32;
        next = commitment::put_opening(out, next, &keys[start..end], six[q]);
    }
    next
}

// All six openings.
fn put_six_openings(out: &mut [u8], at: usize, six: [u32; 6], keys: &[u8]) -> usize
    requires { (length keys.now ≡ 192) × (at + 216 ≤ length out.old) }
    ensures { Went out.old at (chunks (opening_of six keys.now) 6) out.new result }
{
    put_openings(out, at, 0, 1, 6, six, keys)
}

// The three openings of one side.
fn put_three_openings(out: &mut [u8], at: usize, side: usize, six: [u32; 6], keys: &[u8]) -> usize
    requires { (side ≤ 1) × ((length keys.now ≡ 192) × (at + 108 ≤ length out.old)) }
    ensures { Went out.old at (chunks (λ k. opening_of six keys.now (2 * k + side)) 3) out.new result }
{
    put_openings(out, at, side, 2, 3, six, keys)
}

// The beginning of a command that names a list: its code, the list, and a position or a ballot.
fn put_head(out: &mut [u8], at: usize, code: u32, l: u32, i: u32) -> usize
    requires { (code < 256) × (at + 4 ≤ length out.old) }
    ensures { Went out.old at ((code ∷ bytes 1 l) ++ bytes 2 i) out.new result }
{
    let a = wire::put1(out, at, code);
    let b = wire::put1(out, a, l);
    wire::put2(out, b, i)
}

// The first command's byte, and behind 0C the election's number.
fn put_form(out: &mut [u8], at: usize, form: Form) -> usize
    requires { at + (1 + number_width form) ≤ length out.old }
    ensures { Went out.old at (form_bytes form) out.new result }
{
    match form {
        Form::Unnumbered => wire::put1(out, at, 0x01),
        Form::Numbered(election) => {
            let next = wire::put1(out, at, 0x0C);
            wire::put4(out, next, election)
        }
    }
}

// 01 or 0C: the parameters.
pub fn put_first(out: &mut [u8], at: usize, p: Parameters) -> usize
    requires { (p.ballots < 65536) × ((p.compared < 256) × (at + first_width p ≤ length out.old)) }
    ensures { Went out.old at (first_command p) out.new result }
{
    let form = p.form;
    let a = put_form(out, at, form);
    let b = wire::put4(out, a, p.modulus);
    let c = wire::put2(out, b, p.ballots as u32);
    wire::put1(out, c, p.compared as u32)
}

// 02: a ballot.
pub fn put_ballot(
    out: &mut [u8],
    at: usize,
    p: Parameters,
    id: u32,
    six: [u32; 6],
    keys: &[u8],
) -> usize
    requires { (length keys.now ≡ 192) × (at + 197 ≤ length out.old) }
    ensures { let command = ballot_command id (λ q. commitment p (InBallot id q) (opening_of six keys.now q)) in
        Went out.old at command out.new result }
{
    let a = wire::put1(out, at, 2);
    let b = wire::put4(out, a, id);
    put_six_commitments(out, b, p, Place::InBallot(id, 0), six, keys)
}

// 03: a list entry.
pub fn put_entry(
    out: &mut [u8],
    at: usize,
    p: Parameters,
    l: u32,
    i: u32,
    six: [u32; 6],
    keys: &[u8],
) -> usize
    requires { (length keys.now ≡ 192) × (at + 196 ≤ length out.old) }
    ensures { let command = entry_command l i (λ q. commitment p (InEntry l i q) (opening_of six keys.now q)) in
        Went out.old at command out.new result }
{
    let a = put_head(out, at, 3, l, i);
    let place = Place::InEntry(l as usize, i as usize, 0);
    put_six_commitments(out, a, p, place, six, keys)
}

// 04: the first dice and the mask.
pub fn put_first_dice(out: &mut [u8], at: usize, dice: &[u8], mask: u32) -> usize
    requires { (length dice.now ≡ 30) × (at + 35 ≤ length out.old) }
    ensures { Went out.old at (first_dice_command dice.now mask) out.new result }
{
    let a = wire::put1(out, at, 4);
    let b = wire::copy(out, a, dice);
    wire::put4(out, b, mask)
}

// 05: a link.
pub fn put_link(out: &mut [u8], at: usize, l: u32, j: u32, position: u32, t: u32) -> usize
    requires { at + 10 ≤ length out.old }
    ensures { Went out.old at (link_command l j position t) out.new result }
{
    let a = put_head(out, at, 5, l, j);
    let b = wire::put2(out, a, position);
    wire::put4(out, b, t)
}

// 06: the second dice.
pub fn put_second_dice(out: &mut [u8], at: usize, dice: &[u8]) -> usize
    requires { (length dice.now ≡ 30) × (at + 31 ≤ length out.old) }
    ensures { Went out.old at (second_dice_command dice.now) out.new result }
{
    let a = wire::put1(out, at, 6);
    wire::copy(out, a, dice)
}

// 07: a ballot's half.
pub fn put_ballot_half(
    out: &mut [u8],
    at: usize,
    j: u32,
    side: u32,
    six: [u32; 6],
    keys: &[u8],
) -> usize
    requires { (side ≤ 1) × ((length keys.now ≡ 192) × (at + 112 ≤ length out.old)) }
    ensures { Went out.old at (ballot_half_command j side (λ k. opening_of six keys.now (2 * k + side))) out.new result }
{
    let a = wire::put1(out, at, 7);
    let b = wire::put2(out, a, j);
    let c = wire::put1(out, b, side);
    put_three_openings(out, c, side as usize, six, keys)
}

// 08: the half of a linked entry.
pub fn put_list_half(
    out: &mut [u8],
    at: usize,
    l: u32,
    position: u32,
    side: u32,
    six: [u32; 6],
    keys: &[u8],
) -> usize
    requires { (side ≤ 1) × ((length keys.now ≡ 192) × (at + 112 ≤ length out.old)) }
    ensures { Went out.old at (list_half_command l position (λ k. opening_of six keys.now (2 * k + side))) out.new result }
{
    let a = put_head(out, at, 8, l, position);
    put_three_openings(out, a, side as usize, six, keys)
}

// 09: an announced vote.
pub fn put_vote(out: &mut [u8], at: usize, i: u32, vote: u32) -> usize
    requires { at + 7 ≤ length out.old }
    ensures { Went out.old at (vote_command i vote) out.new result }
{
    let a = wire::put1(out, at, 9);
    let b = wire::put2(out, a, i);
    wire::put4(out, b, vote)
}

// 0A: a full opening.
pub fn put_full(out: &mut [u8], at: usize, l: u32, i: u32, six: [u32; 6], keys: &[u8]) -> usize
    requires { (length keys.now ≡ 192) × (at + 220 ≤ length out.old) }
    ensures { Went out.old at (full_command l i (opening_of six keys.now)) out.new result }
{
    let a = put_head(out, at, 10, l, i);
    put_six_openings(out, a, six, keys)
}

// 0B: the end.
pub fn put_end(out: &mut [u8], at: usize) -> usize
    requires { at + 1 ≤ length out.old }
    ensures { Went out.old at (11 ∷ []) out.new result }
{
    wire::put1(out, at, 11)
}
