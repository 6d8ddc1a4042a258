// Openings and commitments: written from a key and a number, and checked in a record.
#![tactic(auto)]

ghost use Rattle.std.specs.Prelude.{◌≡◌, ◌++◌, ◌+◌, ◌≤◌, length};
ghost use Rattle.laws.specs.Bytes.{bytes};
ghost use Rattle.laws.specs.Chunks.{piece};
ghost use Rattle.laws.specs.Writing.{Went};
ghost use Rattle.sha3.specs.Word.{word_at, ended};
ghost use Rattle.protocol.specs.Terms.{opening, place_bytes, commitment};
ghost use Rattle.protocol.specs.Rules as rules;
ghost use Rattle.commitment.specs.Slots.{in_slot};
ghost use Rattle.commitment.specs.Behind.{behind_key};

use protocol::{Form, Parameters, Place};

// Slot q of the ballot or list entry that a place is in.
pub fn in_slot(place: Place, q: usize) -> Place
    ensures { result ≡ in_slot place q }
{
    match place {
        Place::InBallot(id, _) => Place::InBallot(id, q),
        Place::InEntry(l, i, _) => Place::InEntry(l, i, q),
    }
}

// The bytes that tell where a commitment is posted: the slot, the list or 255 for a ballot, the position or the ballot's id.
fn put_told(out: &mut [u8], at: usize, slot: usize, list: u32, x: u32) -> usize
    requires { at + 6 ≤ length out.old }
    ensures { Went out.old at ((bytes 1 slot ++ bytes 1 list) ++ bytes 4 x) out.new result }
{
    let a = wire::put1(out, at, (slot % 256) as u32);
    let b = wire::put1(out, a, list);
    wire::put4(out, b, x)
}

// .. of a place.
fn put_place(out: &mut [u8], at: usize, place: Place) -> usize
    requires { at + 6 ≤ length out.old }
    ensures { Went out.old at (place_bytes place) out.new result }
{
    match place {
        Place::InBallot(id, q) => put_told(out, at, q, 255, id),
        Place::InEntry(l, i, q) => put_told(out, at, q, (l % 256) as u32, (i % 4294967296) as u32),
    }
}

// What is hashed behind the key, with the end of a message, as the two lanes that it fills.
#[derive(Clone, Copy)]
struct Tail {
    low: u64,
    high: u64,
}

// .. of a number alone, with 01.
fn plain_tail(x: u32) -> Tail
    ensures { let b = ended (bytes 4 x) in (result.low ≡ word_at b 0) × (result.high ≡ word_at b 8) }
{
    let mut rest = [0u8; 16];
    let a = wire::put4(&mut rest, 0, x);
    wire::put1(&mut rest, a, 6);
    let low = sha3::word(&rest, 0);
    let high = sha3::word(&rest, 8);
    Tail { low, high }
}

// .. of a number, the election's number and a place, with 0C. The compiler makes both lanes of the numbers, without the bytes.
fn placed_tail(x: u32, election: u32, place: Place) -> Tail
    ensures { let b = ended ((bytes 4 x ++ bytes 4 election) ++ place_bytes place) in
        (result.low ≡ word_at b 0) × (result.high ≡ word_at b 8) }
{
    let mut rest = [0u8; 16];
    let a = wire::put4(&mut rest, 0, x);
    let b = wire::put4(&mut rest, a, election);
    let c = put_place(&mut rest, b, place);
    wire::put1(&mut rest, c, 6);
    let low = sha3::word(&rest, 0);
    let high = sha3::word(&rest, 8);
    Tail { low, high }
}

// .. in either form. The form of a commitment is known here only.
fn tail_of(form: Form, place: Place, x: u32) -> Tail
    ensures { let b = ended (behind_key form place x) in (result.low ≡ word_at b 0) × (result.high ≡ word_at b 8) }
{
    match form {
        Form::Unnumbered => plain_tail(x),
        Form::Numbered(election) => placed_tail(x, election, place),
    }
}

// Whether an opening gives the commitment posted in a place; both lie in the bytes.
pub fn gives(p: Parameters, place: Place, bytes: &[u8], opening_at: usize, posted_at: usize) -> bool
    requires { (opening_at + 36 ≤ length bytes.now) × (posted_at + 32 ≤ length bytes.now) }
    ensures { result ≡ rules.gives p place (piece bytes.now opening_at 36) (piece bytes.now posted_at 32) }
{
    let key_end = opening_at + 32;
    let x = wire::read4(bytes, key_end);
    let form = p.form;
    let t = tail_of(form, place, x);
    let row = sha3::keyed_row(&bytes[opening_at..key_end], t.low, t.high);
    sha3::has_digest(bytes, posted_at, row)
}

// Writes the opening of a key and a number at a place, and answers the next place.
pub fn put_opening(out: &mut [u8], at: usize, key: &[u8], x: u32) -> usize
    requires { (length key.now ≡ 32) × (at + 36 ≤ length out.old) }
    ensures { Went out.old at (opening key.now x) out.new result }
{
    sha3::copy_key(out, at, key);
    wire::put4(out, at + 32, x)
}

// Writes the commitment to a key and a number that is posted in a place, and answers where the next byte goes. The key is taken where it
// lies, and the digest goes straight to its place.
pub fn put_commitment(
    out: &mut [u8],
    at: usize,
    p: Parameters,
    place: Place,
    key: &[u8],
    x: u32,
) -> usize
    requires { (length key.now ≡ 32) × (at + 32 ≤ length out.old) }
    ensures { Went out.old at (commitment p place (opening key.now x)) out.new result }
{
    let form = p.form;
    let t = tail_of(form, place, x);
    let row = sha3::keyed_row(key, t.low, t.high);
    sha3::put_digest(out, at, row);
    at + 32
}
