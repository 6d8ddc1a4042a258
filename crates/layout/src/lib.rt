// What places depend on, the parameters and the mask, and where each command of a record stands, worked out from them as document 01 lays
// the record out.
#![tactic(auto)]

ghost use Rattle.std.specs.Prelude.{◌≡◌, ◌+◌, ◌-◌, ◌*◌, ◌≤◌, ◌<◌, length};
ghost use Rattle.laws.specs.Masks.{set_before, clear_before};
ghost use Rattle.protocol.specs.Terms.{most_ballots};
ghost use Rattle.protocol.specs.Layout as places;
ghost use Rattle.protocol.specs.Record.{form_of, parameters_of, mask_of};
ghost use Rattle.layout.specs.Bounds.{Few};

use protocol::{Form, Parameters};

// How many bytes the election's number takes.
fn number_width(form: Form) -> usize
    ensures { (result ≡ places.number_width form) × (result ≤ 4) }
{
    match form {
        Form::Unnumbered => 0,
        Form::Numbered(_) => 4,
    }
}

// The first command's form.
fn form(bytes: &[u8]) -> Form
    requires { 8 ≤ length bytes.now }
    ensures { result ≡ form_of bytes.now }
{
    if bytes[0] == 0x0C {
        Form::Numbered(wire::read4(bytes, 1))
    } else {
        Form::Unnumbered
    }
}

// The form that is due of a first command, which may be cut short: its byte tells, and no number is read.
pub fn due_form(bytes: &[u8]) -> Form
    ensures { places.first_code result ≡ places.first_code (form_of bytes.now) }
{
    if !bytes.is_empty() && bytes[0] == 0x0C {
        Form::Numbered(0)
    } else {
        Form::Unnumbered
    }
}

// The parameters that the first command says.
pub fn parameters(bytes: &[u8]) -> Parameters
    requires { places.first_width (parameters_of bytes.now) ≤ length bytes.now }
    ensures { result ≡ parameters_of bytes.now }
{
    let form = form(bytes);
    let w = number_width(form);
    Parameters {
        form,
        modulus: wire::read4(bytes, 1 + w),
        ballots: wire::read2(bytes, 5 + w) as usize,
        compared: wire::read1(bytes, 7 + w) as usize,
    }
}

// The first command's width.
fn first_width(p: Parameters) -> usize
    ensures { (result ≡ places.first_width p) × (result ≤ 12) }
{
    8 + number_width(p.form)
}

// How many lists there are.
pub fn lists(p: Parameters) -> usize
    requires { Few p }
    ensures { (result ≡ places.lists p) × (result ≤ 24) }
{
    2 * p.compared
}

// The index of item i of a row, where rows of n items stand one behind the other.
fn flat_index(p: Parameters, row: usize, i: usize) -> usize
    requires { Few p × ((row ≤ 24) × (i ≤ most_ballots)) }
    ensures { (result ≡ row * p.ballots + i) × (result ≤ 25 * most_ballots) }
{
    row * p.ballots + i
}

pub fn at_ballot(p: Parameters, j: usize) -> usize
    requires { j ≤ most_ballots }
    ensures { (result ≡ places.at_ballot p j) × (result < 33554432) }
{
    first_width(p) + 197 * j
}

pub fn at_entry(p: Parameters, l: usize, i: usize) -> usize
    requires { Few p × ((l ≤ 24) × (i ≤ most_ballots)) }
    ensures { (result ≡ places.at_entry p l i) × (result < 33554432) }
{
    first_width(p) + 197 * p.ballots + 196 * flat_index(p, l, i)
}

pub fn at_first_dice(p: Parameters) -> usize
    requires { Few p }
    ensures { (result ≡ places.at_first_dice p) × (result < 33554432) }
{
    at_entry(p, 2 * p.compared, 0)
}

// The mask, as it is posted.
pub fn mask(p: Parameters, bytes: &[u8]) -> u32
    requires { Few p × (places.at_first_dice p + 35 ≤ length bytes.now) }
    ensures { result ≡ mask_of p bytes.now }
{
    wire::read4(bytes, at_first_dice(p) + 31)
}

// How many compared lists come before list l; all others before it are opened.
pub fn rank(mask: u32, l: usize) -> usize
    requires { l ≤ 24 }
    ensures { (result ≡ set_before mask l) × (l - result ≡ clear_before mask l) × (result ≤ l) }
{
    (mask % (1 << (l as u32))).count_ones() as usize
}

// c compared lists come before.
pub fn at_link(p: Parameters, c: usize, j: usize) -> usize
    requires { Few p × ((c ≤ 24) × (j ≤ most_ballots)) }
    ensures { (result ≡ places.at_link p c j) × (result < 67108864) }
{
    at_first_dice(p) + 35 + 10 * flat_index(p, c, j)
}

pub fn at_second_dice(p: Parameters) -> usize
    requires { Few p }
    ensures { (result ≡ places.at_second_dice p) × (result < 67108864) }
{
    at_link(p, p.compared, 0)
}

pub fn at_ballot_half(p: Parameters, j: usize) -> usize
    requires { Few p × (j ≤ most_ballots) }
    ensures { (result ≡ places.at_ballot_half p j) × (result < 134217728) }
{
    at_second_dice(p) + 31 + 112 * (j * (p.compared + 1))
}

// c compared lists come before.
pub fn at_list_half(p: Parameters, j: usize, c: usize) -> usize
    requires { Few p × ((j ≤ most_ballots) × (c ≤ 24)) }
    ensures { (result ≡ places.at_list_half p j c) × (result < 268435456) }
{
    at_ballot_half(p, j) + 112 + 112 * c
}

pub fn at_vote(p: Parameters, i: usize) -> usize
    requires { Few p × (i ≤ most_ballots) }
    ensures { (result ≡ places.at_vote p i) × (result < 268435456) }
{
    at_ballot_half(p, p.ballots) + 7 * i
}

// c opened lists come before.
pub fn at_full_opening(p: Parameters, c: usize, i: usize) -> usize
    requires { Few p × ((c ≤ 24) × (i ≤ most_ballots)) }
    ensures { (result ≡ places.at_full_opening p c i) × (result < 536870912) }
{
    at_vote(p, p.ballots) + 220 * flat_index(p, c, i)
}

pub fn at_end(p: Parameters) -> usize
    requires { Few p }
    ensures { (result ≡ places.at_end p) × (result < 536870912) }
{
    at_full_opening(p, p.compared, 0)
}
