// The rules of the commands that open commitments: ballot halves, list halves and full openings. Each function answers the first rule
// broken, and is told where its command starts and that the whole of it is there.
#![tactic(auto)]

ghost use Rattle.std.specs.Prelude.{true, is_some, ◌≡◌, ℕ, ◌+◌, ◌*◌, ◌≤◌, ◌<◌, length};
ghost use Rattle.laws.specs.Tests.{every};
ghost use Rattle.laws.specs.Bytes.{number};
ghost use Rattle.laws.specs.Chunks.{piece};
ghost use Rattle.laws.specs.Tables.{tabulate};
ghost use Rattle.laws.specs.Permuting.{permutes};
ghost use Rattle.protocol.specs.Terms.{opened, sum_of_six};
ghost use Rattle.protocol.specs.Rules.{numbers_below, gives, agrees, ballot_half_rules, list_half_rules, full_rules};
ghost use Rattle.commitment.specs.Slots.{in_slot};
ghost use Rattle.rules.specs.Known.{BallotHalfReady, ListHalfReady, FullReady, lent};
ghost use Rattle.opening_rules.specs.Opened.{opening_at, sum_of, Openings, ListReady, PermutesReady};
ghost use Rattle.protocol.specs.Answers.{number_in};

use protocol::{Parameters, Place, Rule};

// The number in opening i of those that stand one behind the other from a place on.
fn number_at(bytes: &[u8], at: usize, i: usize) -> u32
    requires { at + 36 * i + 36 ≤ length bytes.now }
    ensures { (result ≡ opened (opening_at bytes.now at i)) × (result < 4294967296) }
{
    wire::read4(bytes, at + 36 * i + 32)
}

// Whether the numbers of k openings, one behind the other, are below the modulus.
fn numbers_below(bytes: &[u8], at: usize, k: usize, modulus: u32) -> bool
    requires { (k ≤ 6) × (at + 36 * k ≤ length bytes.now) }
    ensures { result ≡ numbers_below modulus (opening_at bytes.now at) k }
{
    for i in 0..k {
        if modulus <= number_at(bytes, at, i) {
            return false;
        }
    }
    true
}

// Whether k openings, one behind the other, give their commitments. Opening i is for slot step * i + from of the ballot or entry that
// `place` is in, whose commitments stand one behind the other from `posted` on.
fn openings_give(
    p: Parameters,
    place: Place,
    bytes: &[u8],
    at: usize,
    posted: usize,
    from: usize,
    step: usize,
    k: usize,
) -> bool
    requires { Openings bytes.now at posted from step k }
    ensures { let r₀ = bytes.now in
        let slot : ℕ → ℕ = λ i. step * i + from in
        result ≡ every (λ i. gives p (in_slot place (slot i)) (opening_at r₀ at i) (piece r₀ (posted + 32 * slot i) 32)) k }
{
    for i in 0..k {
        let q = step * i + from;
        let slot = commitment::in_slot(place, q);
        if !commitment::gives(p, slot, bytes, at + 36 * i, posted + 32 * q) {
            return false;
        }
    }
    true
}

// The numbers of k openings, one behind the other, summed.
fn sum(bytes: &[u8], at: usize, k: usize, modulus: u32) -> u32
    requires { (1 ≤ k) × (k ≤ 6) × (at + 36 * k ≤ length bytes.now) × (numbers_below modulus (opening_at bytes.now at) k ≡ true) }
    ensures { (result ≡ sum_of modulus (opening_at bytes.now at) k) × (result < modulus) }
{
    let mut sum = 0;
    for i in 0..k {
        sum = modular::plus(modulus, sum, number_at(bytes, at, i));
    }
    sum
}

// 07: the ballot, 4; its numbers, 10; the side, 11 and, as drawn, 12; its openings, 13. `text` is what the sides are drawn from, where
// they are to be the drawn ones.
pub fn ballot_half_rules(
    p: Parameters,
    bytes: &[u8],
    at: usize,
    j: usize,
    text: Option<&[u8]>,
) -> Result<(), Rule>
    requires { BallotHalfReady p bytes.now at j (is_some text) (lent text) }
    ensures { number_in result ≡ ballot_half_rules p bytes.now (is_some text.entry) j }
{
    if wire::read2(bytes, at + 1) as usize != j {
        return Err(Rule::Operand);
    }
    if !numbers_below(bytes, at + 4, 3, p.modulus) {
        return Err(Rule::Number);
    }
    let side = wire::read1(bytes, at + 3);
    if 1 < side {
        return Err(Rule::Side);
    }
    if let Some(text) = text {
        if challenge::drawn_side(text, j) != side {
            return Err(Rule::SideDrawn);
        }
    }
    let ballot = layout::at_ballot(p, j);
    let place = Place::InBallot(wire::read4(bytes, ballot + 1), 0);
    if !openings_give(p, place, bytes, at + 4, ballot + 5, side as usize, 2, 3) {
        return Err(Rule::Opening);
    }
    Ok(())
}

// Rule 14: on side 0 the ballot's sum is the list's plus t, on side 1 the list's minus t.
fn halves_agree(modulus: u32, side: u32, ballot: u32, list: u32, t: u32) -> bool
    requires { (list < modulus) × (t < modulus) }
    ensures { result ≡ agrees modulus side ballot list t }
{
    if side == 0 {
        return ballot == modular::plus(modulus, list, t);
    }
    ballot == modular::minus(modulus, list, t)
}

// 08: list and linked position, 4; the numbers, 10; the openings, 13; the two halves, 14. The commands before it stand (`ListHalfKnown`),
// so t and the ballot's numbers are below M and the side is 0 or 1.
pub fn list_half_rules(
    p: Parameters,
    bytes: &[u8],
    at: usize,
    l: usize,
    j: usize,
) -> Result<(), Rule>
    requires { ListHalfReady p bytes.now at l j }
    ensures { number_in result ≡ list_half_rules p bytes.now l j }
{
    if wire::read1(bytes, at + 1) as usize != l {
        return Err(Rule::Operand);
    }
    let rank = layout::rank(layout::mask(p, bytes), l);
    let link = layout::at_link(p, rank, j);
    let position = wire::read2(bytes, link + 4) as usize;
    if wire::read2(bytes, at + 2) as usize != position {
        return Err(Rule::Operand);
    }
    let openings = at + 4;
    if !numbers_below(bytes, openings, 3, p.modulus) {
        return Err(Rule::Number);
    }
    let half = layout::at_ballot_half(p, j);
    let side = wire::read1(bytes, half + 3);
    let posted = layout::at_entry(p, l, position) + 4;
    let place = Place::InEntry(l, position, 0);
    if !openings_give(p, place, bytes, openings, posted, side as usize, 2, 3) {
        return Err(Rule::Opening);
    }
    let ballot = sum(bytes, half + 4, 3, p.modulus);
    let list = sum(bytes, openings, 3, p.modulus);
    if !halves_agree(p.modulus, side, ballot, list, wire::read4(bytes, link + 6)) {
        return Err(Rule::Halves);
    }
    Ok(())
}

// The values of an opened list, whose full openings start at a place, one behind the other.
fn fill_values(bytes: &[u8], at: usize, modulus: u32, out: &mut [u32])
    requires { ListReady bytes.now at modulus (length out.old) }
    ensures { let value : ℕ → ℕ = λ i. sum_of_six modulus (opening_at bytes.now (at + 220 * i + 4)) in
        out.new ≡ tabulate value (length out.old) }
{
    for (i, value) in out.iter_mut().enumerate() {
        *value = sum(bytes, at + 220 * i + 4, 6, modulus);
    }
}

// Rule 16: whether the values of an opened list are the announced votes in some order; the first vote stands at `announced`. Values and
// votes are worked out into the two lent slices, of one number a ballot. The votes are sorted, by rule 15, so it is enough to sort the
// values and compare.
fn permutes_with(
    bytes: &[u8],
    at: usize,
    announced: usize,
    modulus: u32,
    values: &mut [u32],
    votes: &mut [u32],
) -> bool
    requires { PermutesReady bytes.now at announced modulus (length values.old) (length votes.old) }
    ensures { let value : ℕ → ℕ = λ i. sum_of_six modulus (opening_at bytes.now (at + 220 * i + 4)) in
        let vote : ℕ → ℕ = λ i. number bytes.now (announced + 7 * i) 4 in
        result ≡ permutes value vote (length values.old) }
{
    fill_values(bytes, at, modulus, values);
    wire::fill_numbers(bytes, announced, 7, votes);
    sorting::is_permutation(values, votes)
}

// .. with room for both.
fn list_permutes(bytes: &[u8], at: usize, announced: usize, modulus: u32, n: usize) -> bool
    requires { PermutesReady bytes.now at announced modulus n n }
    ensures { let value : ℕ → ℕ = λ i. sum_of_six modulus (opening_at bytes.now (at + 220 * i + 4)) in
        let vote : ℕ → ℕ = λ i. number bytes.now (announced + 7 * i) 4 in
        result ≡ permutes value vote n }
{
    let mut values = [0u32; protocol::MOST_BALLOTS];
    let mut votes = [0u32; protocol::MOST_BALLOTS];
    permutes_with(
        bytes,
        at,
        announced,
        modulus,
        &mut values[..n],
        &mut votes[..n],
    )
}

// 0A: list and position, 4; the numbers, 10; the openings, 13; at the list's last position its values, 16.
pub fn full_rules(p: Parameters, bytes: &[u8], at: usize, l: usize, i: usize) -> Result<(), Rule>
    requires { FullReady p bytes.now at l i }
    ensures { number_in result ≡ full_rules p bytes.now l i }
{
    if wire::read1(bytes, at + 1) as usize != l || wire::read2(bytes, at + 2) as usize != i {
        return Err(Rule::Operand);
    }
    if !numbers_below(bytes, at + 4, 6, p.modulus) {
        return Err(Rule::Number);
    }
    let posted = layout::at_entry(p, l, i) + 4;
    if !openings_give(p, Place::InEntry(l, i, 0), bytes, at + 4, posted, 0, 1, 6) {
        return Err(Rule::Opening);
    }
    if i + 1 == p.ballots {
        let votes = layout::at_vote(p, 0) + 3;
        // the list's first full opening stands i commands before this one
        if !list_permutes(bytes, at - 220 * i, votes, p.modulus, p.ballots) {
            return Err(Rule::OpenedList);
        }
    }
    Ok(())
}
