// Commands 07 and 08 of a record: the halves of all ballots, and behind each of them those of the entries linked to it.
ghost use Rattle.std.specs.Prelude.{List, [], ℕ, ◌+◌, ◌*◌, ◌≤◌, ◌<◌, length};
ghost use Rattle.laws.specs.Chunks.{chunks};
ghost use Rattle.laws.specs.Masks.{bit};
ghost use Rattle.laws.specs.Tests.{choose};
ghost use Rattle.laws.specs.Writing.{Went};
ghost use Rattle.protocol.specs.Terms.{item};
ghost use Rattle.protocol.specs.Layout.{lists};
ghost use Rattle.protocol.specs.Record as said;
ghost use Rattle.protocol.specs.Record.{list_half_command};
ghost use Rattle.protocol.specs.Inputs.{inputs_of};
ghost use Rattle.protocol.specs.Servers.{link_position, entry_opening, posted_disclosure};
ghost use Rattle.disclosure.specs.Disclosed.{Shaped, Placed, Sided};

use crate::placing;
use protocol::{Inputs, KEYS_WIDTH, MOST_BALLOTS};

// Command 08 of the entry that list l links to ballot j, where the list is compared.
fn put_if_compared(
    out: &mut [u8],
    at: usize,
    s: &Inputs,
    mask: u32,
    places: &[u16],
    l: usize,
    j: usize,
    side: u32,
) -> usize
    requires { Shaped s.now mask × (Placed s.now mask (lists s.now.parameters) places.now
        × ((l < lists s.now.parameters) × ((j < s.now.parameters.ballots)
        × ((side ≤ 1) × (at + bit mask l * 112 ≤ length out.old))))) }
    ensures { let t = inputs_of s.now in
        let i = link_position t l j in
        let half = list_half_command l i (λ k. entry_opening t l i (2 * k + side)) in
        Went out.old at (choose (bit mask l) [] half) out.new result }
{
    if (mask >> (l as u32)) % 2 == 0 {
        return at;
    }
    let p = s.parameters;
    let keys = s.keys;
    let i = places[layout::rank(mask, l) * p.ballots + j] as usize;
    let from = mixing::keys_at(p, l, i);
    let to = from + KEYS_WIDTH;
    let six = mixing::entry_side(s, l, i, side);
    commands::put_list_half(out, at, l as u32, i as u32, side, six, &keys[from..to])
}

// Commands 08 of ballot j: the entries that all compared lists link to it.
fn put_linked(
    out: &mut [u8],
    at: usize,
    s: &Inputs,
    mask: u32,
    places: &[u16],
    j: usize,
    side: u32,
) -> usize
    requires { Shaped s.now mask × (Placed s.now mask (lists s.now.parameters) places.now
        × ((j < s.now.parameters.ballots)
        × ((side ≤ 1) × (at + s.now.parameters.compared * 112 ≤ length out.old)))) }
    ensures { let t = inputs_of s.now in
        let place : ℕ → ℕ = λ l. link_position t l j in
        let half : ℕ → List ℕ = λ l. list_half_command l (place l) (λ k. entry_opening t l (place l) (2 * k + side)) in
        Went out.old at (chunks (λ l. choose (bit mask l) [] (half l)) (lists s.now.parameters)) out.new result }
{
    let lists = 2 * s.parameters.compared;
    let mut next = at;
    for l in 0..lists {
        next = put_if_compared(out, next, s, mask, places, l, j, side);
    }
    next
}

// Commands 07 and 08 of ballot j.
fn put_halves_of(
    out: &mut [u8],
    at: usize,
    s: &Inputs,
    mask: u32,
    places: &[u16],
    j: usize,
    side: u32,
) -> usize
    requires { Shaped s.now mask × (Placed s.now mask (lists s.now.parameters) places.now
        × ((j < s.now.parameters.ballots)
        × ((side ≤ 1) × (at + (s.now.parameters.compared + 1) * 112 ≤ length out.old)))) }
    ensures { let t = inputs_of s.now in
        let d = posted_disclosure t [] (λ _. side) in
        Went out.old at (said.halves s.now.parameters mask (link_position t) d j) out.new result }
{
    let keys = s.keys;
    let from = KEYS_WIDTH * j;
    let to = from + KEYS_WIDTH;
    let six = mixing::ballot(s, j);
    let next = commands::put_ballot_half(out, at, j as u32, side, six, &keys[from..to]);
    put_linked(out, next, s, mask, places, j, side)
}

// Commands 07 and 08 of all ballots, with the places of the entries linked to them.
fn put_with(out: &mut [u8], at: usize, s: &Inputs, mask: u32, sides: &[u8], places: &[u16]) -> usize
    requires { Shaped s.now mask × (Sided s.now sides.now × (Placed s.now mask (lists s.now.parameters) places.now
        × (at + s.now.parameters.ballots * ((s.now.parameters.compared + 1) * 112) ≤ length out.old))) }
    ensures { let t = inputs_of s.now in
        let d = posted_disclosure t [] (item sides.now) in
        Went out.old at (chunks (said.halves s.now.parameters mask (link_position t) d) s.now.parameters.ballots) out.new result }
{
    let mut next = at;
    for (j, side) in sides.iter().enumerate() {
        next = put_halves_of(out, next, s, mask, places, j, *side as u32);
    }
    next
}

// .. with the room for these: a place for each ballot in each compared list.
pub fn put_halves(out: &mut [u8], at: usize, s: &Inputs, mask: u32, sides: &[u8]) -> usize
    requires { Shaped s.now mask × (Sided s.now sides.now
        × (at + s.now.parameters.ballots * ((s.now.parameters.compared + 1) * 112) ≤ length out.old)) }
    ensures { let t = inputs_of s.now in
        let d = posted_disclosure t [] (item sides.now) in
        Went out.old at (chunks (said.halves s.now.parameters mask (link_position t) d) s.now.parameters.ballots) out.new result }
{
    let mut places = [0u16; 12 * MOST_BALLOTS];
    placing::place_all(s, mask, &mut places);
    put_with(out, at, s, mask, sides, &places)
}
