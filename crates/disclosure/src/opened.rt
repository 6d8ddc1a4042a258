// Commands 0A of a record: the full openings of the lists that are not compared.
ghost use Rattle.std.specs.Prelude.{List, [], ℕ, ◌+◌, ◌-◌, ◌*◌, ◌≤◌, ◌<◌, length};
ghost use Rattle.laws.specs.Chunks.{chunks};
ghost use Rattle.laws.specs.Masks.{bit};
ghost use Rattle.laws.specs.Tests.{choose};
ghost use Rattle.laws.specs.Writing.{Went};
ghost use Rattle.protocol.specs.Layout.{lists};
ghost use Rattle.protocol.specs.Record.{full_command};
ghost use Rattle.protocol.specs.Inputs.{inputs_of};
ghost use Rattle.protocol.specs.Servers.{entry_opening};
ghost use Rattle.mixing.specs.Passed.{Passed};
ghost use Rattle.disclosure.specs.Disclosed.{Shaped};

use protocol::{Inputs, KEYS_WIDTH};

// Commands 0A of list l.
fn put_full(out: &mut [u8], at: usize, s: &Inputs, l: usize) -> usize
    requires { Passed s.now × ((l < lists s.now.parameters) × (at + s.now.parameters.ballots * 220 ≤ length out.old)) }
    ensures { let full = chunks (λ i. full_command l i (entry_opening (inputs_of s.now) l i)) s.now.parameters.ballots in
        Went out.old at full out.new result }
{
    let p = s.parameters;
    let keys = s.keys;
    let mut next = at;
    for i in 0..p.ballots {
        let from = mixing::keys_at(p, l, i);
        let to = from + KEYS_WIDTH;
        let six = mixing::entry(s, l, i);
        next = commands::put_full(out, next, l as u32, i as u32, six, &keys[from..to]);
    }
    next
}

// The same, where list l is not compared.
fn put_if_opened(out: &mut [u8], at: usize, s: &Inputs, mask: u32, l: usize) -> usize
    requires { Passed s.now × ((l < lists s.now.parameters)
        × (at + (1 - bit mask l) * (s.now.parameters.ballots * 220) ≤ length out.old)) }
    ensures { let full = chunks (λ i. full_command l i (entry_opening (inputs_of s.now) l i)) s.now.parameters.ballots in
        Went out.old at (choose (bit mask l) full []) out.new result }
{
    if (mask >> (l as u32)) % 2 != 0 {
        return at;
    }
    put_full(out, at, s, l)
}

// Commands 0A of all lists that are not compared.
pub fn put_opened(out: &mut [u8], at: usize, s: &Inputs, mask: u32) -> usize
    requires { Shaped s.now mask
        × (at + s.now.parameters.compared * (s.now.parameters.ballots * 220) ≤ length out.old) }
    ensures { let n = s.now.parameters.ballots in
        let full : ℕ → List ℕ = λ l. chunks (λ i. full_command l i (entry_opening (inputs_of s.now) l i)) n in
        Went out.old at (chunks (λ l. choose (bit mask l) (full l) []) (lists s.now.parameters)) out.new result }
{
    let lists = 2 * s.parameters.compared;
    let mut next = at;
    for l in 0..lists {
        next = put_if_opened(out, next, s, mask, l);
    }
    next
}
