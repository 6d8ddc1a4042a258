// The numbers of a ballot and of a list entry, out of what the servers are given. An entry is followed back through its three permutations
// to its ballot, and the offsets met on the way are added: no row is kept.
#![tactic(auto)]

ghost use Rattle.std.specs.Prelude.{◌≡◌, ℕ, ◌+◌, ◌*◌, ◌≤◌, ◌<◌, length};
ghost use Rattle.laws.specs.Bytes.{Below};
ghost use Rattle.laws.specs.Modular.{minus};
ghost use Rattle.protocol.specs.Terms.{item};
ghost use Rattle.protocol.specs.Inputs as inputs;
ghost use Rattle.protocol.specs.Inputs.{inputs_of};
ghost use Rattle.protocol.specs.Servers as servers;
ghost use Rattle.protocol.specs.Servers.{ballot_row, ballot_number, row_offset, source_of, entry_number, link_position, sum_of_halves};
ghost use Rattle.mixing.specs.Followed.{InList, Places, Votes, Numbers, three_at, sum_of_items};

use protocol::{BALLOT_NUMBERS, ENTRY_NUMBERS, ENTRY_PERMUTATIONS, Inputs, KEYS_WIDTH, Parameters};

// Where the keys of place i of list l start.
pub fn keys_at(p: Parameters, l: usize, i: usize) -> usize
    requires { InList p l × (i < p.ballots) }
    ensures { let n = p.ballots in
        (result ≡ 192 * n + 192 * (l * n + i)) × (result + 192 ≤ 192 * n + 384 * (p.compared * n)) }
{
    let n = p.ballots;
    KEYS_WIDTH * n + KEYS_WIDTH * (l * n + i)
}

// The numbers of ballot j.
fn ballot_numbers<'a>(s: &Inputs<'a>, j: usize) -> &'a [u32]
    requires { Numbers s.now × (j < s.now.parameters.ballots) }
    ensures { let M = s.now.parameters.modulus in
        (result.now ≡ inputs.ballot_numbers s.now j) × ((length result.now ≡ 5) × Below M result.now) }
{
    let at = BALLOT_NUMBERS * j;
    &s.numbers[at..at + BALLOT_NUMBERS]
}

// The numbers of list l.
fn list_numbers<'a>(s: &Inputs<'a>, l: usize) -> &'a [u32]
    requires { Numbers s.now × InList s.now.parameters l }
    ensures { let M = s.now.parameters.modulus in
        (result.now ≡ inputs.list_numbers s.now l) × ((length result.now ≡ 9 * s.now.parameters.ballots) × Below M result.now) }
{
    let n = s.parameters.ballots;
    let at = BALLOT_NUMBERS * n + l * (ENTRY_NUMBERS * n);
    &s.numbers[at..at + ENTRY_NUMBERS * n]
}

// The permutations of list l.
fn list_permutations<'a>(s: &Inputs<'a>, l: usize) -> &'a [u16]
    requires { Places s.now × InList s.now.parameters l }
    ensures { (result.now ≡ inputs.list_permutations s.now l) × (length result.now ≡ 3 * s.now.parameters.ballots) }
{
    let n = s.parameters.ballots;
    let at = l * (ENTRY_PERMUTATIONS * n);
    &s.permutations[at..at + ENTRY_PERMUTATIONS * n]
}

// Where column c of list l takes place i from.
fn from(s: &Inputs, l: usize, c: usize, i: usize) -> usize
    requires { Places s.now × (InList s.now.parameters l × ((c < 3) × (i < s.now.parameters.ballots))) }
    ensures { (result ≡ (inputs_of s.now).permutation l c i) × (result < s.now.parameters.ballots) }
{
    list_permutations(s, l)[c * s.parameters.ballots + i] as usize
}

// The ballot that place i of list l holds.
fn source(s: &Inputs, l: usize, i: usize) -> usize
    requires { Places s.now × (InList s.now.parameters l × (i < s.now.parameters.ballots)) }
    ensures { (result ≡ source_of (inputs_of s.now) l i) × (result < s.now.parameters.ballots) }
{
    let third = from(s, l, 2, i);
    let second = from(s, l, 1, third);
    from(s, l, 0, second)
}

// Share k of ballot j.
fn ballot_share(s: &Inputs, k: usize, j: usize) -> u32
    requires { Votes s.now × (Numbers s.now × (j < s.now.parameters.ballots)) }
    ensures { (result ≡ ballot_row (inputs_of s.now) k j) × (result < s.now.parameters.modulus) }
{
    let numbers = ballot_numbers(s, j);
    shares::share(s.parameters.modulus, s.votes[j], numbers[0], numbers[1], k)
}

// Row k's offset in column c of list l at place i, of rows one and two, which are given. No entry needs row three's.
fn offset(s: &Inputs, l: usize, c: usize, k: usize, i: usize) -> u32
    requires { Numbers s.now × (InList s.now.parameters l × ((c < 3) × ((k < 2) × (i < s.now.parameters.ballots)))) }
    ensures { (result ≡ row_offset (inputs_of s.now) l c k i) × (result < s.now.parameters.modulus) }
{
    list_numbers(s, l)[c * (2 * s.parameters.ballots) + (2 * i + k)]
}

// Row k of list l at place i, of rows one and two.
fn mixed(s: &Inputs, l: usize, k: usize, i: usize) -> u32
    requires { Votes s.now × (Numbers s.now × (Places s.now
        × (InList s.now.parameters l × ((k < 2) × (i < s.now.parameters.ballots))))) }
    ensures { (result ≡ servers.mixed (inputs_of s.now) l k i) × (result < s.now.parameters.modulus) }
{
    let modulus = s.parameters.modulus;
    let third = from(s, l, 2, i);
    let second = from(s, l, 1, third);
    let ballot = from(s, l, 0, second);
    let none = ballot_share(s, k, ballot);
    let one = modular::plus(modulus, none, offset(s, l, 0, k, ballot));
    let two = modular::plus(modulus, one, offset(s, l, 1, k, second));
    modular::plus(modulus, two, offset(s, l, 2, k, third))
}

// Three numbers that stand one behind the other.
fn three(numbers: &[u32], at: usize) -> [u32; 3]
    requires { at + 3 ≤ length numbers.now }
    ensures { result ≡ three_at numbers.now at }
{
    [numbers[at], numbers[at + 1], numbers[at + 2]]
}

// .. and summed.
fn sum(modulus: u32, numbers: [u32; 3]) -> u32
    requires { Below modulus numbers }
    ensures { (result ≡ sum_of_items modulus numbers) × (result < modulus) }
{
    modular::sum_of_three(modulus, numbers[0], numbers[1], numbers[2])
}

// The first halves of ballot j.
fn ballot_halves(s: &Inputs, j: usize) -> [u32; 3]
    requires { Numbers s.now × (j < s.now.parameters.ballots) }
    ensures { (k : ℕ) → k < 3 → (item result k ≡ (inputs_of s.now).first_half j k) × (item result k < s.now.parameters.modulus) }
{
    three(ballot_numbers(s, j), 2)
}

// .. and of place i of list l: they stand behind the offsets of its three columns.
fn entry_halves(s: &Inputs, l: usize, i: usize) -> [u32; 3]
    requires { Numbers s.now × (InList s.now.parameters l × (i < s.now.parameters.ballots)) }
    ensures { (k : ℕ) → k < 3 → (item result k ≡ (inputs_of s.now).entry_first_half l i k) × (item result k < s.now.parameters.modulus) }
{
    three(list_numbers(s, l), 6 * s.parameters.ballots + 3 * i)
}

// The six numbers of ballot j.
pub fn ballot(s: &Inputs, j: usize) -> [u32; 6]
    requires { Votes s.now × (Numbers s.now × (j < s.now.parameters.ballots)) }
    ensures { (q : ℕ) → q < 6 → (item result q ≡ ballot_number (inputs_of s.now) j q) × (item result q < s.now.parameters.modulus) }
{
    let x = ballot_share(s, 0, j);
    let y = ballot_share(s, 1, j);
    let z = ballot_share(s, 2, j);
    shares::split(s.parameters.modulus, [x, y, z], ballot_halves(s, j))
}

// The six numbers of place i of list l. The third row is what the first two leave of the vote, since the three rows' offsets add to 0.
pub fn entry(s: &Inputs, l: usize, i: usize) -> [u32; 6]
    requires { Votes s.now × (Numbers s.now × (Places s.now × (InList s.now.parameters l × (i < s.now.parameters.ballots)))) }
    ensures { (q : ℕ) → q < 6 → (item result q ≡ entry_number (inputs_of s.now) l i q) × (item result q < s.now.parameters.modulus) }
{
    let modulus = s.parameters.modulus;
    let x = mixed(s, l, 0, i);
    let y = mixed(s, l, 1, i);
    let vote = s.votes[source(s, l, i)];
    let z = modular::less_two(modulus, vote, x, y);
    shares::split(modulus, [x, y, z], entry_halves(s, l, i))
}

// The six numbers of place i of list l where those of one side are asked for. Of side 0 these are the first halves, for which nothing is
// followed, and 0 stands for the others.
pub fn entry_side(s: &Inputs, l: usize, i: usize, side: u32) -> [u32; 6]
    requires { (side ≤ 1) × (Votes s.now × (Numbers s.now × (Places s.now
        × (InList s.now.parameters l × (i < s.now.parameters.ballots))))) }
    ensures { (k : ℕ) → k < 3 → item result (2 * k + side) ≡ entry_number (inputs_of s.now) l i (2 * k + side) }
{
    if side != 0 {
        return entry(s, l, i);
    }
    let first = entry_halves(s, l, i);
    [first[0], 0, first[1], 0, first[2], 0]
}

// The place of each ballot in list l.
pub fn fill_places(s: &Inputs, l: usize, out: &mut [u16])
    requires { Places s.now × (InList s.now.parameters l × (length out.old ≡ s.now.parameters.ballots)) }
    ensures { let n = s.now.parameters.ballots in
        (length out.new ≡ n) × ((j : ℕ) → j < n → item out.new j ≡ link_position (inputs_of s.now) l j) }
{
    for i in 0..s.parameters.ballots {
        let j = source(s, l, i);
        out[j] = i as u16;
    }
}

// The shift of ballot j's link to place i of list l: the ballot's first halves less the list's.
pub fn shift(s: &Inputs, l: usize, j: usize, i: usize) -> u32
    requires { Numbers s.now × (InList s.now.parameters l × ((j < s.now.parameters.ballots) × (i < s.now.parameters.ballots))) }
    ensures { let t = inputs_of s.now in
        let M = s.now.parameters.modulus in
        (result ≡ minus M (sum_of_halves t (t.first_half j)) (sum_of_halves t (t.entry_first_half l i))) × (result < M) }
{
    let modulus = s.parameters.modulus;
    let ballot = sum(modulus, ballot_halves(s, j));
    let entry = sum(modulus, entry_halves(s, l, i));
    modular::minus(modulus, ballot, entry)
}
