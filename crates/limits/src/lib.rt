// Tests of numbers and of slices of them, for judge and writers alike.
#![tactic(auto)]

ghost use Rattle.std.specs.Prelude.{◌≡◌, ◌+◌, ◌≤◌, length};
ghost use Rattle.std.specs.List.{list_all};
ghost use Rattle.laws.specs.Chunks.{piece};
ghost use Rattle.protocol.specs.Terms.{item, most_ballots, all_below, modulus_in_limits, ballots_in_limits, in_limits};
ghost use Rattle.protocol.specs.Columns.{is_permutation};
ghost use Rattle.protocol.specs.Rules.{fair_die, fair_dice, right_shape};

use protocol::Parameters;

// Whether a modulus is in its limits.
pub fn modulus_in_limits(modulus: u32) -> bool
    ensures { result ≡ modulus_in_limits modulus }
{
    2 <= modulus
}

// Whether a number of ballots is in its limits.
pub fn ballots_in_limits(ballots: usize) -> bool
    ensures { result ≡ ballots_in_limits ballots }
{
    1 <= ballots && ballots <= protocol::MOST_BALLOTS
}

// Whether M, n and m are in their limits.
pub fn in_limits(p: Parameters) -> bool
    ensures { result ≡ in_limits p }
{
    modulus_in_limits(p.modulus)
        && ballots_in_limits(p.ballots)
        && 1 <= p.compared
        && p.compared <= 12
}

// Whether every number of a slice is below a limit. It does not stop at the first that is not: so the compiler compares many at once.
pub fn all_below(limit: u32, numbers: &[u32]) -> bool
    ensures { result ≡ all_below limit numbers.now }
{
    let mut all = true;
    for x in numbers {
        all &= *x < limit;
    }
    all
}

// Whether n numbers are the places below n, each once. One mark is set for each.
pub fn is_permutation(n: usize, permutation: &[u16]) -> bool
    requires { (length permutation.now ≡ n) × (n ≤ most_ballots) }
    ensures { result ≡ is_permutation n (item permutation.now) }
{
    let mut marks = [false; 4096];
    for number in permutation {
        let place = *number as usize;
        if n <= place || marks[place] {
            return false;
        }
        marks[place] = true;
    }
    true
}

// Whether a character is '1' to '6'.
fn fair_die(c: u8) -> bool
    ensures { result ≡ fair_die c }
{
    (b'1'..=b'6').contains(&c)
}

// Whether all characters are.
fn all_fair(dice: &[u8]) -> bool
    ensures { result ≡ list_all fair_die dice.now }
{
    dice.iter().all(|c| fair_die(*c))
}

// Whether 30 characters are.
pub fn fair_dice(bytes: &[u8], at: usize) -> bool
    requires { at + 30 ≤ length bytes.now }
    ensures { result ≡ fair_dice (piece bytes.now at 30) }
{
    all_fair(&bytes[at..at + 30])
}

// Whether a mask has as many ones as lists are compared, and no bit beyond the lists.
pub fn right_shape(compared: usize, mask: u32) -> bool
    requires { compared ≤ 12 }
    ensures { result ≡ right_shape compared mask }
{
    mask.count_ones() as usize == compared && 32 - (mask.leading_zeros() as usize) <= 2 * compared
}
