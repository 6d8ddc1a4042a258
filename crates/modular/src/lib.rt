// Sums and differences modulo m of numbers below m, by comparing and subtracting: no division, and nothing wraps. m is the modulus here,
// which the record calls M.
#![tactic(auto)]

ghost use Rattle.std.specs.Prelude.{◌≡◌, ◌<◌};
ghost use Rattle.laws.specs.Modular as modulo;

// a + b modulo m.
pub fn plus(m: u32, a: u32, b: u32) -> u32
    requires { (a < m) × (b < m) }
    ensures { (result ≡ modulo.plus m a b) × (result < m) }
{
    let room = m - b;
    if room <= a { a - room } else { a + b }
}

// a - b modulo m.
pub fn minus(m: u32, a: u32, b: u32) -> u32
    requires { (a < m) × (b < m) }
    ensures { (result ≡ modulo.minus m a b) × (result < m) }
{
    if b <= a { a - b } else { a + (m - b) }
}

// a + b + c modulo m.
pub fn sum_of_three(m: u32, a: u32, b: u32, c: u32) -> u32
    requires { (a < m) × ((b < m) × (c < m)) }
    ensures { (result ≡ modulo.plus m (modulo.plus m a b) c) × (result < m) }
{
    plus(m, plus(m, a, b), c)
}

// a - b - c modulo m.
pub fn less_two(m: u32, a: u32, b: u32, c: u32) -> u32
    requires { (a < m) × ((b < m) × (c < m)) }
    ensures { (result ≡ modulo.minus m (modulo.minus m a b) c) × (result < m) }
{
    minus(m, minus(m, a, b), c)
}
