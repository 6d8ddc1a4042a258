// How a number is cut: into three shares that sum to it, and each of three numbers into two halves.
#![tactic(auto)]

ghost use Rattle.std.specs.Prelude.{◌≡◌, ℕ, ◌<◌};
ghost use Rattle.protocol.specs.Terms.{item};
ghost use Rattle.protocol.specs.Tablet as tablet;
ghost use Rattle.protocol.specs.Tablet.{slot};

// Of three numbers that sum to `whole`, the first two given: number k. So a vote is shared.
pub fn share(modulus: u32, whole: u32, x: u32, y: u32, k: usize) -> u32
    requires { (whole < modulus) × ((x < modulus) × (y < modulus)) }
    ensures { (result ≡ tablet.share modulus whole x y k) × (result < modulus) }
{
    match k {
        0 => x,
        1 => y,
        _ => modular::less_two(modulus, whole, x, y),
    }
}

// Three numbers, each split by its first half: u1, v1, u2, v2, u3, v3.
pub fn split(modulus: u32, value: [u32; 3], first: [u32; 3]) -> [u32; 6]
    requires { (k : ℕ) → k < 3 → (item value k < modulus) × (item first k < modulus) }
    ensures { (q : ℕ) → q < 6 → (item result q ≡ slot modulus (item value) (item first) q) × (item result q < modulus) }
{
    let x = modular::minus(modulus, value[0], first[0]);
    let y = modular::minus(modulus, value[1], first[1]);
    let z = modular::minus(modulus, value[2], first[2]);
    [first[0], x, first[1], y, first[2], z]
}
