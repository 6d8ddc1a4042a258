// Leaf functions on bytes: numbers read and written with the most significant byte first, slices copied and compared.
// Each width is made of two of half the width, so that one law serves all of them.
#![tactic(auto)]

ghost use Rattle.std.specs.Prelude.{◌≡◌, ℕ, ◌+◌, ◌*◌, ◌≤◌, ◌<◌, length};
ghost use Rattle.laws.specs.Bytes.{number, bytes};
ghost use Rattle.laws.specs.Tables.{tabulate};
ghost use Rattle.laws.specs.Tests.{same};
ghost use Rattle.laws.specs.Writing.{Went};
ghost use Rattle.std.specs.Ordering.{nat_cmp};

use std::cmp::Ordering;

// The byte at a place.
pub fn read1(s: &[u8], at: usize) -> u32
    requires { at + 1 ≤ length s.now }
    ensures { (result ≡ number s.now at 1) × (result < 256) }
{
    s[at] as u32
}

// The number of two bytes from a place on.
pub fn read2(s: &[u8], at: usize) -> u32
    requires { at + 2 ≤ length s.now }
    ensures { (result ≡ number s.now at 2) × (result < 65536) }
{
    read1(s, at) * 256 + read1(s, at + 1)
}

// The number of four bytes from a place on.
pub fn read4(s: &[u8], at: usize) -> u32
    requires { at + 4 ≤ length s.now }
    ensures { (result ≡ number s.now at 4) × (result < 4294967296) }
{
    read2(s, at) * 65536 + read2(s, at + 2)
}

// A byte as a wider number.
fn wide(x: u8) -> u64
    ensures { (result ≡ x) × (result < 256) }
{
    x as u64
}

// The number of four bytes from a place on, for one of eight.
fn half(s: &[u8], at: usize) -> u64
    requires { at + 4 ≤ length s.now }
    ensures { (result ≡ number s.now at 4) × (result < 4294967296) }
{
    wide(s[at]) * 16777216 + wide(s[at + 1]) * 65536 + wide(s[at + 2]) * 256 + wide(s[at + 3])
}

// The number of eight bytes from a place on. All of it is as wide as the answer, and no sum has more than four parts: so the compiler
// makes one load of it.
pub fn read8(s: &[u8], at: usize) -> u64
    requires { at + 8 ≤ length s.now }
    ensures { (result ≡ number s.now at 8) × (result < 18446744073709551616) }
{
    half(s, at) * 4294967296 + half(s, at + 4)
}

// Compares the 32 bytes from place i of a on, as one number, with those from place j of b on: eight at once, the most significant first,
// up to the first that differ.
pub fn compare32(a: &[u8], i: usize, b: &[u8], j: usize) -> Ordering
    requires { (i + 32 ≤ length a.now) × (j + 32 ≤ length b.now) }
    ensures { result ≡ nat_cmp (number a.now i 32) (number b.now j 32) }
{
    for k in 0..4 {
        let p = read8(a, i + 8 * k);
        let q = read8(b, j + 8 * k);
        if p != q {
            return p.cmp(&q);
        }
    }
    Ordering::Equal
}

// Fills out with numbers of four bytes that stand `step` bytes apart from a place on.
pub fn fill_numbers(s: &[u8], at: usize, step: usize, out: &mut [u32])
    requires { (i : ℕ) → i < length out.old → at + step * i + 4 ≤ length s.now }
    ensures { out.new ≡ tabulate (λ i. number s.now (at + step * i) 4) (length out.old) }
{
    for (i, x) in out.iter_mut().enumerate() {
        *x = read4(s, at + step * i);
    }
}

// Writes the lowest byte of x at a place, and answers the next place.
pub fn put1(out: &mut [u8], at: usize, x: u32) -> usize
    requires { at + 1 ≤ length out.old }
    ensures { Went out.old at (bytes 1 x) out.new result }
{
    out[at] = (x % 256) as u8;
    at + 1
}

// Writes the lowest two bytes of x from a place on, and answers the next place.
pub fn put2(out: &mut [u8], at: usize, x: u32) -> usize
    requires { at + 2 ≤ length out.old }
    ensures { Went out.old at (bytes 2 x) out.new result }
{
    let next = put1(out, at, x / 256);
    put1(out, next, x)
}

// Writes the four bytes of x from a place on, and answers the next place.
pub fn put4(out: &mut [u8], at: usize, x: u32) -> usize
    requires { at + 4 ≤ length out.old }
    ensures { Went out.old at (bytes 4 x) out.new result }
{
    let next = put2(out, at, x / 65536);
    put2(out, next, x)
}

// Copies src into out from a place on, and answers the next place. (std's `copy_from_slice` would make the archive need `memmove`.)
pub fn copy(out: &mut [u8], at: usize, src: &[u8]) -> usize
    requires { at + length src.now ≤ length out.old }
    ensures { Went out.old at src.now out.new result }
{
    for i in 0..src.len() {
        out[at + i] = src[i];
    }
    at + src.len()
}

// Whether a and b are the same bytes. It does not stop at the first difference: so the compiler compares many bytes at once.
pub fn same_bytes(a: &[u8], b: &[u8]) -> bool
    ensures { result ≡ same a.now b.now }
{
    if a.len() != b.len() {
        return false;
    }
    let mut equal = true;
    for i in 0..a.len() {
        equal &= a[i] == b[i];
    }
    equal
}
