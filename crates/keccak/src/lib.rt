// Keccak-f[1600] of FIPS 202, section 3.4.
//
// Between the rounds six lanes are kept complemented, which saves most of the complements that chi asks for. The rounds work on five
// rows of five lanes, and four rounds are written out: the compiler then keeps the lanes in registers and moves few of them.
#![tactic(auto)]

ghost use Rattle.std.specs.Prelude.{◌≡◌, ◌+◌, ◌*◌, ◌<◌, ◌≤◌};
ghost use Rattle.std.specs.Int.Bits.{bit_xor};
ghost use Rattle.keccak.specs.Keccak.{at, rotl, rotation_offsets, keccak_f};
ghost use Rattle.keccak.specs.Rows.{numbers, row_at, flat, sides, summed, gathered, chi0_of, chi1_of, chi2_of, chi3_of, chi4_of, code_round, flipped};

const ROUND_CONSTANTS: [u64; 24] = [
    0x0000000000000001,
    0x0000000000008082,
    0x800000000000808a,
    0x8000000080008000,
    0x000000000000808b,
    0x0000000080000001,
    0x8000000080008081,
    0x8000000000008009,
    0x000000000000008a,
    0x0000000000000088,
    0x0000000080008009,
    0x000000008000000a,
    0x000000008000808b,
    0x800000000000008b,
    0x8000000000008089,
    0x8000000000008003,
    0x8000000000008002,
    0x8000000000000080,
    0x000000000000800a,
    0x800000008000000a,
    0x8000000080008081,
    0x8000000000008080,
    0x0000000080000001,
    0x8000000080008008,
];

const ROTATION_OFFSETS: [u32; 25] = [
    0, 1, 62, 28, 27, 36, 44, 6, 55, 20, 3, 10, 43, 25, 39, 41, 45, 15, 21, 8, 18, 2, 61, 56, 14,
];

// x rotated left by k bits.
fn turn(x: u64, k: u32) -> u64
    requires { k < 64 }
    ensures { result ≡ rotl x k }
{
    (x << k) | (x >> ((64 - k) % 64))
}

// The parity of column x.
fn parity(p: [u64; 5], q: [u64; 5], r: [u64; 5], s: [u64; 5], t: [u64; 5], x: usize) -> u64
    requires { x < 5 }
    ensures { result ≡ bit_xor (bit_xor (bit_xor (bit_xor (at p x) (at q x)) (at r x)) (at s x)) (at t x) }
{
    p[x] ^ q[x] ^ r[x] ^ s[x] ^ t[x]
}

// What theta adds to each column.
fn mix(p: [u64; 5], q: [u64; 5], r: [u64; 5], s: [u64; 5], t: [u64; 5]) -> [u64; 5]
    ensures { result ≡ sides p q r s t }
{
    let c0 = parity(p, q, r, s, t, 0);
    let c1 = parity(p, q, r, s, t, 1);
    let c2 = parity(p, q, r, s, t, 2);
    let c3 = parity(p, q, r, s, t, 3);
    let c4 = parity(p, q, r, s, t, 4);
    [
        c4 ^ turn(c1, 1),
        c0 ^ turn(c2, 1),
        c1 ^ turn(c3, 1),
        c2 ^ turn(c4, 1),
        c3 ^ turn(c0, 1),
    ]
}

// The five lanes that pi brings into one row, after theta: from row y that of column y + j, modulo 5. Theta adds d.
fn gather(
    p: [u64; 5],
    q: [u64; 5],
    r: [u64; 5],
    s: [u64; 5],
    t: [u64; 5],
    d: [u64; 5],
    j: usize,
) -> [u64; 5]
    requires { j < 5 }
    ensures { result ≡ summed p q r s t d j }
{
    [
        p[j % 5] ^ d[j % 5],
        q[(j + 1) % 5] ^ d[(j + 1) % 5],
        r[(j + 2) % 5] ^ d[(j + 2) % 5],
        s[(j + 3) % 5] ^ d[(j + 3) % 5],
        t[(j + 4) % 5] ^ d[(j + 4) % 5],
    ]
}

// The gathered lane from row y and column x, after rho.
fn turned(g: [u64; 5], y: usize, x: usize) -> u64
    requires { (y < 5) × (x < 5) }
    ensures { result ≡ rotl (at g y) (at rotation_offsets (5 * y + x)) }
{
    turn(g[y], ROTATION_OFFSETS[5 * y + x])
}

// The rows of a round: chi on the five lanes that pi brings into the row, with a complement only where the lanes that are kept
// complemented ask for one. Row 0 has iota's constant too.
fn row0(
    p: [u64; 5],
    q: [u64; 5],
    r: [u64; 5],
    s: [u64; 5],
    t: [u64; 5],
    d: [u64; 5],
    c: u64,
) -> [u64; 5]
    ensures { result ≡ gathered p q r s t d 0 (chi0_of numbers c) }
{
    let g = gather(p, q, r, s, t, d, 0);
    let b0 = turned(g, 0, 0);
    let b1 = turned(g, 1, 1);
    let b2 = turned(g, 2, 2);
    let b3 = turned(g, 3, 3);
    let b4 = turned(g, 4, 4);
    [
        b0 ^ (b1 | b2) ^ c,
        b1 ^ (!b2 | b3),
        b2 ^ (b3 & b4),
        b3 ^ (b4 | b0),
        b4 ^ (b0 & b1),
    ]
}

fn row1(p: [u64; 5], q: [u64; 5], r: [u64; 5], s: [u64; 5], t: [u64; 5], d: [u64; 5]) -> [u64; 5]
    ensures { result ≡ gathered p q r s t d 3 (chi1_of numbers) }
{
    let g = gather(p, q, r, s, t, d, 3);
    let b0 = turned(g, 0, 3);
    let b1 = turned(g, 1, 4);
    let b2 = turned(g, 2, 0);
    let b3 = turned(g, 3, 1);
    let b4 = turned(g, 4, 2);
    [
        b0 ^ (b1 | b2),
        b1 ^ (b2 & b3),
        b2 ^ (b3 | !b4),
        b3 ^ (b4 | b0),
        b4 ^ (b0 & b1),
    ]
}

fn row2(p: [u64; 5], q: [u64; 5], r: [u64; 5], s: [u64; 5], t: [u64; 5], d: [u64; 5]) -> [u64; 5]
    ensures { result ≡ gathered p q r s t d 1 (chi2_of numbers) }
{
    let g = gather(p, q, r, s, t, d, 1);
    let b0 = turned(g, 0, 1);
    let b1 = turned(g, 1, 2);
    let b2 = turned(g, 2, 3);
    let b3 = turned(g, 3, 4);
    let b4 = turned(g, 4, 0);
    [
        b0 ^ (b1 | b2),
        b1 ^ (b2 & b3),
        b2 ^ (!b3 & b4),
        !b3 ^ (b4 | b0),
        b4 ^ (b0 & b1),
    ]
}

fn row3(p: [u64; 5], q: [u64; 5], r: [u64; 5], s: [u64; 5], t: [u64; 5], d: [u64; 5]) -> [u64; 5]
    ensures { result ≡ gathered p q r s t d 4 (chi3_of numbers) }
{
    let g = gather(p, q, r, s, t, d, 4);
    let b0 = turned(g, 0, 4);
    let b1 = turned(g, 1, 0);
    let b2 = turned(g, 2, 1);
    let b3 = turned(g, 3, 2);
    let b4 = turned(g, 4, 3);
    [
        b0 ^ (b1 & b2),
        b1 ^ (b2 | b3),
        b2 ^ (!b3 | b4),
        !b3 ^ (b4 & b0),
        b4 ^ (b0 | b1),
    ]
}

fn row4(p: [u64; 5], q: [u64; 5], r: [u64; 5], s: [u64; 5], t: [u64; 5], d: [u64; 5]) -> [u64; 5]
    ensures { result ≡ gathered p q r s t d 2 (chi4_of numbers) }
{
    let g = gather(p, q, r, s, t, d, 2);
    let b0 = turned(g, 0, 2);
    let b1 = turned(g, 1, 3);
    let b2 = turned(g, 2, 4);
    let b3 = turned(g, 3, 0);
    let b4 = turned(g, 4, 1);
    [
        b0 ^ (!b1 & b2),
        !b1 ^ (b2 | b3),
        b2 ^ (b3 & b4),
        b3 ^ (b4 | b0),
        b4 ^ (b0 & b1),
    ]
}

// The row of a state that starts at lane k.
fn cut(a: [u64; 25], k: usize) -> [u64; 5]
    requires { k ≤ 20 }
    ensures { result ≡ row_at a k }
{
    [a[k], a[k + 1], a[k + 2], a[k + 3], a[k + 4]]
}

// The state that five rows make.
fn joined(p: [u64; 5], q: [u64; 5], r: [u64; 5], s: [u64; 5], t: [u64; 5]) -> [u64; 25]
    ensures { result ≡ flat p q r s t }
{
    [
        p[0], p[1], p[2], p[3], p[4], q[0], q[1], q[2], q[3], q[4], r[0], r[1], r[2], r[3], r[4],
        s[0], s[1], s[2], s[3], s[4], t[0], t[1], t[2], t[3], t[4],
    ]
}

// Four rounds, with the constants k0 to k3. The rows stand in an order that compiles well wherever a linker puts the code.
fn rounds(a: [u64; 25], k0: u64, k1: u64, k2: u64, k3: u64) -> [u64; 25]
    ensures { result ≡ code_round k3 (code_round k2 (code_round k1 (code_round k0 a))) }
{
    let p0 = cut(a, 0);
    let q0 = cut(a, 5);
    let r0 = cut(a, 10);
    let s0 = cut(a, 15);
    let t0 = cut(a, 20);
    let d0 = mix(p0, q0, r0, s0, t0);
    let q1 = row1(p0, q0, r0, s0, t0, d0);
    let t1 = row4(p0, q0, r0, s0, t0, d0);
    let s1 = row3(p0, q0, r0, s0, t0, d0);
    let r1 = row2(p0, q0, r0, s0, t0, d0);
    let p1 = row0(p0, q0, r0, s0, t0, d0, k0);
    let d1 = mix(p1, q1, r1, s1, t1);
    let q2 = row1(p1, q1, r1, s1, t1, d1);
    let t2 = row4(p1, q1, r1, s1, t1, d1);
    let s2 = row3(p1, q1, r1, s1, t1, d1);
    let r2 = row2(p1, q1, r1, s1, t1, d1);
    let p2 = row0(p1, q1, r1, s1, t1, d1, k1);
    let d2 = mix(p2, q2, r2, s2, t2);
    let q3 = row1(p2, q2, r2, s2, t2, d2);
    let t3 = row4(p2, q2, r2, s2, t2, d2);
    let s3 = row3(p2, q2, r2, s2, t2, d2);
    let r3 = row2(p2, q2, r2, s2, t2, d2);
    let p3 = row0(p2, q2, r2, s2, t2, d2, k2);
    let d3 = mix(p3, q3, r3, s3, t3);
    let q4 = row1(p3, q3, r3, s3, t3, d3);
    let t4 = row4(p3, q3, r3, s3, t3, d3);
    let s4 = row3(p3, q3, r3, s3, t3, d3);
    let r4 = row2(p3, q3, r3, s3, t3, d3);
    let p4 = row0(p3, q3, r3, s3, t3, d3, k3);
    joined(p4, q4, r4, s4, t4)
}

// The state with the six lanes complemented.
fn flip(a: [u64; 25]) -> [u64; 25]
    ensures { result ≡ flipped a }
{
    [
        a[0], !a[1], !a[2], a[3], a[4], a[5], a[6], a[7], !a[8], a[9], a[10], a[11], !a[12], a[13],
        a[14], a[15], a[16], !a[17], a[18], a[19], !a[20], a[21], a[22], a[23], a[24],
    ]
}

// Keccak-f[1600]. The table is named before the loop: a constant is built where it is named, in each turn if that is in the loop.
fn permute(a: [u64; 25]) -> [u64; 25]
    ensures { result ≡ keccak_f a }
{
    let constants = ROUND_CONSTANTS;
    let mut b = flip(a);
    for i in 0..6 {
        let t = rounds(
            b,
            constants[i * 4],
            constants[i * 4 + 1],
            constants[i * 4 + 2],
            constants[i * 4 + 3],
        );
        b = t;
    }
    flip(b)
}

// Keccak-f[1600], in place: callers then copy no state.
pub fn permute_in_place(a: &mut [u64; 25])
    ensures { a.new ≡ keccak_f a.old }
{
    let b = permute(*a);
    *a = b;
}

// Three rounds, with the constants k0 to k2.
fn first_rounds(a: [u64; 25], k0: u64, k1: u64, k2: u64) -> [u64; 25]
    ensures { result ≡ code_round k2 (code_round k1 (code_round k0 a)) }
{
    let v0 = cut(a, 0);
    let w0 = cut(a, 5);
    let x0 = cut(a, 10);
    let y0 = cut(a, 15);
    let z0 = cut(a, 20);
    let d0 = mix(v0, w0, x0, y0, z0);
    let w1 = row1(v0, w0, x0, y0, z0, d0);
    let z1 = row4(v0, w0, x0, y0, z0, d0);
    let y1 = row3(v0, w0, x0, y0, z0, d0);
    let x1 = row2(v0, w0, x0, y0, z0, d0);
    let v1 = row0(v0, w0, x0, y0, z0, d0, k0);
    let d1 = mix(v1, w1, x1, y1, z1);
    let w2 = row1(v1, w1, x1, y1, z1, d1);
    let z2 = row4(v1, w1, x1, y1, z1, d1);
    let y2 = row3(v1, w1, x1, y1, z1, d1);
    let x2 = row2(v1, w1, x1, y1, z1, d1);
    let v2 = row0(v1, w1, x1, y1, z1, d1, k1);
    let d2 = mix(v2, w2, x2, y2, z2);
    let w3 = row1(v2, w2, x2, y2, z2, d2);
    let z3 = row4(v2, w2, x2, y2, z2, d2);
    let y3 = row3(v2, w2, x2, y2, z2, d2);
    let x3 = row2(v2, w2, x2, y2, z2, d2);
    let v3 = row0(v2, w2, x2, y2, z2, d2, k2);
    joined(v3, w3, x3, y3, z3)
}

// Four rounds, as `rounds` has them: a function that is called in one place becomes part of its caller, and one that is called in two would
// not.
fn inner_rounds(a: [u64; 25], k0: u64, k1: u64, k2: u64, k3: u64) -> [u64; 25]
    ensures { result ≡ code_round k3 (code_round k2 (code_round k1 (code_round k0 a))) }
{
    let f0 = cut(a, 0);
    let g0 = cut(a, 5);
    let h0 = cut(a, 10);
    let i0 = cut(a, 15);
    let j0 = cut(a, 20);
    let d0 = mix(f0, g0, h0, i0, j0);
    let g1 = row1(f0, g0, h0, i0, j0, d0);
    let j1 = row4(f0, g0, h0, i0, j0, d0);
    let i1 = row3(f0, g0, h0, i0, j0, d0);
    let h1 = row2(f0, g0, h0, i0, j0, d0);
    let f1 = row0(f0, g0, h0, i0, j0, d0, k0);
    let d1 = mix(f1, g1, h1, i1, j1);
    let g2 = row1(f1, g1, h1, i1, j1, d1);
    let j2 = row4(f1, g1, h1, i1, j1, d1);
    let i2 = row3(f1, g1, h1, i1, j1, d1);
    let h2 = row2(f1, g1, h1, i1, j1, d1);
    let f2 = row0(f1, g1, h1, i1, j1, d1, k1);
    let d2 = mix(f2, g2, h2, i2, j2);
    let g3 = row1(f2, g2, h2, i2, j2, d2);
    let j3 = row4(f2, g2, h2, i2, j2, d2);
    let i3 = row3(f2, g2, h2, i2, j2, d2);
    let h3 = row2(f2, g2, h2, i2, j2, d2);
    let f3 = row0(f2, g2, h2, i2, j2, d2, k2);
    let d3 = mix(f3, g3, h3, i3, j3);
    let g4 = row1(f3, g3, h3, i3, j3, d3);
    let j4 = row4(f3, g3, h3, i3, j3, d3);
    let i4 = row3(f3, g3, h3, i3, j3, d3);
    let h4 = row2(f3, g3, h3, i3, j3, d3);
    let f4 = row0(f3, g3, h3, i3, j3, d3, k3);
    joined(f4, g4, h4, i4, j4)
}

// Row 0 of one round, with the constant c.
fn last_row(a: [u64; 25], c: u64) -> [u64; 5]
    ensures { result ≡ row_at (code_round c a) 0 }
{
    let p = cut(a, 0);
    let q = cut(a, 5);
    let r = cut(a, 10);
    let s = cut(a, 15);
    let t = cut(a, 20);
    let d = mix(p, q, r, s, t);
    row0(p, q, r, s, t, d, c)
}

// Row 0 of Keccak-f[1600], where a digest of at most five lanes stands. The first three rounds and the last one are outside the loop: where
// the caller makes the state of few lanes, the compiler leaves out the sums with those that are 0, and of the last round one row is made.
pub fn first_row(a: [u64; 25]) -> [u64; 5]
    ensures { result ≡ row_at (keccak_f a) 0 }
{
    let constants = ROUND_CONSTANTS;
    let mut b = first_rounds(flip(a), constants[0], constants[1], constants[2]);
    for i in 0..5 {
        let t = inner_rounds(
            b,
            constants[i * 4 + 3],
            constants[i * 4 + 4],
            constants[i * 4 + 5],
            constants[i * 4 + 6],
        );
        b = t;
    }
    let e = last_row(b, constants[23]);
    [e[0], !e[1], !e[2], e[3], e[4]]
}
