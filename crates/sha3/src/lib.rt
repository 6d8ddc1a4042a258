// SHA3-224 and SHA3-256 of FIPS 202, section 6.1, and the sponge that they share, over the rate in bytes.
#![tactic(auto)]

ghost use Rattle.std.specs.Prelude.{◌≡◌, ◌++◌, ◌+◌, ◌/◌, ◌≤◌, ◌<◌, length, take};
ghost use Rattle.laws.specs.Chunks.{piece};
ghost use Rattle.laws.specs.Tests.{same};
ghost use Rattle.laws.specs.Writing.{Wrote};
ghost use Rattle.sha3.specs.Sha3.{Rate, sponge, xor_byte, absorb_bytes, empty, padded, squeeze, digest, sha3_224, sha3_256};
ghost use Rattle.sha3.specs.Word.{word_at, half_word_at, add_words, put_lane, keyed_row};

// A sponge: the state, and how many bytes of the block at hand were added to it.
#[derive(Clone, Copy)]
pub struct Sponge {
    pub lanes: [u64; 25],
    pub fill: usize,
}

// The eight bytes from `at` on, as a number, the lowest first.
pub fn word(p: &[u8], at: usize) -> u64
    requires { at + 8 ≤ length p.now }
    ensures { result ≡ word_at p.now at }
{
    let b0 = p[at] as u64;
    let b1 = p[at + 1] as u64;
    let b2 = p[at + 2] as u64;
    let b3 = p[at + 3] as u64;
    let b4 = p[at + 4] as u64;
    let b5 = p[at + 5] as u64;
    let b6 = p[at + 6] as u64;
    let b7 = p[at + 7] as u64;
    b0 ^ (b1 << 8) ^ (b2 << 16) ^ (b3 << 24) ^ (b4 << 32) ^ (b5 << 40) ^ (b6 << 48) ^ (b7 << 56)
}

// The four bytes from `at` on, as a number, the lowest first.
fn half_word(p: &[u8], at: usize) -> u64
    requires { at + 4 ≤ length p.now }
    ensures { result ≡ half_word_at p.now at }
{
    let c0 = p[at] as u64;
    let c1 = p[at + 1] as u64;
    let c2 = p[at + 2] as u64;
    let c3 = p[at + 3] as u64;
    c0 ^ (c1 << 8) ^ (c2 << 16) ^ (c3 << 24)
}

// b is added to byte n of the state.
fn xor_byte(l: &mut [u64; 25], n: usize, b: u8)
    requires { n < 200 }
    ensures { l.new ≡ xor_byte l.old n b }
{
    let k = n / 8;
    l[k] = l[k] ^ ((b as u64) << (n % 8 * 8));
}

// A whole block of the message, from `at` on, is added to the state, lane by lane.
fn add_block(l: &mut [u64; 25], rate: usize, p: &[u8], at: usize)
    requires { Rate rate × (at + rate ≤ length p.now) }
    ensures { l.new ≡ add_words l.old p.now at (rate / 8) }
{
    for k in 0..rate / 8 {
        let w = word(p, at + 8 * k);
        l[k] = l[k] ^ w;
    }
}

// More of the message, into lanes that have `filled` bytes of the block at hand; answers how many they have then. A block that is due is
// taken at once, and so are a lane and the lower half of one.
fn absorb_into(l: &mut [u64; 25], filled: usize, rate: usize, p: &[u8]) -> usize
    requires { Rate rate × (filled < rate) }
    ensures { (sponge l.new result ≡ absorb_bytes rate (sponge l.old filled) p.now) × (result < rate) }
{
    let mut fill = filled;
    let mut i: usize = 0;
    // a `while`: i moves on by a block, a lane, half a lane or a byte
    while i < p.len() {
        if fill == 0 && rate <= p.len() - i {
            add_block(l, rate, p, i);
            i += rate;
            fill = rate;
        } else if fill % 8 == 0 && 8 <= p.len() - i {
            let w = word(p, i);
            let k = fill / 8;
            l[k] = l[k] ^ w;
            i += 8;
            fill += 8;
        } else if fill % 8 == 0 && 4 <= p.len() - i {
            let w = half_word(p, i);
            let k = fill / 8;
            l[k] = l[k] ^ w;
            i += 4;
            fill += 4;
        } else {
            xor_byte(l, fill, p[i]);
            i += 1;
            fill += 1;
        }
        if fill == rate {
            keccak::permute_in_place(l);
            fill = 0;
        }
    }
    fill
}

// More of the message.
pub fn absorb(s: Sponge, rate: usize, p: &[u8]) -> Sponge
    requires { Rate rate × (s.fill < rate) }
    ensures { (result ≡ absorb_bytes rate s p.now) × (result.fill < rate) }
{
    let mut l = s.lanes;
    let fill = absorb_into(&mut l, s.fill, rate, p);
    Sponge { lanes: l, fill }
}

// The eight bytes of a lane, the lowest first, go to `out` from `at` on.
fn put_lane(out: &mut [u8], at: usize, lane: u64)
    requires { at + 8 ≤ length out.old }
    ensures { out.new ≡ put_lane out.old at lane 8 }
{
    for j in 0..8 {
        out[at + j] = ((lane >> (j * 8)) & 255) as u8;
    }
}

// The bytes of the state from `from` on go to `out`, which has those before them.
fn put_rest(v: &[u64; 25], from: usize, out: &mut [u8])
    requires { (length out.old ≤ 200) × ((from ≤ length out.old) × (take from out.old ≡ squeeze v.now from)) }
    ensures { out.new ≡ squeeze v.now (length out.old) }
{
    for i in from..out.len() {
        out[i] = ((v[i / 8] >> (i % 8 * 8)) & 255) as u8;
    }
}

// The first bytes of the state, as many as `out` has: whole lanes, and then the bytes of a last one that is cut.
fn squeeze_into(v: &[u64; 25], out: &mut [u8])
    requires { length out.old ≤ 200 }
    ensures { out.new ≡ squeeze v.now (length out.old) }
{
    let whole = out.len() / 8;
    for k in 0..whole {
        put_lane(out, 8 * k, v[k]);
    }
    put_rest(v, 8 * whole, out);
}

// The digest of SHA3-256 that the first lanes of a state have goes to `out` from `at` on.
pub fn put_digest(out: &mut [u8], at: usize, row: [u64; 5])
    requires { at + 32 ≤ length out.old }
    ensures { Wrote out.old at (squeeze row 32) out.new }
{
    put_lane(out, at, row[0]);
    put_lane(out, at + 8, row[1]);
    put_lane(out, at + 16, row[2]);
    put_lane(out, at + 24, row[3]);
}

// Copies 32 bytes, a key, to `out` from `at` on: by lanes, all read before the first is written, so that the compiler moves many bytes at
// once.
pub fn copy_key(out: &mut [u8], at: usize, key: &[u8])
    requires { (length key.now ≡ 32) × (at + 32 ≤ length out.old) }
    ensures { Wrote out.old at key.now out.new }
{
    let w0 = word(key, 0);
    let w1 = word(key, 8);
    let w2 = word(key, 16);
    let w3 = word(key, 24);
    put_digest(out, at, [w0, w1, w2, w3, 0]);
}

// Whether the digest of SHA3-256 that the first lanes of a state have stands in s from `at` on; lanes are compared, no digest is written.
pub fn has_digest(s: &[u8], at: usize, row: [u64; 5]) -> bool
    requires { at + 32 ≤ length s.now }
    ensures { result ≡ same (squeeze row 32) (piece s.now at 32) }
{
    let a = word(s, at) == row[0];
    let b = word(s, at + 8) == row[1];
    let c = word(s, at + 16) == row[2];
    let d = word(s, at + 24) == row[3];
    a & b & c & d
}

// The end of the message, in lanes that have `fill` bytes of the last block: suffix, pad and digest, which is as long as `out`.
fn finish_into(l: &mut [u64; 25], fill: usize, rate: usize, out: &mut [u8])
    requires { Rate rate × ((fill < rate) × (length out.old ≤ rate)) }
    ensures { let last = padded rate (sponge l.old fill) in
        (l.new ≡ last) × (out.new ≡ squeeze last (length out.old)) }
{
    xor_byte(l, fill, 6);
    xor_byte(l, rate - 1, 128);
    keccak::permute_in_place(l);
    squeeze_into(l, out);
}

// The end of the message: suffix, pad and digest, which is as long as `out`.
pub fn finish(s: Sponge, rate: usize, out: &mut [u8])
    requires { Rate rate × ((s.fill < rate) × (length out.old ≤ rate)) }
    ensures { out.new ≡ squeeze (padded rate s) (length out.old) }
{
    let mut l = s.lanes;
    finish_into(&mut l, s.fill, rate, out);
}

// The sponge before a message.
pub fn start() -> Sponge
    ensures { result ≡ empty }
{
    Sponge {
        lanes: [0; 25],
        fill: 0,
    }
}

// The digest of m, as long as `out`.
fn hash(rate: usize, m: &[u8], out: &mut [u8])
    requires { Rate rate × (length out.old ≤ rate) }
    ensures { out.new ≡ digest rate (length out.old) m.now }
{
    let s = start();
    let mut l = s.lanes;
    let n = absorb_into(&mut l, s.fill, rate, m);
    finish_into(&mut l, n, rate, out);
}

// The first lanes of the state, which have the digest, after the one block of SHA3-256 that a key of 32 bytes and two lanes behind it make:
// those have the end of the message, with the suffix and the first bit of the pad. A commitment is such a hash. All other lanes but one
// are 0, of which the compiler makes use.
pub fn keyed_row(key: &[u8], low: u64, high: u64) -> [u64; 5]
    requires { length key.now ≡ 32 }
    ensures { result ≡ keyed_row key.now low high }
{
    let k0 = word(key, 0);
    let k1 = word(key, 8);
    let k2 = word(key, 16);
    let k3 = word(key, 24);
    let state = [
        k0,
        k1,
        k2,
        k3,
        low,
        high,
        0,
        0,
        0,
        0,
        0,
        0,
        0,
        0,
        0,
        0,
        0x8000000000000000,
        0,
        0,
        0,
        0,
        0,
        0,
        0,
        0,
    ];
    keccak::first_row(state)
}

// The digest, as long as `out`, of a message in three parts.
pub fn hash_parts(rate: usize, a: &[u8], b: &[u8], c: &[u8], out: &mut [u8])
    requires { Rate rate × (length out.old ≤ rate) }
    ensures { out.new ≡ digest rate (length out.old) (a.now ++ (b.now ++ c.now)) }
{
    let s = start();
    let mut l = s.lanes;
    let i = absorb_into(&mut l, s.fill, rate, a);
    let j = absorb_into(&mut l, i, rate, b);
    let k = absorb_into(&mut l, j, rate, c);
    finish_into(&mut l, k, rate, out);
}

// SHA3-224 of m.
pub fn sha3_224(m: &[u8], out: &mut [u8; 28])
    ensures { out.new ≡ sha3_224 m.now }
{
    hash(144, m, out);
}

// SHA3-256 of m.
pub fn sha3_256(m: &[u8], out: &mut [u8; 32])
    ensures { out.new ≡ sha3_256 m.now }
{
    hash(136, m, out);
}
