// Writes the SHA3-224 and SHA3-256 digests of the messages of NIST's examples for FIPS 202 and of messages whose lengths lie
// around the two rates, a line for each. The file `stdout` has the digests that are due.
#![tactic(auto)]

ghost use Rattle.std.specs.Prelude.{◌<◌, ◌≤◌, length};
ghost use Rattle.sha3.specs.Sha3.{Rate};

use sha3::Sponge;
use std::io;
use std::io::Write;

fn wide(x: u8) -> u64 {
    x as u64
}

// A digest in hexadecimal, and the end of its line.
fn write_digest<W: Write>(out: &mut W, d: &[u8]) -> io::Result<()> {
    for x in d {
        write!(out, "{:02x}", wide(*x))?;
    }
    out.write_all(b"\n")
}

// A line: the function, the message's name and the digest.
fn write_line<W: Write>(out: &mut W, function: &[u8], name: &[u8], d: &[u8]) -> io::Result<()> {
    out.write_all(function)?;
    out.write_all(b" ")?;
    out.write_all(name)?;
    out.write_all(b" ")?;
    write_digest(out, d)
}

// Both digests of m.
fn write_both<W: Write>(out: &mut W, name: &[u8], m: &[u8]) -> io::Result<()> {
    let mut d224 = [0u8; 28];
    let mut d256 = [0u8; 32];
    sha3::sha3_224(m, &mut d224);
    sha3::sha3_256(m, &mut d256);
    write_line(out, b"SHA3-224", name, &d224)?;
    write_line(out, b"SHA3-256", name, &d256)
}

// The messages of the examples that are short texts.
fn texts<W: Write>(out: &mut W) -> io::Result<()> {
    write_both(out, b"empty", b"")?;
    write_both(out, b"abc", b"abc")?;
    write_both(
        out,
        b"448-bits",
        b"abcdbcdecdefdefgefghfghighijhijkijkljklmklmnlmnomnopnopq",
    )?;
    write_both(
        out,
        b"896-bits",
        b"abcdefghbcdefghicdefghijdefghijkefghijklfghijklmghijklmnhijklmnoijklmnopjklmnopqklmnopqrlmnopqrsmnopqrstnopqrstu",
    )
}

// 1600 bits of A3.
fn many_a3<W: Write>(out: &mut W) -> io::Result<()> {
    let m = [0xa3u8; 200];
    write_both(out, b"a3-200-times", &m)
}

// Byte i is i modulo 256.
fn count_up(m: &mut [u8]) {
    for (i, x) in m.iter_mut().enumerate() {
        *x = (i % 256) as u8;
    }
}

// Both digests of the first n bytes of m.
fn write_first<W: Write>(out: &mut W, name: &[u8], m: &[u8], n: usize) -> io::Result<()>
    requires { n ≤ length m.now }
{
    write_both(out, name, &m[..n])
}

// Lengths around the rates 136 and 144.
fn lengths<W: Write>(out: &mut W, m: &[u8]) -> io::Result<()>
    requires { 288 ≤ length m.now }
{
    write_first(out, b"135-bytes", m, 135)?;
    write_first(out, b"136-bytes", m, 136)?;
    write_first(out, b"137-bytes", m, 137)?;
    write_first(out, b"143-bytes", m, 143)?;
    write_first(out, b"144-bytes", m, 144)?;
    write_first(out, b"145-bytes", m, 145)?;
    write_first(out, b"272-bytes", m, 272)?;
    write_first(out, b"288-bytes", m, 288)
}

fn around_rates<W: Write>(out: &mut W) -> io::Result<()> {
    let mut m = [0u8; 288];
    count_up(&mut m);
    lengths(out, &m)
}

// Feeds `total` bytes of a, in pieces of 1 to a.len() bytes whose lengths change from turn to turn.
fn feed(s: Sponge, rate: usize, a: &[u8], total: usize) -> Sponge
    requires { Rate rate × ((s.fill < rate) × (0 < length a.now)) }
    ensures { result.fill < rate }
{
    let mut t = s;
    let mut left = total;
    let mut most: usize = 1;
    // a `while`: each piece has its own length
    while left != 0 {
        let n = (left - 1) % most + 1;
        t = sha3::absorb(t, rate, &a[..n]);
        left -= n;
        most = most % a.len() + 1;
    }
    t
}

// The digest, as long as `out`, of a million times "a".
fn million(rate: usize, out: &mut [u8])
    requires { Rate rate × (length out.old < rate) }
{
    let a = [b'a'; 200];
    let s = feed(sha3::start(), rate, &a, 1000000);
    sha3::finish(s, rate, out);
}

fn million_both<W: Write>(out: &mut W) -> io::Result<()> {
    let mut d224 = [0u8; 28];
    let mut d256 = [0u8; 32];
    million(144, &mut d224);
    million(136, &mut d256);
    write_line(out, b"SHA3-224", b"a-million-times", &d224)?;
    write_line(out, b"SHA3-256", b"a-million-times", &d256)
}

fn main(rt: HostRuntime) -> io::Result<()> {
    let mut out = rt.stdout();
    texts(&mut out)?;
    many_a3(&mut out)?;
    million_both(&mut out)?;
    around_rates(&mut out)
}
