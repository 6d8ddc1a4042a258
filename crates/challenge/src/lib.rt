// The text Q of a throw of dice, and what is drawn from it: the mask of the compared lists, and each ballot's side.
#![tactic(auto)]

ghost use Rattle.std.specs.Prelude.{◌≡◌, ◌++◌, ◌+◌, ◌*◌, ◌%◌, ◌≤◌, ◌<◌, length};
ghost use Rattle.laws.specs.Tests.{below};
ghost use Rattle.laws.specs.Writing.{Went};
ghost use Rattle.protocol.specs.Drawing.{hex_digit, hex_digits, challenge, draw_hash, list_hash, drawn_mask, drawn_side};
ghost use Rattle.challenge.specs.Text.{text_from};

// The character of a hexadecimal digit.
fn hex_digit(v: u8) -> u8
    requires { v < 16 }
    ensures { result ≡ hex_digit v }
{
    if v < 10 { 48 + v } else { 87 + v }
}

// Writes the hexadecimal digits of s from a place on, and answers the next place.
fn put_hex(out: &mut [u8], at: usize, s: &[u8]) -> usize
    requires { at + 2 * length s.now ≤ length out.old }
    ensures { Went out.old at (hex_digits s.now) out.new result }
{
    let mut next = at;
    for b in s {
        out[next] = hex_digit(*b / 16);
        out[next + 1] = hex_digit(*b % 16);
        next += 2;
    }
    next
}

// Q of the dice, from the sponge that has taken every record byte before the dice command.
pub fn text(dice: &[u8], prefix: sha3::Sponge) -> [u8; 86]
    requires { (length dice.now ≡ 30) × (prefix.fill < 144) }
    ensures { result ≡ text_from dice.now prefix }
{
    let mut hash = [0u8; 28];
    sha3::finish(prefix, 144, &mut hash);
    let mut q = [0u8; 86];
    let next = wire::copy(&mut q, 0, dice);
    put_hex(&mut q, next, &hash);
    q
}

// Q of the dice, where the record before the dice command lies in two parts.
pub fn text_of(dice: &[u8], one: &[u8], two: &[u8]) -> [u8; 86]
    requires { length dice.now ≡ 30 }
    ensures { result ≡ challenge dice.now (one.now ++ two.now) }
{
    let s = sha3::absorb(sha3::start(), 144, one);
    let t = sha3::absorb(s, 144, two);
    text(dice, t)
}

// The hash of a number in decimal, Q and a last character.
fn draw_hash(i: u32, q: &[u8], last: u8, out: &mut [u8; 28])
    ensures { out.new ≡ draw_hash i q.now last }
{
    let mut number = [0u8; 10];
    let n = decimals::put_decimal(&mut number, 0, i);
    let end = [last];
    sha3::hash_parts(144, &number[..n], q, &end, out);
}

// Whether list i is chosen, the first of so many lists of which some are left to choose.
fn list_chosen(q: &[u8], i: u32, lists: u32, left: u32) -> bool
    requires { 0 < lists }
    ensures { result ≡ below (list_hash q.now i % lists) left }
{
    let mut hash = [0u8; 28];
    draw_hash(i, q, b'2', &mut hash);
    let h = wire::read8(&hash, 0);
    h % (lists as u64) < left as u64
}

// The mask drawn from the first Q: so many lists are compared, of twice as many.
pub fn drawn_mask(q: &[u8], compared: usize) -> u32
    requires { compared ≤ 12 }
    ensures { (result ≡ drawn_mask compared q.now) × (result < 16777216) }
{
    let mut left = compared as u32;
    let lists = 2 * left;
    let mut mask: u32 = 0;
    for i in 0..lists {
        if list_chosen(q, i, lists - i, left) {
            mask += 1 << i;
            left -= 1;
        }
    }
    mask
}

// The side of a ballot drawn from the second Q.
pub fn drawn_side(q: &[u8], ballot: usize) -> u32
    requires { ballot < 4096 }
    ensures { (result ≡ drawn_side q.now ballot) × (result < 2) }
{
    let mut hash = [0u8; 28];
    draw_hash((ballot + 1) as u32, q, b'1', &mut hash);
    (hash[27] % 2) as u32
}
