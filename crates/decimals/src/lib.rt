// Numbers written in decimal, and the line of a refusal by its number.
#![tactic(auto)]

ghost use Rattle.std.specs.Prelude.{[], ◌∷◌, ◌++◌, ◌+◌, ◌≤◌, length};
ghost use Rattle.laws.specs.Writing.{Went};
ghost use Rattle.protocol.specs.Terms.{decimal};
ghost use Rattle.protocol.specs.Results.{refused_word};

// Writes x in decimal from a place on, and answers the next place: all digits but the last, then the last.
pub fn put_decimal(out: &mut [u8], at: usize, x: u32) -> usize
    requires { at + length (decimal x) ≤ length out.old }
    ensures { Went out.old at (decimal x) out.new result }
{
    if x < 10 {
        return wire::put1(out, at, 48 + x);
    }
    let next = put_decimal(out, at, x / 10);
    wire::put1(out, next, 48 + x % 10)
}

// Writes the page of what is refused, and answers its length: the word, at most ten digits, and the line's end.
pub fn put_refused(number: u32, out: &mut [u8]) -> usize
    requires { 19 ≤ length out.old }
    ensures { Went out.old 0 (refused_word ++ (decimal number ++ (10 ∷ []))) out.new result }
{
    let at = wire::copy(out, 0, b"REFUSED ");
    let end = put_decimal(out, at, number);
    wire::copy(out, end, b"\n")
}
