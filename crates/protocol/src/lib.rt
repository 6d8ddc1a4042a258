// The types that code and definitions share. The definitions of document 01 are in specs/, what they mean together in proofs/.
#![tactic(auto)]

ghost use Rattle.std.specs.Prelude.{◌≡◌, ◌≤◌};
ghost use Rattle.protocol.specs.Answers.{rule_number};

use std::marker::Model;

// The limit on the number of ballots, and the length of a row of marks.
pub const MOST_BALLOTS: usize = 4096;

// How the servers' inputs are cut: the numbers of a ballot, the numbers and the permutations' numbers of a list entry, and the bytes of
// keys of either.
pub const BALLOT_NUMBERS: usize = 5;

pub const ENTRY_NUMBERS: usize = 9;

pub const ENTRY_PERMUTATIONS: usize = 3;

pub const KEYS_WIDTH: usize = 192;

// The form of the first command: 01, or 0C with the election's number.
#[derive(Clone, Copy)]
pub enum Form {
    Unnumbered,
    Numbered(u32),
}

// What the first command says: its form, the modulus M, the number of ballots n, and m: of 2m lists m are compared and m are opened.
#[derive(Clone, Copy)]
pub struct Parameters {
    pub form: Form,
    pub modulus: u32,
    pub ballots: usize,
    pub compared: usize,
}

// The command that is due, with the indices that belong to it: a ballot or an announced vote by its number, a list entry by
// list and position, a link or the half of a linked entry by list and ballot.
#[derive(Clone, Copy)]
pub enum Due {
    First,
    Ballot(usize),
    Entry(usize, usize),
    FirstDice,
    Link(usize, usize),
    SecondDice,
    BallotHalf(usize),
    ListHalf(usize, usize),
    Vote(usize),
    FullOpening(usize, usize),
    End,
}

// Where a commitment is posted: one of the six slots u1, v1, u2, v2, u3, v3 of a ballot, by its id, or of a list entry, by list and
// position.
#[derive(Clone, Copy)]
pub enum Place {
    InBallot(u32, usize),
    InEntry(usize, usize, usize),
}

// The rules, by the order of their numbers, 1 to 22.
#[derive(Clone, Copy)]
pub enum Rule {
    CutShort = 1,
    Command,
    Limits,
    Operand,
    Id,
    Dice,
    MaskShape,
    MaskDrawn,
    Link,
    Number,
    Side,
    SideDrawn,
    Opening,
    Halves,
    VoteOrder,
    OpenedList,
    BytesAfter,
    Length,
    Permutation,
    Candidates,
    CopiedBallot,
    Day,
}

impl Rule {
    // Its number.
    pub fn number(self) -> u32
        ensures { (result ≡ rule_number self) × ((1 ≤ result) × (result ≤ 22)) }
    {
        self as u32
    }
}

// The first broken rule of a record, and the place where its command starts.
#[derive(Clone, Copy)]
pub struct Fault {
    pub rule: Rule,
    pub at: usize,
}

// The answer of the receipt check, where nothing is refused.
#[derive(Clone, Copy)]
pub enum Receipt {
    AsPrinted,
    Otherwise,
    NotPosted,
}

// What the servers are given, as it is lent.
#[derive(Drop)]
pub struct Inputs<'a> {
    pub parameters: Parameters,
    pub ids: &'a [u32],
    pub votes: &'a [u32],
    pub numbers: &'a [u32],
    pub permutations: &'a [u16],
    pub keys: &'a [u8],
}

impl<'a> Model for Inputs<'a> {
    ghost use Rattle.protocol.specs.Inputs.{Slices, given};

    ghost Value = { Slices };

    ghost view = { λ s. given s.parameters s.ids.now s.votes.now s.numbers.now s.permutations.now s.keys.now };
}
