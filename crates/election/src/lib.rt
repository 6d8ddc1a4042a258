// The three calls of the servers and the judge as one election: what they are lent is tested first, then the parts are written, joined and
// judged. Mask and sides are each given, or drawn where there are none.
#![tactic(auto)]

ghost use Rattle.std.specs.Prelude.{◌≡◌, ◌++◌, ◌+◌, ◌<◌, length};
ghost use Rattle.laws.specs.Bytes.{Below};
ghost use Rattle.protocol.specs.Terms.{election_number};
ghost use Rattle.protocol.specs.Servers.{second_part, third_part};
ghost use Rattle.protocol.specs.Election.{mask_by, sides_by, election_refusal};
ghost use Rattle.protocol.specs.Election.{choice_in, sides_lent};
ghost use Rattle.election.specs.Holding.{outcome_answer, lent, buffers, parts_of, Held};
ghost use Rattle.election.specs.Ready.{SecondReady, ThirdReady};

use protocol::{Form, Inputs, MOST_BALLOTS, Rule};

// Why no accepted record comes of an election: a rule that what is lent breaks, or one that the written record breaks.
#[derive(Clone, Copy)]
pub enum Failure {
    Refused(Rule),
    Rejected(Rule),
}

// Part two, and the mask that it has.
fn write_second(s: &Inputs, mask: Option<u32>, dice: &[u8], one: &[u8], two: &mut [u8]) -> u32
    requires { SecondReady s.now (choice_in mask) dice.now (length two.old) }
    ensures { let used = mask_by s.now (choice_in mask) dice.now one.now in
        (result ≡ used) × (two.new ≡ second_part s.now dice.now used) }
{
    let p = s.parameters;
    let used = match mask {
        Some(mask) => mask,
        None => comparison::mask_of(p, dice, one),
    };
    comparison::write(s, dice, used, two);
    used
}

// Part three.
fn write_third(
    s: &Inputs,
    mask: u32,
    sides: Option<&[u8]>,
    dice: &[u8],
    one: &[u8],
    two: &[u8],
    three: &mut [u8],
)
    requires { ThirdReady s.now mask (sides_lent sides) dice.now (length three.old) }
    ensures { let used = sides_by s.now (sides_lent sides.entry) dice.now one.now two.now in
        three.new ≡ third_part s.now dice.now mask used }
{
    if let Some(sides) = sides {
        disclosure::write(s, dice, mask, sides, three);
        return;
    }
    let n = s.parameters.ballots;
    let mut drawn = [0u8; MOST_BALLOTS];
    disclosure::write_drawn(s, dice, mask, one, two, &mut drawn[..n], three);
}

// The three buffers, joined in order.
fn join(one: &[u8], two: &[u8], three: &[u8], joined: &mut [u8])
    requires { length joined.old ≡ length one.now + length two.now + length three.now }
    ensures { joined.new ≡ one.now ++ (two.now ++ three.now) }
{
    let a = wire::copy(joined, 0, one);
    let b = wire::copy(joined, a, two);
    wire::copy(joined, b, three);
}

// The three parts of inputs that are not refused, and the record that they make.
fn write(
    s: &Inputs,
    mask: Option<u32>,
    first_dice: &[u8],
    sides: Option<&[u8]>,
    second_dice: &[u8],
    one: &mut [u8],
    two: &mut [u8],
    three: &mut [u8],
    joined: &mut [u8],
)
    requires { let by_mask = choice_in mask in
        let by_sides = sides_lent sides in
        let k = election_refusal s.now by_mask first_dice.now by_sides second_dice.now in
        0 ≡ k (length one.old) (length two.old) (length three.old) (length joined.old) }
    ensures { let by_mask = choice_in mask in
        let by_sides = sides_lent sides.entry in
        let e = lent s.now by_mask first_dice.now by_sides second_dice.now in
        buffers one.new two.new three.new joined.new ≡ parts_of e }
{
    board::write(s, one);
    let used = write_second(s, mask, first_dice, one, two);
    write_third(s, used, sides, second_dice, one, two, three);
    join(one, two, three, joined);
}

// What the types say: four bytes hold the election's number, and each id. It does nothing when it runs.
fn fit(form: Form, ids: &[u32])
    ensures { (election_number form < 4294967296) × Below 4294967296 ids.now }
{}

// Entry: the election. Whatever the buffers held, where nothing is refused they hold the parts and the record, which plain judging accepts
// and which announces the votes given, smallest first; where mask and sides are drawn, drawn judging accepts it too.
pub fn hold(
    s: &Inputs,
    mask: Option<u32>,
    first_dice: &[u8],
    sides: Option<&[u8]>,
    second_dice: &[u8],
    one: &mut [u8],
    two: &mut [u8],
    three: &mut [u8],
    joined: &mut [u8],
) -> Result<(), Failure>
    ensures { let by_mask = choice_in mask in
        let by_sides = sides_lent sides.entry in
        let e = lent s.now by_mask first_dice.now by_sides second_dice.now in
        let was = buffers one.old two.old three.old joined.old in
        let is = buffers one.new two.new three.new joined.new in
        Held e was is (outcome_answer result) }
{
    fit(s.parameters.form, s.ids);
    let tested = refusals::election(
        s,
        mask,
        first_dice,
        sides,
        second_dice,
        one.len(),
        two.len(),
        three.len(),
        joined.len(),
    );
    if let Err(rule) = tested {
        return Err(Failure::Refused(rule));
    }
    write(
        s,
        mask,
        first_dice,
        sides,
        second_dice,
        one,
        two,
        three,
        joined,
    );
    match verifier::judge_plainly(joined) {
        Ok(()) => Ok(()),
        Err(rule) => Err(Failure::Rejected(rule)),
    }
}
