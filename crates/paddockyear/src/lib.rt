// The functions that C and Rust programs link, each a thin face of a proved one. A slice is a pointer and a length.
#![tactic(auto)]

ghost use Rattle.std.specs.Prelude.{true, false, ◌≡◌, [], ◌++◌, length};
ghost use Rattle.laws.specs.Faults.{number_of};
ghost use Rattle.laws.specs.Tests.{differ, choose};
ghost use Rattle.keccak.specs.Keccak.{keccak_f};
ghost use Rattle.sha3.specs.Sha3.{sha3_224, sha3_256};
ghost use Rattle.protocol.specs.Terms.{parameters};
ghost use Rattle.protocol.specs.Tablet as tablets;
ghost use Rattle.protocol.specs.Tablet.{tablet_command, tablet_refusal};
ghost use Rattle.protocol.specs.Columns.{row_server, third_offsets, second_halves, row_refusal, pair_refusal};
ghost use Rattle.protocol.specs.Answers.{answer_of, written_answer, receipt_answer, found_in};
ghost use Rattle.protocol.specs.Drawing.{challenge, drawn_mask};
ghost use Rattle.protocol.specs.Inputs.{given};
ghost use Rattle.protocol.specs.Refusals.{part_one_refusal, part_two_refusal, part_two_drawn_refusal, part_three_refusal, part_three_drawn_refusal, afterwards};
ghost use Rattle.protocol.specs.Servers.{first_part, second_part, mask_for, third_part, sides_for};
ghost use Rattle.protocol.specs.Judging.{first_fault};
ghost use Rattle.protocol.specs.Election.{choice_of};
ghost use Rattle.election.specs.Holding.{lent, buffers, Held};
ghost use Rattle.protocol.specs.Results.{receipt_checked, looked_up, announced_votes, announced_refusal, distinct_votes, vote_counts, tally_refusal, in_front, draw_refusal};
ghost use Rattle.runoff.specs.Rounds as rounds;
ghost use Rattle.schedule.specs.Windows as calendar;
ghost use Rattle.paddockyear.specs.Codes.{form_told, date_told, code_of, value_in, receipt_code, place_in, outcome_code};

use election::Failure;
use protocol::{Fault, Form, Inputs, Parameters, Receipt, Rule};
use runoff::{Candidate, Counted};
use schedule::{Date, Phase, Windows};

// Keccak-f[1600], in place.
#[unsafe(no_mangle)]
pub extern "C" fn paddockyear_keccak_f(lanes: &mut [u64; 25])
    ensures { lanes.new ≡ keccak_f lanes.old }
{
    keccak::permute_in_place(lanes);
}

// SHA3-224 of m.
#[unsafe(no_mangle)]
pub extern "C" fn paddockyear_sha3_224(m: &[u8], out: &mut [u8; 28])
    ensures { out.new ≡ sha3_224 m.now }
{
    sha3::sha3_224(m, out);
}

// SHA3-256 of m.
#[unsafe(no_mangle)]
pub extern "C" fn paddockyear_sha3_256(m: &[u8], out: &mut [u8; 32])
    ensures { out.new ≡ sha3_256 m.now }
{
    sha3::sha3_256(m, out);
}

// SHA3-224 of a message in three parts.
#[unsafe(no_mangle)]
pub extern "C" fn paddockyear_sha3_224_parts(a: &[u8], b: &[u8], c: &[u8], out: &mut [u8; 28])
    ensures { out.new ≡ sha3_224 (a.now ++ (b.now ++ c.now)) }
{
    sha3::hash_parts(144, a, b, c, out);
}

// SHA3-256 of a message in three parts.
#[unsafe(no_mangle)]
pub extern "C" fn paddockyear_sha3_256_parts(a: &[u8], b: &[u8], c: &[u8], out: &mut [u8; 32])
    ensures { out.new ≡ sha3_256 (a.now ++ (b.now ++ c.now)) }
{
    sha3::hash_parts(136, a, b, c, out);
}

// ---- tablet and mix servers

// A writer's answer: 0, or the refusal's number.
fn written_code(written: Result<(), Rule>) -> u32
    ensures { result ≡ code_of (written_answer written) }
{
    match written {
        Ok(()) => 0,
        Err(rule) => rule.number(),
    }
}

// The first command's form: 0C with the election's number, unless `numbered` is 0.
fn form(numbered: u32, election: u32) -> Form
    ensures { result ≡ form_told numbered election }
{
    if numbered != 0 {
        Form::Numbered(election)
    } else {
        Form::Unnumbered
    }
}

// A vote's ballot command and receipt.
#[unsafe(no_mangle)]
pub extern "C" fn paddockyear_tablet(
    numbered: u32,
    election: u32,
    modulus: u32,
    id: u32,
    vote: u32,
    x: u32,
    y: u32,
    u1: u32,
    u2: u32,
    u3: u32,
    keys: &[u8],
    command: &mut [u8],
    receipt: &mut [u8],
) -> u32
    ensures { let refused = tablet_refusal modulus vote x y u1 u2 u3 in
        let k = refused (length keys.now) (length command.old) (length receipt.old) in
        let posted = tablet_command (form_told numbered election) modulus id vote x y u1 u2 u3 keys.now in
        let printed = tablets.receipt id posted in
        (result ≡ k) × ((command.new ≡ afterwards k command.old posted) × (receipt.new ≡ afterwards k receipt.old printed)) }
{
    written_code(tablet::cast(
        form(numbered, election),
        modulus,
        id,
        vote,
        x,
        y,
        u1,
        u2,
        u3,
        keys,
        command,
        receipt,
    ))
}

// A row server's column.
#[unsafe(no_mangle)]
pub extern "C" fn paddockyear_row_server(
    modulus: u32,
    n: u32,
    numbers: &[u32],
    offsets: &[u32],
    permutation: &[u16],
    out: &mut [u32],
) -> u32
    ensures { let k = row_refusal modulus n numbers.now offsets.now permutation.now (length out.old) in
        let mixed = row_server modulus numbers.now offsets.now permutation.now in
        (result ≡ k) × (out.new ≡ afterwards k out.old mixed) }
{
    written_code(columns::row_server(modulus, n, numbers, offsets, permutation, out))
}

// Row three's offsets.
#[unsafe(no_mangle)]
pub extern "C" fn paddockyear_third_row_offsets(
    modulus: u32,
    n: u32,
    first: &[u32],
    second: &[u32],
    out: &mut [u32],
) -> u32
    ensures { let k = pair_refusal modulus n first.now second.now (length out.old) in
        let offsets = third_offsets modulus first.now second.now in
        (result ≡ k) × (out.new ≡ afterwards k out.old offsets) }
{
    written_code(columns::third_row_offsets(modulus, n, first, second, out))
}

// The split of a row.
#[unsafe(no_mangle)]
pub extern "C" fn paddockyear_split(
    modulus: u32,
    n: u32,
    numbers: &[u32],
    first_halves: &[u32],
    out: &mut [u32],
) -> u32
    ensures { let k = pair_refusal modulus n numbers.now first_halves.now (length out.old) in
        let halves = second_halves modulus numbers.now first_halves.now in
        (result ≡ k) × (out.new ≡ afterwards k out.old halves) }
{
    written_code(columns::split(modulus, n, numbers, first_halves, out))
}

// ---- the record writer

// What the first command says.
fn parameters(numbered: u32, election: u32, modulus: u32, ballots: u32, compared: u32) -> Parameters
    ensures { result ≡ parameters (form_told numbered election) modulus ballots compared }
{
    Parameters {
        form: form(numbered, election),
        modulus,
        ballots: ballots as usize,
        compared: compared as usize,
    }
}

// Part one.
#[unsafe(no_mangle)]
pub extern "C" fn paddockyear_part_one(
    numbered: u32,
    election: u32,
    modulus: u32,
    ballots: u32,
    compared: u32,
    ids: &[u32],
    votes: &[u32],
    numbers: &[u32],
    permutations: &[u16],
    keys: &[u8],
    out: &mut [u8],
) -> u32
    ensures { let p = parameters (form_told numbered election) modulus ballots compared in
        let s = given p ids.now votes.now numbers.now permutations.now keys.now in
        let k = part_one_refusal s (length out.old) in
        (result ≡ k) × (out.new ≡ afterwards k out.old (first_part s)) }
{
    let inputs = Inputs {
        parameters: parameters(numbered, election, modulus, ballots, compared),
        ids,
        votes,
        numbers,
        permutations,
        keys,
    };
    written_code(board::part_one(&inputs, out))
}

// Part two, mask given.
#[unsafe(no_mangle)]
pub extern "C" fn paddockyear_part_two(
    numbered: u32,
    election: u32,
    modulus: u32,
    ballots: u32,
    compared: u32,
    ids: &[u32],
    votes: &[u32],
    numbers: &[u32],
    permutations: &[u16],
    keys: &[u8],
    dice: &[u8],
    mask: u32,
    out: &mut [u8],
) -> u32
    ensures { let p = parameters (form_told numbered election) modulus ballots compared in
        let s = given p ids.now votes.now numbers.now permutations.now keys.now in
        let k = part_two_refusal s dice.now mask (length out.old) in
        (result ≡ k) × (out.new ≡ afterwards k out.old (second_part s dice.now mask)) }
{
    let inputs = Inputs {
        parameters: parameters(numbered, election, modulus, ballots, compared),
        ids,
        votes,
        numbers,
        permutations,
        keys,
    };
    written_code(comparison::part_two(&inputs, dice, mask, out))
}

// Part two, mask drawn from the dice and part one as lent.
#[unsafe(no_mangle)]
pub extern "C" fn paddockyear_part_two_drawn(
    numbered: u32,
    election: u32,
    modulus: u32,
    ballots: u32,
    compared: u32,
    ids: &[u32],
    votes: &[u32],
    numbers: &[u32],
    permutations: &[u16],
    keys: &[u8],
    dice: &[u8],
    one: &[u8],
    out: &mut [u8],
) -> u32
    ensures { let p = parameters (form_told numbered election) modulus ballots compared in
        let s = given p ids.now votes.now numbers.now permutations.now keys.now in
        let k = part_two_drawn_refusal s dice.now (length one.now) (length out.old) in
        let two = second_part s dice.now (mask_for s dice.now one.now) in
        (result ≡ k) × (out.new ≡ afterwards k out.old two) }
{
    let inputs = Inputs {
        parameters: parameters(numbered, election, modulus, ballots, compared),
        ids,
        votes,
        numbers,
        permutations,
        keys,
    };
    written_code(comparison::part_two_drawn(&inputs, dice, one, out))
}

// Part three, sides given.
#[unsafe(no_mangle)]
pub extern "C" fn paddockyear_part_three(
    numbered: u32,
    election: u32,
    modulus: u32,
    ballots: u32,
    compared: u32,
    ids: &[u32],
    votes: &[u32],
    numbers: &[u32],
    permutations: &[u16],
    keys: &[u8],
    dice: &[u8],
    mask: u32,
    sides: &[u8],
    out: &mut [u8],
) -> u32
    ensures { let p = parameters (form_told numbered election) modulus ballots compared in
        let s = given p ids.now votes.now numbers.now permutations.now keys.now in
        let k = part_three_refusal s dice.now mask sides.now (length out.old) in
        (result ≡ k) × (out.new ≡ afterwards k out.old (third_part s dice.now mask sides.now)) }
{
    let inputs = Inputs {
        parameters: parameters(numbered, election, modulus, ballots, compared),
        ids,
        votes,
        numbers,
        permutations,
        keys,
    };
    written_code(disclosure::part_three(&inputs, dice, mask, sides, out))
}

// Part three, sides drawn from the dice and parts one and two as lent.
#[unsafe(no_mangle)]
pub extern "C" fn paddockyear_part_three_drawn(
    numbered: u32,
    election: u32,
    modulus: u32,
    ballots: u32,
    compared: u32,
    ids: &[u32],
    votes: &[u32],
    numbers: &[u32],
    permutations: &[u16],
    keys: &[u8],
    dice: &[u8],
    mask: u32,
    one: &[u8],
    two: &[u8],
    out: &mut [u8],
) -> u32
    ensures { let p = parameters (form_told numbered election) modulus ballots compared in
        let s = given p ids.now votes.now numbers.now permutations.now keys.now in
        let k = part_three_drawn_refusal s dice.now mask (length one.now) (length two.now) (length out.old) in
        let three = third_part s dice.now mask (sides_for s dice.now one.now two.now) in
        (result ≡ k) × (out.new ≡ afterwards k out.old three) }
{
    let inputs = Inputs {
        parameters: parameters(numbered, election, modulus, ballots, compared),
        ids,
        votes,
        numbers,
        permutations,
        keys,
    };
    written_code(disclosure::part_three_drawn(&inputs, dice, mask, one, two, out))
}

// The mask that part two draws; `mask` is as it was on a refusal.
#[unsafe(no_mangle)]
pub extern "C" fn paddockyear_draw_mask(
    numbered: u32,
    election: u32,
    modulus: u32,
    ballots: u32,
    compared: u32,
    dice: &[u8],
    one: &[u8],
    mask: &mut u32,
) -> u32
    ensures { let k = draw_refusal (parameters (form_told numbered election) modulus ballots compared) dice.now (length one.now) in
        let drawn = drawn_mask compared (challenge dice.now one.now) in
        (result ≡ k) × (mask.new ≡ choose k drawn mask.old) }
{
    let parameters = parameters(numbered, election, modulus, ballots, compared);
    match comparison::draw(parameters, dice, one) {
        Ok(drawn) => {
            *mask = drawn;
            0
        }
        Err(rule) => rule.number(),
    }
}

// An election's answer: 0 for accepted, else the number.
fn outcome_code(held: Result<(), Failure>) -> u32
    ensures { result ≡ outcome_code held }
{
    match held {
        Ok(()) => 0,
        Err(Failure::Refused(rule)) => rule.number(),
        Err(Failure::Rejected(rule)) => rule.number(),
    }
}

// The three calls and the judge as one election: 0 for a record that is written and accepted, else the refusal's number. `mask_given` and
// `sides_given` are 0 where mask or sides are to be drawn.
#[unsafe(no_mangle)]
pub extern "C" fn paddockyear_election(
    mask_given: u32,
    sides_given: u32,
    numbered: u32,
    election: u32,
    modulus: u32,
    ballots: u32,
    compared: u32,
    ids: &[u32],
    votes: &[u32],
    numbers: &[u32],
    permutations: &[u16],
    keys: &[u8],
    first_dice: &[u8],
    mask: u32,
    second_dice: &[u8],
    sides: &[u8],
    one: &mut [u8],
    two: &mut [u8],
    three: &mut [u8],
    joined: &mut [u8],
) -> u32
    ensures { let p = parameters (form_told numbered election) modulus ballots compared in
        let s = given p ids.now votes.now numbers.now permutations.now keys.now in
        let byMask = choice_of (differ mask_given 0) mask in
        let bySides = choice_of (differ sides_given 0) sides.now in
        let e = lent s byMask first_dice.now bySides second_dice.now in
        let was = buffers one.old two.old three.old joined.old in
        let is = buffers one.new two.new three.new joined.new in
        Held e was is (answer_of result []) }
{
    let inputs = Inputs {
        parameters: parameters(numbered, election, modulus, ballots, compared),
        ids,
        votes,
        numbers,
        permutations,
        keys,
    };
    outcome_code(election::hold(
        &inputs,
        (mask_given != 0).then_some(mask),
        first_dice,
        (sides_given != 0).then_some(sides),
        second_dice,
        one,
        two,
        three,
        joined,
    ))
}

// ---- the verifier

// The number of a fault, 0 for none.
fn number_of(found: Result<(), Fault>) -> u32
    ensures { result ≡ number_of (found_in found) }
{
    match found {
        Ok(()) => 0,
        Err(fault) => fault.rule.number(),
    }
}

// Plain judging: 0 for accepted, else the number of the first rule broken.
#[unsafe(no_mangle)]
pub extern "C" fn paddockyear_judge_plainly(bytes: &[u8]) -> u32
    ensures { result ≡ number_of (first_fault false bytes.now) }
{
    number_of(verifier::first_fault(bytes, false))
}

// Drawn judging, answered in the same way.
#[unsafe(no_mangle)]
pub extern "C" fn paddockyear_judge_as_drawn(bytes: &[u8]) -> u32
    ensures { result ≡ number_of (first_fault true bytes.now) }
{
    number_of(verifier::first_fault(bytes, true))
}

// The first fault's number, and the place where its command starts; `place` is as it was where there is no fault. `drawn` is 0 for plain
// judging.
#[unsafe(no_mangle)]
pub extern "C" fn paddockyear_first_fault(bytes: &[u8], drawn: u32, place: &mut u64) -> u32
    ensures { let found = first_fault (differ drawn 0) bytes.now in
        (result ≡ number_of found) × (place.new ≡ place_in found place.old) }
{
    match verifier::first_fault(bytes, drawn != 0) {
        Ok(()) => 0,
        Err(fault) => {
            *place = fault.at as u64;
            fault.rule.number()
        }
    }
}

// The tally of votes that do not fall; `pairs` is how many pairs were written, and as it was on a refusal.
#[unsafe(no_mangle)]
pub extern "C" fn paddockyear_tally(
    votes: &[u32],
    values: &mut [u32],
    counts: &mut [u64],
    pairs: &mut u64,
) -> u32
    ensures { let k = tally_refusal votes.now (length values.old) (length counts.old) in
        let written = in_front (distinct_votes votes.now) values.old in
        let counted = in_front (vote_counts votes.now) counts.old in
        (result ≡ k)
        × ((pairs.new ≡ choose k (length (distinct_votes votes.now)) pairs.old)
        × ((values.new ≡ afterwards k values.old written) × (counts.new ≡ afterwards k counts.old counted))) }
{
    match results::tally::tally(votes, values, counts) {
        Ok(written) => {
            *pairs = written as u64;
            0
        }
        Err(rule) => rule.number(),
    }
}

// ---- results

// 0 posted as printed, 101 posted otherwise, 102 not posted, else the refusal's number.
#[unsafe(no_mangle)]
pub extern "C" fn paddockyear_check_receipt(bytes: &[u8], printed: &[u8]) -> u32
    ensures { result ≡ receipt_code (receipt_checked bytes.now printed.now) }
{
    receipt_code(results::receipts::check_receipt(bytes, printed))
}

// The same, from the ballots up to the first whose id is the one sought or larger.
#[unsafe(no_mangle)]
pub extern "C" fn paddockyear_look_up(bytes: &[u8], printed: &[u8]) -> u32
    ensures { result ≡ receipt_code (looked_up bytes.now printed.now) }
{
    receipt_code(results::receipts::look_up(bytes, printed))
}

fn receipt_code(answer: Result<Receipt, Rule>) -> u32
    ensures { result ≡ receipt_code (receipt_answer answer) }
{
    match answer {
        Ok(Receipt::AsPrinted) => 0,
        Ok(Receipt::Otherwise) => 101,
        Ok(Receipt::NotPosted) => 102,
        Err(rule) => rule.number(),
    }
}

// The announced votes of an accepted record.
#[unsafe(no_mangle)]
pub extern "C" fn paddockyear_announced_votes(bytes: &[u8], out: &mut [u32]) -> u32
    ensures { let k = announced_refusal bytes.now (length out.old) in
        (result ≡ k) × (out.new ≡ afterwards k out.old (announced_votes bytes.now)) }
{
    written_code(results::votes::announced_votes(bytes, out))
}

// ---- ranked votes

// The number of an answer; its values into the numbers that are lent for them.
fn runoff_code(
    counted: Result<Counted, Rule>,
    winner: &mut u32,
    blank: &mut u64,
    spoiled: &mut u64,
) -> u32
    ensures { let answer = rounds.runoff_answer counted in
        (result ≡ code_of answer)
        × ((winner.new ≡ value_in answer 0 winner.old)
        × ((blank.new ≡ value_in answer 1 blank.old)
        × (spoiled.new ≡ value_in answer 2 spoiled.old))) }
{
    match counted {
        Ok(votes) => {
            *winner = votes.winner.unwrap_or(0);
            *blank = votes.blank;
            *spoiled = votes.spoiled;
            0
        }
        Err(rule) => rule.number(),
    }
}

// Ranked votes by instant runoff; on a refusal all that is lent is as it was.
#[unsafe(no_mangle)]
pub extern "C" fn paddockyear_runoff(
    votes: &[u32],
    candidates: u32,
    table: &mut [Candidate],
    winner: &mut u32,
    blank: &mut u64,
    spoiled: &mut u64,
) -> u32
    ensures { let k = rounds.runoff_refusal candidates (length table.old) in
        (result ≡ k)
        × ((winner.new ≡ choose k (rounds.winner candidates votes.now) winner.old)
        × ((blank.new ≡ choose k (rounds.blank_votes votes.now) blank.old)
        × ((spoiled.new ≡ choose k (rounds.spoiled_votes candidates votes.now) spoiled.old)
        × (table.new ≡ rounds.table_after candidates votes.now table.old)))) }
{
    let counted = runoff::run_off(votes, candidates as usize, table);
    runoff_code(counted, winner, blank, spoiled)
}

// ---- calendar

// The windows as the eight numbers that C has of them.
fn numbers_of(w: Windows) -> [u64; 8]
    ensures { result ≡ calendar.numbers w }
{
    [
        w.polling.start,
        w.polling.end,
        w.first.start,
        w.first.end,
        w.second.start,
        w.second.end,
        w.objections.start,
        w.objections.end,
    ]
}

// The four windows of an election; on a refusal `windows` is as it was.
#[unsafe(no_mangle)]
pub extern "C" fn paddockyear_calendar(
    year: u32,
    month: u32,
    day: u32,
    holidays: &[u32],
    windows: &mut [u64; 8],
) -> u32
    ensures { let election = date_told year month day in
        let k = calendar.schedule_refusal election holidays.now in
        let numbers = calendar.numbers (calendar.windows election holidays.now) in
        (result ≡ k) × (windows.new ≡ choose k numbers windows.old) }
{
    let election = Date { year, month, day };
    match schedule::four_windows(election, holidays) {
        Ok(set) => {
            *windows = numbers_of(set);
            0
        }
        Err(rule) => rule.number(),
    }
}

// The window of an election that a minute is in, 0 for none; on a refusal `window` is as it was.
#[unsafe(no_mangle)]
pub extern "C" fn paddockyear_window_at(
    year: u32,
    month: u32,
    day: u32,
    holidays: &[u32],
    minute: u64,
    window: &mut u32,
) -> u32
    ensures { let election = date_told year month day in
        let k = calendar.schedule_refusal election holidays.now in
        let number = calendar.window_of (calendar.windows election holidays.now) minute in
        (result ≡ k) × (window.new ≡ choose k number window.old) }
{
    let election = Date { year, month, day };
    match schedule::window_at(election, holidays, minute) {
        Ok(phase) => {
            *window = phase.map_or(0, Phase::number);
            0
        }
        Err(rule) => rule.number(),
    }
}
