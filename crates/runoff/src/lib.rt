// Ranked votes by instant runoff.
#![tactic(auto)]

pub mod page;

ghost use Rattle.std.specs.Prelude.{◌≡◌, ◌-◌, ◌≤◌, IfOk, MatchOption, is_some, unwrap_or, length, take, set};
ghost use Rattle.std.specs.Option.{ForSome};
ghost use Rattle.laws.specs.Tables.{tabulate};
ghost use Rattle.laws.specs.Tests.{equal, at_most, ◌or◌};
ghost use Rattle.protocol.specs.Answers.{number_in};
ghost use Rattle.protocol.specs.Terms.{item};
ghost use Rattle.runoff.specs.Ranking.{spoiled, standing, counts_for};
ghost use Rattle.runoff.specs.Rounds as definitions;
ghost use Rattle.runoff.specs.Rounds.{candidate};

use protocol::Rule;

// The most candidates that a ranking can name: one for each digit but 0.
pub const MOST_CANDIDATES: usize = 9;

// A candidate's entry in the table: the count in the last round in which the candidate stood, and the round of leaving, 0 if still
// standing.
#[repr(C)]
#[derive(Clone, Copy)]
pub struct Candidate {
    pub count: u64,
    pub left: u32,
}

// How the rounds stand: of each candidate, k at k - 1, the last count and the round of leaving, 0 if still standing; how many rounds there
// were; the winner, 0 for none; whether it is over. The definitions of the rounds are over this very struct.
#[derive(Clone, Copy)]
pub struct Standings {
    pub counts: [u64; MOST_CANDIDATES],
    pub left: [u32; MOST_CANDIDATES],
    pub rounds: u32,
    pub winner: u32,
    pub over: bool,
}

// The answer of the runoff: the winner, and how many votes are blank and spoiled.
#[derive(Clone, Copy)]
pub struct Counted {
    pub winner: Option<u32>,
    pub blank: u64,
    pub spoiled: u64,
}

// ---- a round

// Whether candidate k still stands.
fn stands(left: &[u32; MOST_CANDIDATES], k: usize) -> bool
    requires { (1 ≤ k) × (k ≤ 9) }
    ensures { result ≡ standing left.now k }
{
    left[k - 1] == 0
}

// The candidate that a vote counts for. Its digits are read from the right, so that the last one met that stands is the first of the
// ranking.
fn counts_for(vote: u32, candidates: usize, left: &[u32; MOST_CANDIDATES]) -> Option<usize>
    requires { candidates ≤ 9 }
    ensures { result ≡ candidate (counts_for candidates left.now vote) }
{
    let mut named = [false; MOST_CANDIDATES + 1];
    let mut first = None;
    let mut rest = vote;
    // a `while`: how many digits there are shows when none is left
    while rest != 0 {
        let k = (rest % 10) as usize;
        if !(1..=candidates).contains(&k) || named[k] {
            return None;
        }
        named[k] = true;
        rest /= 10;
        if stands(left, k) {
            first = Some(k);
        }
    }
    first
}

// How many votes count for each candidate, and at 0 how many count for none.
fn count_round(
    votes: &[u32],
    candidates: usize,
    left: &[u32; MOST_CANDIDATES],
) -> [u64; MOST_CANDIDATES + 1]
    requires { candidates ≤ 9 }
    ensures { result ≡ tabulate (definitions.support candidates votes.now left.now) 10 }
{
    let mut counts = [0u64; MOST_CANDIDATES + 1];
    for &vote in votes {
        let k = counts_for(vote, candidates, left).unwrap_or(0);
        counts[k] += 1;
    }
    counts
}

// The candidate with more than half of the votes that count.
fn winner_among(all: u64, counts: &[u64; MOST_CANDIDATES + 1], candidates: usize) -> Option<usize>
    requires { candidates ≤ 9 }
    ensures { result ≡ candidate (definitions.winner_among all (item counts.now) candidates) }
{
    let mut winner = None;
    for n in 0..candidates {
        if all / 2 < counts[n + 1] {
            winner = Some(n + 1);
        }
    }
    winner
}

// Whether candidate k, who has the higher number, leaves rather than another: where k has no more votes, or there is no other yet.
fn leaves_rather(counts: &[u64; MOST_CANDIDATES + 1], k: usize, other: Option<usize>) -> bool
    requires { (k ≤ 9) × ForSome other (λ o. (1 ≤ o) × (o ≤ 9)) }
    ensures { let o = unwrap_or other 0 in
        result ≡ (equal o 0 or at_most (item counts.now k) (item counts.now o)) }
{
    match other {
        Some(o) => counts[k] <= counts[o],
        None => true,
    }
}

// The candidate standing with fewest votes, of equals the highest number.
fn fewest_among(
    left: &[u32; MOST_CANDIDATES],
    counts: &[u64; MOST_CANDIDATES + 1],
    candidates: usize,
) -> Option<usize>
    requires { candidates ≤ 9 }
    ensures { result ≡ candidate (definitions.fewest_among left.now (item counts.now) candidates) }
{
    let mut fewest = None;
    for n in 0..candidates {
        if stands(left, n + 1) && leaves_rather(counts, n + 1, fewest) {
            fewest = Some(n + 1);
        }
    }
    fewest
}

// The rounds of leaving where one leaves in this round, or nobody.
fn leave(left: [u32; MOST_CANDIDATES], leaver: Option<usize>, round: u32) -> [u32; MOST_CANDIDATES]
    requires { ForSome leaver (λ k. (1 ≤ k) × (k ≤ 9)) }
    ensures { MatchOption leaver (result ≡ left) (λ k. result ≡ set left (k - 1) round) }
{
    let mut after = left;
    if let Some(k) = leaver {
        after[k - 1] = round;
    }
    after
}

// Each candidate's last count: this round's of who stands, the one before of who has left.
fn counts_after(
    counts: &[u64; MOST_CANDIDATES],
    round: &[u64; MOST_CANDIDATES + 1],
    left: &[u32; MOST_CANDIDATES],
) -> [u64; MOST_CANDIDATES]
    ensures { result ≡ definitions.last_counts left.now (item round.now) counts.now }
{
    let mut after = [0u64; MOST_CANDIDATES];
    for i in 0..MOST_CANDIDATES {
        after[i] = if stands(left, i + 1) {
            round[i + 1]
        } else {
            counts[i]
        };
    }
    after
}

// Whether a round decides: where no vote counts, or somebody wins.
fn is_decided(all: u64, winner: Option<usize>) -> bool
    ensures { result ≡ (equal all 0 or is_some winner) }
{
    let nothing_counts = all == 0;
    nothing_counts || winner.is_some()
}

// One round more.
pub(crate) fn next(votes: &[u32], candidates: usize, s: Standings) -> Standings
    requires { (candidates ≤ 9) × (s.rounds ≤ 9) }
    ensures { result ≡ definitions.next candidates votes.now s }
{
    let left = s.left;
    let before = s.counts;
    let support = count_round(votes, candidates, &left);
    let all = votes.len() as u64 - support[0];
    let winner = winner_among(all, &support, candidates);
    let counts = counts_after(&before, &support, &left);
    let rounds = s.rounds + 1;
    let over = is_decided(all, winner);
    let leaver = if over {
        None
    } else {
        fewest_among(&left, &support, candidates)
    };
    Standings {
        counts,
        left: leave(left, leaver, rounds),
        rounds,
        winner: winner.unwrap_or(0) as u32,
        over,
    }
}

// ---- the rounds

// Before the first round.
pub(crate) fn start() -> Standings
    ensures { result ≡ definitions.start }
{
    Standings {
        counts: [0; MOST_CANDIDATES],
        left: [0; MOST_CANDIDATES],
        rounds: 0,
        winner: 0,
        over: false,
    }
}

// All rounds. There are at most as many as candidates.
fn all_rounds(votes: &[u32], candidates: usize) -> Standings
    requires { candidates ≤ 9 }
    ensures { result ≡ definitions.result candidates votes.now }
{
    let mut s = start();
    for _n in 0..candidates {
        if s.over {
            return s;
        }
        s = next(votes, candidates, s);
    }
    s
}

// ---- what is counted apart

// Whether a vote is spoiled: with nobody gone every valid vote counts.
fn is_spoiled(vote: u32, candidates: usize) -> bool
    requires { candidates ≤ 9 }
    ensures { result ≡ spoiled candidates vote }
{
    let nobody = [0u32; MOST_CANDIDATES];
    let blank = vote == 0;
    !blank && counts_for(vote, candidates, &nobody).is_none()
}

// How many votes are blank.
pub(crate) fn blank_votes(votes: &[u32]) -> u64
    ensures { result ≡ definitions.blank_votes votes.now }
{
    votes.iter().filter(|&&vote| vote == 0).count() as u64
}

// How many votes are spoiled.
pub(crate) fn spoiled_votes(votes: &[u32], candidates: usize) -> u64
    requires { candidates ≤ 9 }
    ensures { result ≡ definitions.spoiled_votes candidates votes.now }
{
    votes
        .iter()
        .filter(|&&vote| is_spoiled(vote, candidates))
        .count() as u64
}

// ---- the table

// Fills a table with the candidates' entries.
fn fill(table: &mut [Candidate], s: Standings)
    requires { length table.old ≤ 9 }
    ensures { table.new ≡ take (length table.old) (definitions.entries s.counts s.left) }
{
    let counts = s.counts;
    let left = s.left;
    for i in 0..table.len() {
        table[i] = Candidate {
            count: counts[i],
            left: left[i],
        };
    }
}

// What the runoff refuses.
pub fn refuse(candidates: usize, table_len: usize) -> Result<(), Rule>
    ensures { number_in result ≡ definitions.runoff_refusal candidates table_len }
{
    if !(1..=MOST_CANDIDATES).contains(&candidates) {
        return Err(Rule::Candidates);
    }
    if table_len != candidates {
        return Err(Rule::Length);
    }
    Ok(())
}

// A candidate by number, 0 for none.
pub(crate) fn by_number(k: u32) -> Option<u32>
    ensures { result ≡ candidate k }
{
    if k == 0 { None } else { Some(k) }
}

// Entry: the winner of ranked votes by instant runoff, into a lent table each candidate's last count and round of leaving.
pub fn run_off(votes: &[u32], candidates: usize, table: &mut [Candidate]) -> Result<Counted, Rule>
    ensures answer { definitions.runoff_answer result ≡ definitions.ran_off candidates votes.now (length table.old) }
    ensures winner { IfOk result (λ counted. counted.winner ≡ candidate (definitions.winner candidates votes.now)) }
    ensures table { table.new ≡ definitions.table_after candidates votes.now table.old }
{
    refuse(candidates, table.len())?;
    let s = all_rounds(votes, candidates);
    fill(table, s);
    Ok(Counted {
        winner: by_number(s.winner),
        blank: blank_votes(votes),
        spoiled: spoiled_votes(votes, candidates),
    })
}
