// The tally: distinct votes, rising, with how often each stands in the slice.
ghost use Rattle.std.specs.Prelude.{◌≡◌, ◌-◌, ◌<◌, length};
ghost use Rattle.laws.specs.Tests.{equal, differ, ◌or◌};
ghost use Rattle.protocol.specs.Terms.{item};
ghost use Rattle.protocol.specs.Refusals.{afterwards};
ghost use Rattle.protocol.specs.Answers.{number_in, tally_answer};
ghost use Rattle.protocol.specs.Results.{distinct_votes, vote_counts, tally_refusal, tallied, in_front};
ghost use Rattle.results.specs.Tallies.{TallyReady};

use protocol::Rule;

// What the tally refuses.
fn refuse(votes: &[u32], values_len: usize, counts_len: usize) -> Result<(), Rule>
    ensures { number_in result ≡ tally_refusal votes.now values_len counts_len }
{
    if values_len != votes.len() {
        return Err(Rule::Length);
    }
    if counts_len != votes.len() {
        return Err(Rule::Length);
    }
    if !votes.is_sorted() {
        return Err(Rule::VoteOrder);
    }
    Ok(())
}

// Whether a vote is the first of its number.
fn is_fresh(votes: &[u32], i: usize) -> bool
    requires { i < length votes.now }
    ensures { result ≡ (equal i 0 or differ (item votes.now (i - 1)) (item votes.now i)) }
{
    i == 0 || votes[i - 1] != votes[i]
}

// Writes each distinct vote and how often it stands, and answers how many there are. Equal votes stand side by side.
pub(crate) fn fill(votes: &[u32], values: &mut [u32], counts: &mut [u64]) -> usize
    requires { TallyReady votes.now (length values.old) (length counts.old) }
    ensures values { values.new ≡ in_front (distinct_votes votes.now) values.old }
    ensures counts { counts.new ≡ in_front (vote_counts votes.now) counts.old }
    ensures answer { result ≡ length (distinct_votes votes.now) }
{
    let mut pairs: usize = 0;
    for i in 0..votes.len() {
        if is_fresh(votes, i) {
            values[pairs] = votes[i];
            counts[pairs] = 1;
            pairs += 1;
        } else {
            let last = pairs - 1;
            counts[last] += 1;
        }
    }
    pairs
}

// Entry: the tally of votes that do not fall, into two lent slices of the votes' length. What lies behind the last pair is unchanged.
pub fn tally(votes: &[u32], values: &mut [u32], counts: &mut [u64]) -> Result<usize, Rule>
    ensures answer { tally_answer result ≡ tallied votes.now (length values.old) (length counts.old) }
    ensures values { let k = tally_refusal votes.now (length values.old) (length counts.old) in
        values.new ≡ afterwards k values.old (in_front (distinct_votes votes.now) values.old) }
    ensures counts { let k = tally_refusal votes.now (length values.old) (length counts.old) in
        counts.new ≡ afterwards k counts.old (in_front (vote_counts votes.now) counts.old) }
{
    refuse(votes, values.len(), counts.len())?;
    Ok(fill(votes, values, counts))
}
