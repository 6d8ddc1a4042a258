// Commands 09 of a record: the votes cast, smallest first.
ghost use Rattle.std.specs.Prelude.{◌+◌, ◌*◌, ◌≤◌, length};
ghost use Rattle.laws.specs.Chunks.{chunks};
ghost use Rattle.laws.specs.Sorting.{sort};
ghost use Rattle.laws.specs.Writing.{Went};
ghost use Rattle.protocol.specs.Terms.{item, most_ballots};
ghost use Rattle.protocol.specs.Record.{vote_command};

use protocol::MOST_BALLOTS;

// Commands 09 of votes in the order given.
fn put_votes(out: &mut [u8], at: usize, votes: &[u32]) -> usize
    requires { (length votes.now ≤ most_ballots) × (at + length votes.now * 7 ≤ length out.old) }
    ensures { let said = chunks (λ i. vote_command i (item votes.now i)) (length votes.now) in
        Went out.old at said out.new result }
{
    let mut next = at;
    for (i, vote) in votes.iter().enumerate() {
        next = commands::put_vote(out, next, i as u32, *vote);
    }
    next
}

// .. and of the votes cast.
pub fn put_announced(out: &mut [u8], at: usize, votes: &[u32]) -> usize
    requires { (length votes.now ≤ most_ballots) × (at + length votes.now * 7 ≤ length out.old) }
    ensures { let said = chunks (λ i. vote_command i (item (sort votes.now) i)) (length votes.now) in
        Went out.old at said out.new result }
{
    let mut room = [0u32; MOST_BALLOTS];
    let sorted = &mut room[..votes.len()];
    sorted.copy_from_slice(votes);
    sorting::sort_numbers(sorted);
    put_votes(out, at, sorted)
}
