// Part one behind the first command: commands 02 and 03. Every stage answers the first fault of its commands with the place where it
// starts, and every command is read by the command reader.
ghost use Rattle.std.specs.Prelude.{◌≡◌, ◌≤◌, length};
ghost use Rattle.laws.specs.Faults.{first};
ghost use Rattle.protocol.specs.Terms.{most_ballots};
ghost use Rattle.protocol.specs.Layout as places;
ghost use Rattle.protocol.specs.Judging.{ballot_faults, judged_ballots, entry_faults, part_one_faults};
ghost use Rattle.layout.specs.Bounds.{Few};
ghost use Rattle.verifier.specs.Passed.{BallotsPassed, stopped};
ghost use Rattle.protocol.specs.Answers.{found_in};

use super::{Record, each};
use protocol::{Due, Fault};

// How many of the first n ballots come before the first one that has a fault by itself.
fn ballots_passed(r: Record, n: usize) -> usize
    requires { n ≤ most_ballots }
    ensures { let r₀ = r.entry in BallotsPassed r₀.drawn r₀.parameters r₀.bytes.now n result }
{
    for j in 0..n {
        let at = layout::at_ballot(r.parameters, j);
        if r.fault(at, Due::Ballot(j)).is_err() {
            return j;
        }
    }
    n
}

// What is found of ballot k by itself, if it is one of the first n.
fn stopping_fault(r: Record, n: usize, k: usize) -> Result<(), Fault>
    requires { n ≤ most_ballots }
    ensures { let r₀ = r.entry in found_in result ≡ stopped r₀.drawn r₀.parameters r₀.bytes.now n k }
{
    if k < n {
        let at = layout::at_ballot(r.parameters, k);
        return r.fault(at, Due::Ballot(k));
    }
    Ok(())
}

// The first n ballots, each by itself: as the receipt check reads them.
pub fn ballot_faults(r: Record, n: usize) -> Result<(), Fault>
    requires { n ≤ most_ballots }
    ensures { let r₀ = r.entry in found_in result ≡ ballot_faults r₀.drawn r₀.parameters r₀.bytes.now n }
{
    let stop = ballots_passed(r, n);
    stopping_fault(r, n, stop)
}

// The same as the judge reads them: rule 21 comes last in each ballot, so that a copy is looked for among those that pass by themselves.
fn judged_ballots(r: Record, n: usize) -> Result<(), Fault>
    requires { (n ≤ most_ballots) × (places.first_width r.parameters ≤ length r.bytes.now) }
    ensures { let r₀ = r.entry in found_in result ≡ judged_ballots r₀.drawn r₀.parameters r₀.bytes.now n }
{
    let passed = ballots_passed(r, n);
    copies::first_copy(r.bytes, r.parameters, passed)?;
    stopping_fault(r, n, passed)
}

// The entries of one list.
fn entry_faults(r: Record, l: usize) -> Result<(), Fault>
    requires { Few r.parameters × (l ≤ 24) }
    ensures { let r₀ = r.entry in found_in result ≡ entry_faults r₀.drawn r₀.parameters r₀.bytes.now l }
{
    each(r.parameters.ballots, |i| {
        r.fault(layout::at_entry(r.parameters, l, i), Due::Entry(l, i))
    })
}

// The entries of all lists.
fn list_faults(r: Record) -> Result<(), Fault>
    requires { Few r.parameters }
    ensures { let r₀ = r.entry in
        found_in result ≡ first (entry_faults r₀.drawn r₀.parameters r₀.bytes.now) (places.lists r₀.parameters) }
{
    each(layout::lists(r.parameters), |l| entry_faults(r, l))
}

// The ballots, then the entries of all lists.
pub fn part_one_faults(r: Record) -> Result<(), Fault>
    requires { Few r.parameters × (places.first_width r.parameters ≤ length r.bytes.now) }
    ensures { let r₀ = r.entry in found_in result ≡ part_one_faults r₀.drawn r₀.parameters r₀.bytes.now }
{
    judged_ballots(r, r.parameters.ballots)?;
    list_faults(r)
}
