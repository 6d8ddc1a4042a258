// The servers of one column: a row server's work, row three's offsets, and the split behind the third column. A row server is lent its
// own row, its offsets and the permutation only.
#![tactic(auto)]

ghost use Rattle.std.specs.Prelude.{[], ◌≡◌, ◌==◌, ℕ, ◌<◌, length};
ghost use Rattle.std.specs.List.{list_all};
ghost use Rattle.laws.specs.Faults.{kept};
ghost use Rattle.protocol.specs.Terms.{item};
ghost use Rattle.protocol.specs.Columns.{row_server, third_offsets, second_halves, row_refusal, pair_refusal};
ghost use Rattle.protocol.specs.Answers.{number_in, written_answer, answer_of};
ghost use Rattle.protocol.specs.Refusals.{afterwards};
ghost use Rattle.columns.specs.Ready.{RowReady, PairReady, column_refusal};

use protocol::Rule;

// Fills a column's output: at place i stands number(i).
fn fill<F: Fn(usize) -> u32>(out: &mut [u32], number: F)
    requires { (i : ℕ) → i < length out.old → F.pre number i }
    ensures { (length out.new ≡ length out.old) × ((i : ℕ) → i < length out.old → F.post number i (item out.new i)) }
{
    for (i, x) in out.iter_mut().enumerate() {
        *x = number(i);
    }
}

// Adds the offsets to a row and takes place i from place perm(i).
fn mix_row(modulus: u32, numbers: &[u32], offsets: &[u32], permutation: &[u16], out: &mut [u32])
    requires { RowReady modulus numbers.now offsets.now permutation.now (length out.old) }
    ensures { out.new ≡ row_server modulus numbers.now offsets.now permutation.now }
{
    fill(out, |i| {
        let from = permutation[i] as usize;
        modular::plus(modulus, numbers[from], offsets[from])
    });
}

// Row three's offset at each place: with those of rows one and two it makes 0.
fn third_row(modulus: u32, first: &[u32], second: &[u32], out: &mut [u32])
    requires { PairReady modulus first.now second.now (length out.old) }
    ensures { out.new ≡ third_offsets modulus first.now second.now }
{
    fill(out, |i| modular::less_two(modulus, 0, first[i], second[i]));
}

// The second halves of a row: each number less its first half.
fn split_row(modulus: u32, numbers: &[u32], first_halves: &[u32], out: &mut [u32])
    requires { PairReady modulus numbers.now first_halves.now (length out.old) }
    ensures { out.new ≡ second_halves modulus numbers.now first_halves.now }
{
    fill(
        out,
        |i| modular::minus(modulus, numbers[i], first_halves[i]),
    );
}

// Whether all lengths are the due one.
fn all_due(n: usize, lengths: &[usize]) -> bool
    ensures { result ≡ list_all (λ k. k == n) lengths.now }
{
    lengths.iter().all(|length| *length == n)
}

// What every server of a column refuses of its limits, of the lengths of all that it is lent, and of two rows of numbers.
fn refuse(
    modulus: u32,
    n: usize,
    lengths: &[usize],
    first: &[u32],
    second: &[u32],
) -> Result<(), Rule>
    ensures { number_in result ≡ column_refusal modulus n lengths.now first.now second.now kept }
{
    if !(limits::modulus_in_limits(modulus) && limits::ballots_in_limits(n)) {
        return Err(Rule::Limits);
    }
    if !all_due(n, lengths) {
        return Err(Rule::Length);
    }
    if !(limits::all_below(modulus, first) && limits::all_below(modulus, second)) {
        return Err(Rule::Number);
    }
    Ok(())
}

// What a row server refuses.
fn refuse_row(
    modulus: u32,
    n: usize,
    numbers: &[u32],
    offsets: &[u32],
    permutation: &[u16],
    out_len: usize,
) -> Result<(), Rule>
    ensures { number_in result ≡ row_refusal modulus n numbers.now offsets.now permutation.now out_len }
{
    let lengths = [numbers.len(), offsets.len(), permutation.len(), out_len];
    refuse(modulus, n, &lengths, numbers, offsets)?;
    if !limits::is_permutation(n, permutation) {
        return Err(Rule::Permutation);
    }
    Ok(())
}

// What the other two refuse.
fn refuse_pair(
    modulus: u32,
    n: usize,
    first: &[u32],
    second: &[u32],
    out_len: usize,
) -> Result<(), Rule>
    ensures { number_in result ≡ pair_refusal modulus n first.now second.now out_len }
{
    let lengths = [first.len(), second.len(), out_len];
    refuse(modulus, n, &lengths, first, second)
}

// Entry: a row server's column.
pub fn row_server(
    modulus: u32,
    n: u32,
    numbers: &[u32],
    offsets: &[u32],
    permutation: &[u16],
    out: &mut [u32],
) -> Result<(), Rule>
    ensures { let k = row_refusal modulus n numbers.now offsets.now permutation.now (length out.old) in
        let mixed = row_server modulus numbers.now offsets.now permutation.now in
        (written_answer result ≡ answer_of k []) × (out.new ≡ afterwards k out.old mixed) }
{
    refuse_row(
        modulus,
        n as usize,
        numbers,
        offsets,
        permutation,
        out.len(),
    )?;
    mix_row(modulus, numbers, offsets, permutation, out);
    Ok(())
}

// Entry: row three's offsets from those of rows one and two.
pub fn third_row_offsets(
    modulus: u32,
    n: u32,
    first: &[u32],
    second: &[u32],
    out: &mut [u32],
) -> Result<(), Rule>
    ensures { let k = pair_refusal modulus n first.now second.now (length out.old) in
        let offsets = third_offsets modulus first.now second.now in
        (written_answer result ≡ answer_of k []) × (out.new ≡ afterwards k out.old offsets) }
{
    refuse_pair(modulus, n as usize, first, second, out.len())?;
    third_row(modulus, first, second, out);
    Ok(())
}

// Entry: the split of a row with given first halves.
pub fn split(
    modulus: u32,
    n: u32,
    numbers: &[u32],
    first_halves: &[u32],
    out: &mut [u32],
) -> Result<(), Rule>
    ensures { let k = pair_refusal modulus n numbers.now first_halves.now (length out.old) in
        let halves = second_halves modulus numbers.now first_halves.now in
        (written_answer result ≡ answer_of k []) × (out.new ≡ afterwards k out.old halves) }
{
    refuse_pair(modulus, n as usize, numbers, first_halves, out.len())?;
    split_row(modulus, numbers, first_halves, out);
    Ok(())
}
