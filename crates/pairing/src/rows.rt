// The rows of Table 60, a function each: the link, and the state after its symbols.
ghost use Rattle.std.specs.Prelude.{◌≡◌};
ghost use Rattle.pairing.specs.Table60.{HM_same_rec, same_rec, split, diff_ref_seq, table60, mate_at, read_first};
ghost use Rattle.pairing.specs.Pairing.{paired};
ghost use Rattle.taking.specs.Steps.{decode};

use crate::{Link, Mate};
use refusal::Refusal;
use state::State;
use taking::{take, take_narrow};
use unit::Unit;

// Class U has no aligned mate.
fn mate_at(class: u32, sequence: u32, position: u32) -> Mate
    ensures { result ≡ mate_at class sequence position }
{
    if class == Unit::U {
        return Mate::Unpaired;
    }
    Mate::Far(sequence, position)
}

// The low bit of a value from subsequence 1 says that read 1 is the second. A number of a number: a truth between them would be one step more.
fn read_first(v: u32) -> u32
    ensures { result ≡ read_first v }
{
    1 - v % 2
}

// Class HM: one value tells which read is first.
pub(crate) fn half_mapped(
    symbols: &[u32],
    counts: &[u32],
    state: State,
) -> Result<(Link, State), Refusal>
    ensures { result ≡ paired (decode symbols.now counts.now state HM_same_rec) }
{
    let (v, next) = take_narrow(symbols, counts, state, 1)?;
    Ok((Link::new(read_first(v), 0, 2, Mate::Unpaired), next))
}

// Code 0: one value tells which read is first and how far the mate lies; in class U none is taken.
fn same_rec(
    class: u32,
    symbols: &[u32],
    counts: &[u32],
    state: State,
) -> Result<(Link, State), Refusal>
    ensures { result ≡ paired (decode symbols.now counts.now state (same_rec class)) }
{
    if class == Unit::U {
        return Ok((Link::new(1, 0, 2, Mate::Unpaired), state));
    }
    let (v, next) = take_narrow(symbols, counts, state, 1)?;
    Ok((Link::new(read_first(v), 0, 2, Mate::Near(v / 2)), next))
}

// Codes 1 and 2: the mate's position from subsequence s.
fn split(
    class: u32,
    sequence: u32,
    symbols: &[u32],
    counts: &[u32],
    state: State,
    s: usize,
    first: u32,
) -> Result<(Link, State), Refusal>
    ensures { result ≡ paired (decode symbols.now counts.now state (split class sequence s first)) }
{
    let (position, next) = take(symbols, counts, state, s)?;
    let mate = mate_at(class, sequence, position);
    Ok((Link::new(first, 1, 1, mate), next))
}

// Codes 3 and 4: the mate's sequence id from subsequence s, which class U does not look at, and its position from subsequence q.
fn diff_ref_seq(
    class: u32,
    symbols: &[u32],
    counts: &[u32],
    state: State,
    s: usize,
    q: usize,
    first: u32,
) -> Result<(Link, State), Refusal>
    ensures { result ≡ paired (decode symbols.now counts.now state (diff_ref_seq class s q first)) }
{
    let (sequence, next) = take(symbols, counts, state, s)?;
    if class == Unit::U {
        return split(class, sequence, symbols, counts, next, q, first);
    }
    if Unit::LARGEST16 < sequence {
        return Err(Refusal::ValueOut);
    }
    split(class, sequence, symbols, counts, next, q, first)
}

// The row of a code; `state` has the code taken. The numbers are those of Table 60, and each stands here alone. A match, since each row takes other values.
pub(crate) fn by_code(
    class: u32,
    sequence: u32,
    symbols: &[u32],
    counts: &[u32],
    state: State,
    code: u32,
) -> Result<(Link, State), Refusal>
    ensures { result ≡ paired (decode symbols.now counts.now state (table60 class sequence code)) }
{
    match code {
        0 => same_rec(class, symbols, counts, state),
        1 => split(class, sequence, symbols, counts, state, 2, 0),
        2 => split(class, sequence, symbols, counts, state, 3, 1),
        3 => diff_ref_seq(class, symbols, counts, state, 4, 6, 0),
        4 => diff_ref_seq(class, symbols, counts, state, 5, 7, 1),
        5 => Ok((Link::new(1, 2, 1, Mate::Unpaired), state)),
        6 => Ok((Link::new(0, 2, 1, Mate::Unpaired), state)),
        _ => Err(Refusal::CodeOut),
    }
}
