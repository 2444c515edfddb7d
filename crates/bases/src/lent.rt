// The lent reference under a match: clipped once to what is lent, and N before and behind it (10.2.2, Figure 5).
ghost use Rattle.std.specs.Prelude.{◌≡◌, ◌+◌, ◌-◌, ◌*◌, ◌^◌, ◌<◌, ◌≤◌, length, replicate};
ghost use Rattle.writing.specs.Lay.{Laid};
ghost use Rattle.alphabet.specs.Table35.{letter_n};
ghost use Rattle.bases.specs.Reference.{matched_bases, match_refusal};
ghost use Rattle.bases.specs.Bases.{R, r};
ghost use Rattle.bases.specs.Code.Helpers.{highest as highestOf, lent_before, symbols_refusal, farthest};

use crate::letters::put_letters;
use crate::places::Places;
use refusal::Refusal;
use writing::lay::put_byte;

// How many of the lent bases stand before a position: where a run that starts or ends there is clipped.
fn lent_before(lent: usize, first: u32, position: u64) -> usize
    ensures { result ≡ lent_before lent first position }
{
    position.saturating_sub(u64::from(first)).min(lent as u64) as usize
}

// The highest symbol. Every one is looked at, with no way out before the last, so that many are looked at at once.
fn highest(symbols: &[u8]) -> u8
    ensures { result ≡ highestOf 0 symbols.now 0 (length symbols.now) }
{
    let mut most: u8 = 0;
    for symbol in symbols {
        most = most.max(*symbol);
    }
    most
}

// Refusal 10 of lent bases.
fn check_lent(lent: &[u8], alphabet: u32) -> Result<(), Refusal>
    ensures { result ≡ symbols_refusal alphabet lent.now 0 (length lent.now) }
{
    if alphabet::size(alphabet) <= u32::from(highest(lent)) {
        return Err(Refusal::SymbolOut);
    }
    Ok(())
}

// Refusal 10 of so many positions, from a position on.
pub(crate) fn check_range(
    reference: &[u8],
    first: u32,
    alphabet: u32,
    position: u64,
    n: u64,
) -> Result<(), Refusal>
    requires { (position ≤ farthest) × (n < 2 ^ 32) }
    ensures { result ≡ match_refusal alphabet reference.now first position n }
{
    let start = lent_before(reference.len(), first, position);
    let end = lent_before(reference.len(), first, position + n);
    check_lent(&reference[start..end], alphabet)
}

// Refusal 10 of a match from both pointers up to a place of the read.
pub(crate) fn check_match(
    reference: &[u8],
    first: u32,
    alphabet: u32,
    p: Places,
    to: u32,
) -> Result<(), Refusal>
    requires { R p ≤ farthest }
    ensures { result ≡ match_refusal alphabet reference.now first (R p) (to - r p) }
{
    let n = p.until(to);
    let at = p.reference;
    check_range(reference, first, alphabet, at.0, n)
}

// The letter N, as many times.
fn put_padding(out: &mut [u8], at: usize, count: u64) -> usize
    requires { at + 2 * count ≤ length out.old }
    ensures { Laid out.old out.new at result (replicate count letter_n) }
{
    let mut next = at;
    for _ in 0..count {
        next = put_byte(out, next, b'N');
    }
    next
}

// The bases of a match from both pointers up to a place of the read: padding, lent bases, padding.
pub(crate) fn put_matched(
    out: &mut [u8],
    at: usize,
    reference: &[u8],
    first: u32,
    alphabet: u32,
    p: Places,
    to: u32,
) -> usize
    requires p_bound { R p ≤ farthest }
    requires p_in_bounds { at + 2 * (to - r p) ≤ length out.old }
    ensures { Laid out.old out.new at result (matched_bases alphabet reference.now first (R p) (to - r p)) }
{
    let n = p.until(to);
    if n == 0 {
        return at;
    }
    let from = p.reference;
    let before = n.min(u64::from(first).saturating_sub(from.0));
    let start = lent_before(reference.len(), first, from.0);
    let end = lent_before(reference.len(), first, from.0 + n);
    let behind = n - before - (end - start) as u64;
    let lent_at = put_padding(out, at, before);
    let behind_at = put_letters(out, lent_at, reference, alphabet, start, end);
    put_padding(out, behind_at, behind)
}
