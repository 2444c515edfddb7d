// The exports: each calls the function of lampbuckle with its name, and promises the same. The C interface needs one for each, in a static library.
#![tactic(auto)]

ghost use Rattle.std.specs.Prelude.{◌≡◌, [], ◌∷◌};
ghost use Rattle.lampbuckle.specs.Answer.{outcome};
ghost use Rattle.lampbuckle.specs.Lines.{unit_call, pair_call, reference_call};
ghost use Rattle.lampbuckle.specs.Call.{record_call};
ghost use Rattle.listing.specs.Listing.{frame05, frame06};
ghost use Rattle.lampbuckle.specs.Write.{written_call, unit_written};
ghost use Rattle.lampbuckle.specs.Resume.{keep_call, place_call, pass_call};

use lampbuckle::{call, lines, resume, write};

// The unit line's eight values into the lent eight numbers. It answers the line's bytes.
#[unsafe(no_mangle)]
pub extern "C" fn lampbuckle_unit_line(line: &[u8], unit: &mut [u32]) -> i64
    ensures { outcome result (unit.new ∷ []) ≡ unit_call line.now unit.old }
{
    lines::lampbuckle_unit_line(line, unit)
}

// The line of a subsequence: its symbols into its row of the lent table, its count into the lent counts. It answers the count.
#[unsafe(no_mangle)]
pub extern "C" fn lampbuckle_pair_line(
    line: &[u8],
    subsequence: u32,
    symbols: &mut [u32],
    counts: &mut [u32],
) -> i64
    ensures { outcome result (symbols.new ∷ counts.new ∷ []) ≡ pair_call line.now subsequence symbols.old counts.old }
{
    lines::lampbuckle_pair_line(line, subsequence, symbols, counts)
}

// A reference line behind the bases that are used already. It answers how many bases are there now.
#[unsafe(no_mangle)]
pub extern "C" fn lampbuckle_reference_line(line: &[u8], reference: &mut [u8], used: usize) -> i64
    ensures { outcome result (reference.new ∷ []) ≡ reference_call line.now reference.old used }
{
    lines::lampbuckle_reference_line(line, reference, used)
}

// The next record of a unit: its 04 line at the front of what is lent, and the next state in the place of the one before. It answers the line's bytes.
#[unsafe(no_mangle)]
pub extern "C" fn lampbuckle_record(
    unit: &[u32],
    reference: &[u8],
    symbols: &[u32],
    counts: &[u32],
    state: &mut [u32],
    line: &[u8],
    out: &mut [u8],
) -> i64
    ensures { outcome result (state.new ∷ out.new ∷ []) ≡ record_call unit.now reference.now symbols.now counts.now state.old line.now out.old }
{
    call::lampbuckle_record(unit, reference, symbols, counts, state, line, out)
}

// The unit line again.
#[unsafe(no_mangle)]
pub extern "C" fn lampbuckle_write_unit(unit: &[u32], out: &mut [u8]) -> i64
    ensures { outcome result (out.new ∷ []) ≡ unit_written unit.now out.old }
{
    write::lampbuckle_write_unit(unit, out)
}

// The 05 line of a refusal.
#[unsafe(no_mangle)]
pub extern "C" fn lampbuckle_write_refused(number: u32, refusal: u32, out: &mut [u8]) -> i64
    ensures { outcome result (out.new ∷ []) ≡ written_call (frame05 number refusal) out.old }
{
    write::lampbuckle_write_refused(number, refusal, out)
}

// The 06 line of a listing that is whole.
#[unsafe(no_mangle)]
pub extern "C" fn lampbuckle_write_done(count: u32, out: &mut [u8]) -> i64
    ensures { outcome result (out.new ∷ []) ≡ written_call (frame06 count) out.old }
{
    write::lampbuckle_write_done(count, out)
}

// One piece more of a found file. It answers 1 where nothing that follows is kept, else 0.
#[unsafe(no_mangle)]
pub extern "C" fn lampbuckle_keep(piece: &[u8], keep: &mut [usize]) -> i64
    ensures { outcome result (keep.new ∷ []) ≡ keep_call piece.now keep.old }
{
    resume::lampbuckle_keep(piece, keep)
}

// Where to go on behind the kept lines from `first` to `last`, in the listing that begins with `listed`.
#[unsafe(no_mangle)]
pub extern "C" fn lampbuckle_place(
    listed: &[u8],
    count: u32,
    counts: &[u32],
    first: &[u8],
    last: &[u8],
    state: &mut [u32],
) -> i64
    ensures { outcome result (state.new ∷ []) ≡ place_call listed.now count counts.now first.now last.now state.old }
{
    resume::lampbuckle_place(listed, count, counts, first, last, state)
}

// Passes over a piece of the unit file until 0A went by as often as is wanted; how often it is still wanted is laid. It answers the bytes that are passed over.
#[unsafe(no_mangle)]
pub extern "C" fn lampbuckle_pass(piece: &[u8], wanted: &mut [usize]) -> i64
    ensures { outcome result (wanted.new ∷ []) ≡ pass_call piece.now wanted.old }
{
    resume::lampbuckle_pass(piece, wanted)
}
