// A segment that was read is laid into the rest of the lent line. Nothing can fail here: all was known before the first byte is laid.
ghost use Rattle.std.specs.Prelude.{◌≡◌, ◌++◌, ◌+◌, ◌*◌, ◌≤◌, length};
ghost use Rattle.frame.specs.Hex.{be};
ghost use Rattle.writing.specs.Lay.{Laid};
ghost use Rattle.segment.specs.Segment.{table94, bases_listed, aligned_bytes, unaligned_bytes, segment_bytes};
ghost use Rattle.segment.specs.Code.Ready.{Ready, ReadyAligned, ReadyUnaligned};

use crate::{Placed, Segment, spliced};
use block::unaligned::UnalignedBlock;
use unit::Unit;
use writing::lay::{put_bytes, put_u16};

// A segment, from place `at` on.
pub fn write(
    out: &mut [u8],
    at: usize,
    frame: &[u8],
    unit: Unit,
    reference: &[u8],
    symbols: &[u32],
    segment: Segment,
) -> usize
    requires ready { Ready unit symbols.now frame.now segment }
    requires segment_in_bounds { at + 2 * length (segment_bytes unit reference.now symbols.now frame.now segment) ≤ length out.old }
    ensures { Laid out.old out.new at result (segment_bytes unit reference.now symbols.now frame.now segment) }
{
    match segment {
        Segment::Aligned(p) => write_aligned(out, at, frame, unit, reference, symbols, p),
        Segment::Unaligned(s) => write_unaligned(out, at, frame, unit, s),
        Segment::Absent => at,
    }
}

// What stands before the bases: position, rcomp and read length.
fn head(position: u32, rcomp: u32, bases: u32) -> [u8; 7]
    ensures { result ≡ be 4 position ++ be 1 rcomp ++ be 2 bases }
{
    let [first, second, third, fourth] = position.to_be_bytes();
    let [_, _, _, strand] = rcomp.to_be_bytes();
    let [_, _, high, low] = bases.to_be_bytes();
    [first, second, third, fourth, strand, high, low]
}

fn write_aligned(
    out: &mut [u8],
    at: usize,
    frame: &[u8],
    unit: Unit,
    reference: &[u8],
    symbols: &[u32],
    p: Placed,
) -> usize
    requires ready_aligned { ReadyAligned unit symbols.now frame.now p }
    requires p_in_bounds { at + 2 * length (aligned_bytes unit reference.now symbols.now frame.now p) ≤ length out.old }
    ensures { Laid out.old out.new at result (aligned_bytes unit reference.now symbols.now frame.now p) }
{
    let block = p.block;
    let fields = head(p.position, block.rcomp, block.length);
    let a = put_bytes(out, at, &fields);
    let b = put_read(out, a, frame, unit, reference, symbols, p);
    let c = put_u16(out, b, p.text);
    put_text(out, c, frame, unit, symbols, p)
}

// The read's bases.
fn put_read(
    out: &mut [u8],
    at: usize,
    frame: &[u8],
    unit: Unit,
    reference: &[u8],
    symbols: &[u32],
    p: Placed,
) -> usize
    requires ready_aligned { ReadyAligned unit symbols.now frame.now p }
    requires p_in_bounds { at + 2 * length (bases_listed unit reference.now symbols.now frame.now p) ≤ length out.old }
    ensures { Laid out.old out.new at result (bases_listed unit reference.now symbols.now frame.now p) }
{
    let splices = p.splices;
    if splices.pieces() < 2 {
        return bases::write(
            out,
            at,
            reference,
            unit.first,
            unit.alphabet,
            p.position,
            frame,
            unit.class,
            p.block,
        );
    }
    spliced::put_bases(out, at, frame, unit, reference, symbols, p)
}

// Its E-CIGAR.
fn put_text(
    out: &mut [u8],
    at: usize,
    frame: &[u8],
    unit: Unit,
    symbols: &[u32],
    p: Placed,
) -> usize
    requires ready_aligned { ReadyAligned unit symbols.now frame.now p }
    requires p_in_bounds { at + 2 * length (table94 unit symbols.now frame.now p) ≤ length out.old }
    ensures { Laid out.old out.new at result (table94 unit symbols.now frame.now p) }
{
    let splices = p.splices;
    if splices.pieces() < 2 {
        return ecigar::text::write(out, at, frame, unit.class, unit.alphabet, p.block);
    }
    spliced::put_ecigar(out, at, frame, unit, symbols, p)
}

fn write_unaligned(out: &mut [u8], at: usize, frame: &[u8], unit: Unit, s: UnalignedBlock) -> usize
    requires ready_unaligned { ReadyUnaligned frame.now s }
    requires s_in_bounds { at + 2 * length (unaligned_bytes unit frame.now s) ≤ length out.old }
    ensures { Laid out.old out.new at result (unaligned_bytes unit frame.now s) }
{
    let start = s.at;
    let end = start + s.length as usize;
    let fields = head(0, 0, s.length);
    let a = put_bytes(out, at, &fields);
    let b = bases::letters::put_letters(out, a, frame, unit.alphabet, start, end);
    put_u16(out, b, 0)
}
