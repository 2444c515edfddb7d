// A pair line: the symbols of one subsequence, laid into the caller's flat table. Nothing is laid before the whole line is known to be good.
ghost use Rattle.std.specs.Prelude.{◌≡◌, [], ◌∷◌, ◌+◌, ◌*◌, ◌≤◌, length};
ghost use Rattle.frame.specs.Hex.{unhex};
ghost use Rattle.frame.specs.Field.{big_at};
ghost use Rattle.frame.specs.Steps.{stored_at};
ghost use Rattle.front.specs.PairLine.{pair_line, pair_count, pair_symbols, symbol_list, symbol_bytes, pair_head, table_after};

use frame::field::{Cursor, Digits, byte_at, read_u8, read_u16};
use frame::line::line_of;
use refusal::Refusal;
use unit::Pairs;
use unit::kind::Kind;

// The bytes before the symbols.
const HEAD: usize = 4;

// The bytes of a symbol.
const SYMBOL: usize = 4;

// Each number is its name in specs/: proved, and called by nothing.
fn tied() -> [usize; 2]
    ensures { result ≡ pair_head ∷ symbol_bytes ∷ [] }
{
    [HEAD, SYMBOL]
}

// Whether the frame has just so many symbols behind its count.
fn check_symbols(line: &[u8], count: u32, c: Cursor) -> Result<u32, Refusal>
    ensures { result ≡ pair_symbols (unhex line.now) count c.at }
{
    if Pairs::SYMBOLS < count {
        return Err(Refusal::CountOut);
    }
    let at = c.at;
    let bytes = line.len() / 2;
    if bytes < at {
        return Err(Refusal::Misframed);
    }
    let left = bytes - at;
    let wanted = SYMBOL * (count as usize);
    if left < wanted {
        return Err(Refusal::Misframed);
    }
    if wanted < left {
        return Err(Refusal::Misframed);
    }
    Ok(count)
}

// The line without its symbols' values.
fn read_count(line: &[u8], number: u32) -> Result<u32, Refusal>
    ensures { result ≡ pair_count line.now number }
{
    line_of(line)?;
    let frame = Digits(line);
    let (kind, c) = read_u8(frame, Cursor { at: 0 })?;
    if kind != Kind::PAIR {
        return Err(Refusal::Misframed);
    }
    let (sub, d) = read_u8(frame, c)?;
    if sub != number {
        return Err(Refusal::Misframed);
    }
    let (count, e) = read_u16(frame, d)?;
    check_symbols(line, count, e)
}

// The symbol whose bytes start at byte at.
fn symbol_at(line: &[u8], at: usize) -> u32
    requires { at + symbol_bytes ≤ length (unhex line.now) }
    ensures { result ≡ big_at symbol_bytes (unhex line.now) at }
{
    let frame = Digits(line);
    u32::from_be_bytes([
        byte_at(frame, at),
        byte_at(frame, at + 1),
        byte_at(frame, at + 2),
        byte_at(frame, at + 3),
    ])
}

// The first count symbols of the line, into the table from a place on. The flat table with a place in it is what C lends, and what `stored_at` (specs/) speaks of.
fn lay_symbols(line: &[u8], table: &mut [u32], place: usize, count: usize)
    requires count_in_bounds { pair_head + symbol_bytes * count ≤ length (unhex line.now) }
    requires count_in_bounds_2 { place + count ≤ length table.old }
    ensures { table.new ≡ stored_at table.old place (symbol_list count (unhex line.now) pair_head) }
{
    for i in 0..count {
        table[place + i] = symbol_at(line, HEAD + SYMBOL * i);
    }
}

// The line of subsequence number, lent with its 0A: how many symbols it has. The table is the flat one of all subsequences.
pub fn read(line: &[u8], number: u32, table: &mut [u32]) -> Result<u32, Refusal>
    ensures value { result ≡ pair_line line.now number (length table.old) }
    ensures table_after { table.new ≡ table_after line.now number table.old }
{
    if table.len() != Pairs::TABLE {
        return Err(Refusal::CountOut);
    }
    let row = number as usize;
    if Pairs::SUBSEQUENCES <= row {
        return Err(Refusal::Misframed);
    }
    let count = read_count(line, number)?;
    lay_symbols(line, table, row * (Pairs::SYMBOLS as usize), count as usize);
    Ok(count)
}
