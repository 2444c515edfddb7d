// Where a piece maps, and where the symbols of the next one stand.
ghost use Rattle.std.specs.Prelude.{◌≡◌, ℕ, suc, ◌+◌, ◌^◌, ◌<◌, ◌≤◌};
ghost use Rattle.edits.specs.Pieces.{onwards};
ghost use Rattle.splices.specs.Table62.{by_delta};
ghost use Rattle.splices.specs.Located.{symbol_at, position_in, mapping_of, following};
ghost use Rattle.splices.specs.Code.Mapping.{RoomFor};

use unit::Pairs;

// A piece's position, `above` less `below` since a distance may lead below 0; and how many symbols of subsequences 0, 1 and 3 are behind it.
#[derive(Clone, Copy)]
pub struct Mapping {
    pub above: u64,
    pub below: u64,
    pub codes: usize,
    pub deltas: usize,
    pub places: usize,
}

// Symbol k of subsequence s; 0 where the table does not reach so far.
fn symbol_at(symbols: &[u32], s: usize, k: usize) -> u64
    requires { (s < 8) × (k ≤ 2 ^ 40) }
    ensures { (result ≡ symbol_at symbols.now s k) × (result < 2 ^ 32) }
{
    let at = s * Pairs::SYMBOLS as usize + k;
    symbols.get(at).map_or(0, |&v| u64::from(v))
}

// By a signed distance, from the piece's end in the read on.
fn by_delta(m: Mapping, length: u32, v: u64) -> Mapping
    requires { RoomFor 1 m × (v < 2 ^ 32) }
    ensures { (result ≡ mapping_of (by_delta (onwards length (position_in m)) v) (m.codes + 1) (m.deltas + 1) m.places) × ((left : ℕ) → length ≤ 2 ^ 16 → RoomFor (suc left) m → RoomFor left result) }
{
    let end = m.above + length as u64;
    if v % 2 == 1 {
        return Mapping {
            above: end,
            below: m.below + v / 2,
            codes: m.codes + 1,
            deltas: m.deltas + 1,
            ..m
        };
    }
    Mapping {
        above: end + v / 2,
        codes: m.codes + 1,
        deltas: m.deltas + 1,
        ..m
    }
}

// The next piece's, behind one of so many bases of the read.
pub(crate) fn following_piece(symbols: &[u32], m: Mapping, length: u32) -> Mapping
    requires { RoomFor 1 m }
    ensures { (result ≡ following symbols.now m length) × ((left : ℕ) → length ≤ 2 ^ 16 → RoomFor (suc left) m → RoomFor left result) }
{
    if symbol_at(symbols, 0, m.codes) == 0 {
        let v = symbol_at(symbols, 1, m.deltas);
        return by_delta(m, length, v);
    }
    Mapping {
        above: symbol_at(symbols, 3, m.places),
        below: 0,
        codes: m.codes + 1,
        deltas: m.deltas,
        places: m.places + 1,
    }
}
