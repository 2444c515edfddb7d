// The arrays that the programs lend to what reads and writes.
ghost use Rattle.std.specs.Prelude.{◌≡◌, length};

// As long as the longest path that is taken.
pub fn path_buffer() -> [u8; 4_096]
    ensures { length result ≡ 4096 }
{
    [0; 4_096]
}

// A file is read in pieces of so many bytes, and the listing is written in such.
pub fn piece_buffer() -> [u8; 65_536]
    ensures { length result ≡ 65536 }
{
    [0; 65_536]
}
