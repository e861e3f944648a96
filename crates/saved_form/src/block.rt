//! Blocks: what is summed, and the checksum of all up to there behind it.
ghost use Rattle.std.specs.Prelude.{◌≡◌, ◌+◌, ◌*◌, ◌≤◌, ◌++◌, length, take, drop};
ghost use Rattle.saved_form.specs.{Crc.{crc64}, Form.{eight}};

use crate::crc::sum_of;

/// The head and each entry are whole blocks of so many bytes.
pub const BLOCK: usize = 48;

/// So many bytes of a block are summed; the checksum stands behind them.
pub const SUMMED: usize = 40;

/// Writes a block at the place, behind those with this checksum. The result is the checksum behind it.
#[inline(always)]
pub(crate) fn put_block(bytes: &mut [u8], at: usize, block: &[u8; SUMMED], sum: u64) -> u64
    requires { at + 48 ≤ length bytes.old }
    ensures bytes { bytes.new
        ≡ take at bytes.old ++ (block.now ++ eight (crc64 sum block.now)) ++ drop (at + 48) bytes.old }
    ensures sum { result ≡ crc64 sum block.now }
{
    let behind = sum_of(sum, block);
    bytes[at..at + SUMMED].copy_from_slice(block);
    bytes[at + SUMMED..at + BLOCK].copy_from_slice(&behind.to_le_bytes());
    behind
}
