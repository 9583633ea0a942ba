// All chunks and items of an SDES packet, handed over at once.
ghost use Rattle.std.specs.Prelude.{◌≡◌};
ghost use Rattle.rfc3550.specs.Answer.{map_ok};
ghost use Rattle.rfc3550.specs.Read.{SDES, read_as};
ghost use Rattle.utils.specs.List.{lay_list};
ghost use Rattle.sdes.specs.ItemRows.{sdes_rows};
ghost use Rattle.rtcp.specs.WriteResult.{written_with_buffer};

use super::write_result::RtcpWritten;

// Rows of five numbers: SSRC, type, place of the value, lengths of prefix and value. A row of type 0 ends each chunk.
pub fn rtcp_sdes_items(s: &[u8], rows: &mut [u32]) -> RtcpWritten
    ensures { (result, rows.new) ≡ written_with_buffer (lay_list (map_ok sdes_rows (read_as SDES s.now)) rows.old) }
{
    RtcpWritten::from(sdes::items::items(s, rows))
}
