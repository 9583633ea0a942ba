// BYE packets, written.
ghost use Rattle.std.specs.Prelude.{◌≡◌};
ghost use Rattle.rfc3550.specs.Write.{give_bye, calculate_size, write};
ghost use Rattle.rtcp.specs.WriteResult.{written_result, written_with_buffer};

use super::write_result::RtcpWritten;
use bye::write::ByeBuilder;
use utils::packet_writer::RtcpPacketWriter;

pub fn rtcp_bye_write(buf: &mut [u8], sources: &[u32], reason: &[u8], padding: u64) -> RtcpWritten
    ensures { (result, buf.new) ≡ written_with_buffer (write (give_bye sources.now reason.now padding) buf.old) }
{
    let bye = ByeBuilder {
        sources,
        reason,
        padding,
    };
    RtcpWritten::from(bye.write_into(buf))
}

pub fn rtcp_bye_size(sources: &[u32], reason: &[u8], padding: u64) -> RtcpWritten
    ensures { result ≡ written_result (calculate_size (give_bye sources.now reason.now padding)) }
{
    let bye = ByeBuilder {
        sources,
        reason,
        padding,
    };
    RtcpWritten::from(bye.calculate_size())
}
