// APP packets, written.
ghost use Rattle.std.specs.Prelude.{◌≡◌, ℕ};
ghost use Rattle.rfc3550.specs.Write.{give_app, calculate_size, write};
ghost use Rattle.rtcp.specs.WriteResult.{written_result, written_with_buffer};

use super::write_result::RtcpWritten;
use app::write::AppBuilder;
use utils::packet_writer::RtcpPacketWriter;

pub fn rtcp_app_write(
    buf: &mut [u8],
    subtype: u64,
    ssrc: u32,
    name: &[u8],
    data: &[u8],
    padding: u64,
) -> RtcpWritten
    ensures { (result, buf.new) ≡ written_with_buffer (write (give_app subtype ssrc name.now «data».now padding) buf.old) }
{
    let app = AppBuilder {
        subtype,
        ssrc,
        name,
        data,
        padding,
    };
    RtcpWritten::from(app.write_into(buf))
}

// The size is the same for every SSRC.
#[tactic(auto, using(crate::proofs::WriteResults::sizes))]
pub fn rtcp_app_size(subtype: u64, name: &[u8], data: &[u8], padding: u64) -> RtcpWritten
    ensures { (ssrc : ℕ) → result ≡ written_result (calculate_size (give_app subtype ssrc name.now «data».now padding)) }
{
    let app = AppBuilder {
        subtype,
        ssrc: 0,
        name,
        data,
        padding,
    };
    RtcpWritten::from(app.calculate_size())
}
