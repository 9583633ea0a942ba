// APP packets, written.
ghost use Rattle.std.specs.Prelude.{◌≡◌, ℕ};
ghost use Rattle.rfc3550.specs.Write.{give_app, calculate_size, write};
ghost use Rattle.rtcp.specs.WriteResult.{written_result, written_with_buffer};

use rtcp::write_app;
use rtcp::write_result::RtcpWritten;

#[unsafe(no_mangle)]
pub extern "C" fn rtcp_app_write(
    buf: &mut [u8],
    subtype: u64,
    ssrc: u32,
    name: &[u8],
    data: &[u8],
    padding: u64,
) -> RtcpWritten
    ensures { (result, buf.new) ≡ written_with_buffer (write (give_app subtype ssrc name.now «data».now padding) buf.old) }
{
    write_app::rtcp_app_write(buf, subtype, ssrc, name, data, padding)
}

// The size is the same for every SSRC.
#[unsafe(no_mangle)]
pub extern "C" fn rtcp_app_size(subtype: u64, name: &[u8], data: &[u8], padding: u64) -> RtcpWritten
    ensures { (ssrc : ℕ) → result ≡ written_result (calculate_size (give_app subtype ssrc name.now «data».now padding)) }
{
    write_app::rtcp_app_size(subtype, name, data, padding)
}
