// The compound writer. Its state is four numbers that the caller keeps and lends at each call, with the buffer: the length so far, and three flags
// (padded, cname, closed), set where they are not 0. Later numbers may be added behind them: a caller never looks into the state.
ghost use Rattle.std.specs.Prelude.{◌≡◌, []};
ghost use Rattle.rfc3550.specs.Packet.{receiver, sender};
ghost use Rattle.rfc3550.specs.Write.{give_report, give_sdes, give_bye, give_app};
ghost use Rattle.rfc3550.specs.Writer.{fresh, add, close, call};
ghost use Rattle.report_write.specs.Report.{block_lists};
ghost use Rattle.sdes_write.specs.Packets.{lists};
ghost use Rattle.rtcp.specs.WriteCompound.{writer_in, writer_out, call_with_buffer};

use rtcp::write_compound;
use rtcp::write_compound::RtcpCall;

#[unsafe(no_mangle)]
pub extern "C" fn rtcp_writer_new(writer: &mut [u64; 4])
    ensures { writer.new ≡ writer_out fresh }
{
    write_compound::rtcp_writer_new(writer);
}

#[unsafe(no_mangle)]
pub extern "C" fn rtcp_writer_add_rr(
    writer: &mut [u64; 4],
    buf: &mut [u8],
    ssrc: u32,
    fractions: &[u8],
    losses: &[i32],
    words: &[u32],
    padding: u64,
) -> RtcpCall
    ensures { (result, writer.new, buf.new) ≡ call_with_buffer writer.old (call (add (give_report (receiver ssrc) (block_lists fractions.now losses.now words.now) padding)) (writer_in writer.old) buf.old) }
{
    write_compound::rtcp_writer_add_rr(writer, buf, ssrc, fractions, losses, words, padding)
}

#[unsafe(no_mangle)]
pub extern "C" fn rtcp_writer_add_sr(
    writer: &mut [u64; 4],
    buf: &mut [u8],
    ssrc: u32,
    ntp_timestamp: u64,
    rtp_timestamp: u32,
    packet_count: u32,
    octet_count: u32,
    fractions: &[u8],
    losses: &[i32],
    words: &[u32],
    padding: u64,
) -> RtcpCall
    ensures { (result, writer.new, buf.new) ≡ call_with_buffer writer.old (call (add (give_report (sender ssrc ntp_timestamp rtp_timestamp packet_count octet_count) (block_lists fractions.now losses.now words.now) padding)) (writer_in writer.old) buf.old) }
{
    write_compound::rtcp_writer_add_sr(
        writer,
        buf,
        ssrc,
        ntp_timestamp,
        rtp_timestamp,
        packet_count,
        octet_count,
        fractions,
        losses,
        words,
        padding,
    )
}

#[unsafe(no_mangle)]
pub extern "C" fn rtcp_writer_add_sdes(
    writer: &mut [u64; 4],
    buf: &mut [u8],
    ssrcs: &[u32],
    counts: &[u64],
    types: &[u8],
    prefixes: &[u64],
    values: &[u64],
    bytes: &[u8],
    padding: u64,
) -> RtcpCall
    ensures { (result, writer.new, buf.new) ≡ call_with_buffer writer.old (call (add (give_sdes (lists ssrcs.now counts.now types.now prefixes.now values.now bytes.now) padding)) (writer_in writer.old) buf.old) }
{
    write_compound::rtcp_writer_add_sdes(
        writer, buf, ssrcs, counts, types, prefixes, values, bytes, padding,
    )
}

#[unsafe(no_mangle)]
pub extern "C" fn rtcp_writer_add_bye(
    writer: &mut [u64; 4],
    buf: &mut [u8],
    sources: &[u32],
    reason: &[u8],
    padding: u64,
) -> RtcpCall
    ensures { (result, writer.new, buf.new) ≡ call_with_buffer writer.old (call (add (give_bye sources.now reason.now padding)) (writer_in writer.old) buf.old) }
{
    write_compound::rtcp_writer_add_bye(writer, buf, sources, reason, padding)
}

#[unsafe(no_mangle)]
pub extern "C" fn rtcp_writer_add_app(
    writer: &mut [u64; 4],
    buf: &mut [u8],
    subtype: u64,
    ssrc: u32,
    name: &[u8],
    data: &[u8],
    padding: u64,
) -> RtcpCall
    ensures { (result, writer.new, buf.new) ≡ call_with_buffer writer.old (call (add (give_app subtype ssrc name.now «data».now padding)) (writer_in writer.old) buf.old) }
{
    write_compound::rtcp_writer_add_app(writer, buf, subtype, ssrc, name, data, padding)
}

#[unsafe(no_mangle)]
pub extern "C" fn rtcp_writer_close(writer: &mut [u64; 4]) -> RtcpCall
    ensures { (result, writer.new, []) ≡ call_with_buffer writer.old (call close (writer_in writer.old) []) }
{
    write_compound::rtcp_writer_close(writer)
}
