// Reports, written. The blocks are lent as three lists: a fraction lost and a cumulative lost for each block, and five words.
ghost use Rattle.std.specs.Prelude.{◌≡◌, ℕ};
ghost use Rattle.rfc3550.specs.Packet.{receiver, sender};
ghost use Rattle.rfc3550.specs.Write.{give_report, calculate_size, write};
ghost use Rattle.report_write.specs.Report.{block_lists};
ghost use Rattle.rtcp.specs.WriteResult.{written_result, written_with_buffer};

use super::write_result::RtcpWritten;
use report_write::receiver::{ReceiverInfo, ReceiverReportBuilder};
use report_write::report_block::BlockLists;
use report_write::sender::{SenderInfo, SenderReportBuilder};
use utils::packet_writer::RtcpPacketWriter;

pub fn rtcp_rr_write(
    buf: &mut [u8],
    ssrc: u32,
    fractions: &[u8],
    losses: &[i32],
    words: &[u32],
    padding: u64,
) -> RtcpWritten
    ensures { (result, buf.new) ≡ written_with_buffer (write (give_report (receiver ssrc) (block_lists fractions.now losses.now words.now) padding) buf.old) }
{
    let blocks = BlockLists {
        fractions,
        losses,
        words,
    };
    let rr = ReceiverReportBuilder {
        reporter: ReceiverInfo { ssrc },
        blocks,
        padding,
    };
    RtcpWritten::from(rr.write_into(buf))
}

// The size is the same for every SSRC.
#[tactic(auto, using(crate::proofs::WriteReports::sizes))]
pub fn rtcp_rr_size(fractions: &[u8], losses: &[i32], words: &[u32], padding: u64) -> RtcpWritten
    ensures { (ssrc : ℕ) → result ≡ written_result (calculate_size (give_report (receiver ssrc) (block_lists fractions.now losses.now words.now) padding)) }
{
    let blocks = BlockLists {
        fractions,
        losses,
        words,
    };
    let rr = ReceiverReportBuilder {
        reporter: ReceiverInfo { ssrc: 0 },
        blocks,
        padding,
    };
    RtcpWritten::from(rr.calculate_size())
}

pub fn rtcp_sr_write(
    buf: &mut [u8],
    ssrc: u32,
    ntp_timestamp: u64,
    rtp_timestamp: u32,
    packet_count: u32,
    octet_count: u32,
    fractions: &[u8],
    losses: &[i32],
    words: &[u32],
    padding: u64,
) -> RtcpWritten
    ensures { (result, buf.new) ≡ written_with_buffer (write (give_report (sender ssrc ntp_timestamp rtp_timestamp packet_count octet_count) (block_lists fractions.now losses.now words.now) padding) buf.old) }
{
    let reporter = SenderInfo {
        ssrc,
        ntp_timestamp,
        rtp_timestamp,
        packet_count,
        octet_count,
    };
    let blocks = BlockLists {
        fractions,
        losses,
        words,
    };
    let sr = SenderReportBuilder {
        reporter,
        blocks,
        padding,
    };
    RtcpWritten::from(sr.write_into(buf))
}

// The size is the same for everything that a sender says of itself.
#[tactic(auto, using(crate::proofs::WriteReports::sizes))]
pub fn rtcp_sr_size(fractions: &[u8], losses: &[i32], words: &[u32], padding: u64) -> RtcpWritten
    ensures { (ssrc ntp rtp packets octets : ℕ) → result ≡ written_result (calculate_size (give_report (sender ssrc ntp rtp packets octets) (block_lists fractions.now losses.now words.now) padding)) }
{
    let reporter = SenderInfo {
        ssrc: 0,
        ntp_timestamp: 0,
        rtp_timestamp: 0,
        packet_count: 0,
        octet_count: 0,
    };
    let blocks = BlockLists {
        fractions,
        losses,
        words,
    };
    let sr = SenderReportBuilder {
        reporter,
        blocks,
        padding,
    };
    RtcpWritten::from(sr.calculate_size())
}
