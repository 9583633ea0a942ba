// Reports and their blocks.
ghost use Rattle.std.specs.Prelude.{◌≡◌};
ghost use Rattle.rfc3550.specs.Answer.{map_ok};
ghost use Rattle.rfc3550.specs.Read.{RR, SR, read_as, read_block, read_block_at};
ghost use Rattle.report.specs.Block.{block_view, lay_blocks};
ghost use Rattle.report.specs.Report.{receiver_view, sender_view, report_blocks};
ghost use Rattle.rtcp.specs.Report.{block_result, rr_result, sr_result, blocks_out, read_both};

use rtcp::read_report;
use rtcp::read_report::{RtcpBlock, RtcpRr, RtcpSr};
use rtcp::write_result::RtcpWritten;

#[unsafe(no_mangle)]
pub extern "C" fn rtcp_block_parse(s: &[u8]) -> RtcpBlock
    ensures { result ≡ block_result (map_ok block_view (read_block s.now)) }
{
    read_report::rtcp_block_parse(s)
}

#[unsafe(no_mangle)]
pub extern "C" fn rtcp_rr_parse(s: &[u8]) -> RtcpRr
    ensures { result ≡ rr_result (map_ok receiver_view (read_as RR s.now)) }
{
    read_report::rtcp_rr_parse(s)
}

#[unsafe(no_mangle)]
pub extern "C" fn rtcp_sr_parse(s: &[u8]) -> RtcpSr
    ensures { result ≡ sr_result (map_ok sender_view (read_as SR s.now)) }
{
    read_report::rtcp_sr_parse(s)
}

// The block with an index, from 0.
#[unsafe(no_mangle)]
pub extern "C" fn rtcp_rr_report_block(s: &[u8], i: u64) -> RtcpBlock
    ensures { result ≡ block_result (map_ok block_view (read_block_at RR s.now i)) }
{
    read_report::rtcp_rr_report_block(s, i)
}

#[unsafe(no_mangle)]
pub extern "C" fn rtcp_sr_report_block(s: &[u8], i: u64) -> RtcpBlock
    ensures { result ≡ block_result (map_ok block_view (read_block_at SR s.now i)) }
{
    read_report::rtcp_sr_report_block(s, i)
}

// All blocks, into three lent lists: a fraction and a loss for each, and the five words that follow.
#[unsafe(no_mangle)]
pub extern "C" fn rtcp_rr_report_blocks(
    s: &[u8],
    fractions: &mut [u8],
    losses: &mut [i32],
    words: &mut [u32],
) -> RtcpWritten
    ensures { (result, fractions.new, losses.new, words.new) ≡ blocks_out (lay_blocks (map_ok report_blocks (read_as RR s.now)) fractions.old losses.old words.old) }
{
    read_report::rtcp_rr_report_blocks(s, fractions, losses, words)
}

#[unsafe(no_mangle)]
pub extern "C" fn rtcp_sr_report_blocks(
    s: &[u8],
    fractions: &mut [u8],
    losses: &mut [i32],
    words: &mut [u32],
) -> RtcpWritten
    ensures { (result, fractions.new, losses.new, words.new) ≡ blocks_out (lay_blocks (map_ok report_blocks (read_as SR s.now)) fractions.old losses.old words.old) }
{
    read_report::rtcp_sr_report_blocks(s, fractions, losses, words)
}

// The report's own numbers, and its blocks as rtcp_rr_report_blocks lays them, in one reading of the packet.
#[unsafe(no_mangle)]
pub extern "C" fn rtcp_rr_read(
    s: &[u8],
    fractions: &mut [u8],
    losses: &mut [i32],
    words: &mut [u32],
) -> RtcpRr
    ensures { (result, fractions.new, losses.new, words.new) ≡ read_both rr_result (map_ok receiver_view (read_as RR s.now)) (lay_blocks (map_ok report_blocks (read_as RR s.now)) fractions.old losses.old words.old) }
{
    read_report::rtcp_rr_read(s, fractions, losses, words)
}

#[unsafe(no_mangle)]
pub extern "C" fn rtcp_sr_read(
    s: &[u8],
    fractions: &mut [u8],
    losses: &mut [i32],
    words: &mut [u32],
) -> RtcpSr
    ensures { (result, fractions.new, losses.new, words.new) ≡ read_both sr_result (map_ok sender_view (read_as SR s.now)) (lay_blocks (map_ok report_blocks (read_as SR s.now)) fractions.old losses.old words.old) }
{
    read_report::rtcp_sr_read(s, fractions, losses, words)
}
