// Reports and their blocks.
ghost use Rattle.std.specs.Prelude.{◌≡◌, ◌≤◌};
ghost use Rattle.rfc3550.specs.Answer.{Answer, ok, refused, map_ok};
ghost use Rattle.rfc3550.specs.Read.{RR, SR, read_as, read_block, read_block_at};
ghost use Rattle.utils.specs.Error.{code_refusal, parsed_of};
ghost use Rattle.report.specs.Block.{block_view, lay_blocks};
ghost use Rattle.report.specs.Report.{receiver_view, sender_view, report_blocks};
ghost use Rattle.rtcp.specs.Report.{block_result, rr_result, sr_result, blocks_out, read_both};

use super::refusal::refused;
use super::write_result::RtcpWritten;
use report::receiver::ReceiverReport;
use report::report::Report;
use report::report_block::{LentLists, ReportBlock};
use report::sender::SenderReport;
use utils::error::{Code, RtcpParseError};

#[repr(C)]
#[derive(Clone, Copy, Default)]
pub struct RtcpBlock {
    pub number: u64,
    pub first: u64,
    pub second: u64,
    pub ssrc: u64,
    pub fraction_lost: u64,
    pub cumulative_lost: i32,
    pub extended_sequence_number: u64,
    pub interarrival_jitter: u64,
    pub last_sender_report_timestamp: u64,
    pub delay_since_last_sender_report_timestamp: u64,
}

#[repr(C)]
#[derive(Clone, Copy, Default)]
pub struct RtcpRr {
    pub number: u64,
    pub first: u64,
    pub second: u64,
    pub ssrc: u64,
    pub n_reports: u64,
    pub extension: u64,
    pub extension_len: u64,
    pub body: u64,
    pub padding_len: u64,
}

#[repr(C)]
#[derive(Clone, Copy, Default)]
pub struct RtcpSr {
    pub number: u64,
    pub first: u64,
    pub second: u64,
    pub ssrc: u64,
    pub ntp_timestamp: u64,
    pub rtp_timestamp: u64,
    pub packet_count: u64,
    pub octet_count: u64,
    pub n_reports: u64,
    pub extension: u64,
    pub extension_len: u64,
    pub body: u64,
    pub padding_len: u64,
}

impl From<Result<ReportBlock, RtcpParseError>> for RtcpBlock {
    ghost from_gives = { λ a r. r ≡ block_result (parsed_of a) };

    fn from(answer: Result<ReportBlock, RtcpParseError>) -> RtcpBlock {
        match answer {
            Ok(block) => RtcpBlock {
                ssrc: block.ssrc as u64,
                fraction_lost: block.fraction_lost as u64,
                cumulative_lost: block.cumulative_lost,
                extended_sequence_number: block.extended_sequence_number as u64,
                interarrival_jitter: block.interarrival_jitter as u64,
                last_sender_report_timestamp: block.last_sender_report_timestamp as u64,
                delay_since_last_sender_report_timestamp: block.delay_since_last_sender_report_timestamp as u64,
                ..RtcpBlock::default()
            },
            Err(e) => refused!(RtcpBlock, e),
        }
    }
}

// A report as C gets it: its numbers, by themselves and with its blocks. Stated once, over the kind.
trait RtcpReport: Copy {
    type Parsed: Report;

    // What C gets of the answer.
    ghost shown: { Answer Self.Parsed → Self };

    fn refused(code: Code) -> Self
        ensures { result ≡ shown (refused (code_refusal code)) };

    // The extension's length needs its start.
    fn accepted(report: Self::Parsed) -> Self
        requires { (Self.Parsed.places report).extension ≤ (Self.Parsed.places report).body }
        ensures { result ≡ shown (ok report) };

    #[tactic(auto, using(utils::proofs::Values::values))]
    final fn parse(s: &[u8]) -> Self
        ensures { result ≡ shown (map_ok Self.Parsed.view (read_as Self.Parsed.kind s.now)) }
    {
        match Self::Parsed::read(s) {
            Some(report) => Self::accepted(report),
            None => Self::refused(Code::from(Self::Parsed::why_unchecked(s))),
        }
    }

    // The report's own numbers, and its blocks as report_blocks lays them, in one reading of the packet.
    #[tactic(auto, using(utils::proofs::Values::values))]
    final fn read(s: &[u8], fractions: &mut [u8], losses: &mut [i32], words: &mut [u32]) -> Self
        ensures { (result, fractions.new, losses.new, words.new) ≡ read_both shown (map_ok Self.Parsed.view (read_as Self.Parsed.kind s.now)) (lay_blocks (map_ok report_blocks (read_as Self.Parsed.kind s.now)) fractions.old losses.old words.old) }
    {
        let Some(report) = Self::Parsed::read(s) else {
            return Self::refused(Code::from(Self::Parsed::why_unchecked(s)));
        };
        let n = report.places().n_reports;
        let mut lists = LentLists {
            fractions,
            losses,
            words,
        };
        match lists.list_blocks_unchecked(s, Self::Parsed::MIN_PACKET_LEN, n) {
            Ok(_) => Self::accepted(report),
            Err(e) => Self::refused(Code::from(e)),
        }
    }
}

impl RtcpReport for RtcpRr {
    type Parsed = ReceiverReport;

    ghost shown = { rr_result };

    fn refused(code: Code) -> RtcpRr {
        refused!(RtcpRr, code)
    }

    fn accepted(rr: ReceiverReport) -> RtcpRr {
        RtcpRr {
            ssrc: rr.ssrc as u64,
            n_reports: rr.n_reports as u64,
            extension: rr.extension as u64,
            extension_len: (rr.body - rr.extension) as u64,
            body: rr.body as u64,
            padding_len: rr.padding_len as u64,
            ..RtcpRr::default()
        }
    }
}

impl RtcpReport for RtcpSr {
    type Parsed = SenderReport;

    ghost shown = { sr_result };

    fn refused(code: Code) -> RtcpSr {
        refused!(RtcpSr, code)
    }

    fn accepted(sr: SenderReport) -> RtcpSr {
        RtcpSr {
            ssrc: sr.ssrc as u64,
            ntp_timestamp: sr.ntp_timestamp,
            rtp_timestamp: sr.rtp_timestamp as u64,
            packet_count: sr.packet_count as u64,
            octet_count: sr.octet_count as u64,
            n_reports: sr.n_reports as u64,
            extension: sr.extension as u64,
            extension_len: (sr.body - sr.extension) as u64,
            body: sr.body as u64,
            padding_len: sr.padding_len as u64,
            ..RtcpSr::default()
        }
    }
}

pub fn rtcp_block_parse(s: &[u8]) -> RtcpBlock
    ensures { result ≡ block_result (map_ok block_view (read_block s.now)) }
{
    RtcpBlock::from(ReportBlock::parse(s))
}

pub fn rtcp_rr_parse(s: &[u8]) -> RtcpRr
    ensures { result ≡ rr_result (map_ok receiver_view (read_as RR s.now)) }
{
    RtcpRr::parse(s)
}

pub fn rtcp_sr_parse(s: &[u8]) -> RtcpSr
    ensures { result ≡ sr_result (map_ok sender_view (read_as SR s.now)) }
{
    RtcpSr::parse(s)
}

// The block with an index, from 0.
pub fn rtcp_rr_report_block(s: &[u8], i: u64) -> RtcpBlock
    ensures { result ≡ block_result (map_ok block_view (read_block_at RR s.now i)) }
{
    RtcpBlock::from(ReceiverReport::report_block(s, i as usize))
}

pub fn rtcp_sr_report_block(s: &[u8], i: u64) -> RtcpBlock
    ensures { result ≡ block_result (map_ok block_view (read_block_at SR s.now i)) }
{
    RtcpBlock::from(SenderReport::report_block(s, i as usize))
}

// All blocks, into three lent lists: a fraction and a loss for each, and the five words that follow.
pub fn rtcp_rr_report_blocks(
    s: &[u8],
    fractions: &mut [u8],
    losses: &mut [i32],
    words: &mut [u32],
) -> RtcpWritten
    ensures { (result, fractions.new, losses.new, words.new) ≡ blocks_out (lay_blocks (map_ok report_blocks (read_as RR s.now)) fractions.old losses.old words.old) }
{
    let mut lists = LentLists {
        fractions,
        losses,
        words,
    };
    RtcpWritten::from(ReceiverReport::report_blocks(s, &mut lists))
}

pub fn rtcp_sr_report_blocks(
    s: &[u8],
    fractions: &mut [u8],
    losses: &mut [i32],
    words: &mut [u32],
) -> RtcpWritten
    ensures { (result, fractions.new, losses.new, words.new) ≡ blocks_out (lay_blocks (map_ok report_blocks (read_as SR s.now)) fractions.old losses.old words.old) }
{
    let mut lists = LentLists {
        fractions,
        losses,
        words,
    };
    RtcpWritten::from(SenderReport::report_blocks(s, &mut lists))
}

// The report's own numbers, and its blocks as rtcp_rr_report_blocks lays them, in one reading of the packet.
pub fn rtcp_rr_read(s: &[u8], fractions: &mut [u8], losses: &mut [i32], words: &mut [u32]) -> RtcpRr
    ensures { (result, fractions.new, losses.new, words.new) ≡ read_both rr_result (map_ok receiver_view (read_as RR s.now)) (lay_blocks (map_ok report_blocks (read_as RR s.now)) fractions.old losses.old words.old) }
{
    RtcpRr::read(s, fractions, losses, words)
}

pub fn rtcp_sr_read(s: &[u8], fractions: &mut [u8], losses: &mut [i32], words: &mut [u32]) -> RtcpSr
    ensures { (result, fractions.new, losses.new, words.new) ≡ read_both sr_result (map_ok sender_view (read_as SR s.now)) (lay_blocks (map_ok report_blocks (read_as SR s.now)) fractions.old losses.old words.old) }
{
    RtcpSr::read(s, fractions, losses, words)
}
