// Sender reports, written (sender.rs, `SenderReportBuilder`).
ghost use Rattle.report_write.specs.Report.{sender_of};

use crate::builder::ReportBuilder;
use crate::report_block::BlockLists;
use crate::reporter::Reporter;
use report::report::Report;
use report::sender::SenderReport;
use utils::writer;

// Who sends, and what was sent.
#[derive(Clone, Copy)]
pub struct SenderInfo {
    pub ssrc: u32,
    pub ntp_timestamp: u64,
    pub rtp_timestamp: u32,
    pub packet_count: u32,
    pub octet_count: u32,
}

pub type SenderReportBuilder<'a> = ReportBuilder<SenderInfo, BlockLists<'a>>;

impl Reporter for SenderInfo {
    ghost reporter = { sender_of };

    fn packet_type(self) -> u8 {
        SenderReport::PACKET_TYPE
    }

    fn min_packet_len(self) -> u8 {
        SenderReport::MIN_PACKET_LEN as u8
    }

    #[tactic(auto, using(crate::proofs::Reports::reports))]
    #[inline(always)]
    fn write_info_unchecked(self, buf: &mut [u8]) {
        writer::write_u32_unchecked(buf, 4, self.ssrc);
        writer::write_u64_unchecked(buf, 8, self.ntp_timestamp);
        writer::write_u32_unchecked(buf, 16, self.rtp_timestamp);
        writer::write_u32_unchecked(buf, 20, self.packet_count);
        writer::write_u32_unchecked(buf, 24, self.octet_count);
    }
}
