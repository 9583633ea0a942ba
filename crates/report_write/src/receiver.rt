// Receiver reports, written (receiver.rs, `ReceiverReportBuilder`).
ghost use Rattle.report_write.specs.Report.{receiver_of};

use crate::builder::ReportBuilder;
use crate::report_block::BlockLists;
use crate::reporter::Reporter;
use report::receiver::ReceiverReport;
use report::report::Report;
use utils::writer;

// Who receives.
#[derive(Clone, Copy)]
pub struct ReceiverInfo {
    pub ssrc: u32,
}

pub type ReceiverReportBuilder<'a> = ReportBuilder<ReceiverInfo, BlockLists<'a>>;

impl Reporter for ReceiverInfo {
    ghost reporter = { receiver_of };

    fn packet_type(self) -> u8 {
        ReceiverReport::PACKET_TYPE
    }

    fn min_packet_len(self) -> u8 {
        ReceiverReport::MIN_PACKET_LEN as u8
    }

    #[tactic(auto, using(crate::proofs::Reports::reports))]
    #[inline(always)]
    fn write_info_unchecked(self, buf: &mut [u8]) {
        writer::write_u32_unchecked(buf, 4, self.ssrc);
    }
}
