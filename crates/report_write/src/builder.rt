// A report of any kind, written: over who reports and how its blocks are lent.
ghost use Rattle.std.specs.Prelude.{◌≡◌, length};
ghost use Rattle.rfc3550.specs.Bytes.{store};
ghost use Rattle.rfc3550.specs.Packet.{layout};
ghost use Rattle.rfc3550.specs.Write.{packet_given, give_report};
ghost use Rattle.report_write.specs.Report.{least_of, ReportFits};

use crate::report_block::ReportBlocks;
use crate::reporter::Reporter;
use utils::error::RtcpWriteError;
use utils::packet_writer::RtcpPacketWriter;
use utils::writer;

// What a report is written of.
#[derive(Clone, Copy)]
pub struct ReportBuilder<R, B> {
    pub reporter: R,
    pub blocks: B,
    pub padding: u64,
}

impl<R: Reporter, B: ReportBlocks> RtcpPacketWriter for ReportBuilder<R, B> {
    ghost given = { λ it. give_report (R.reporter it.reporter) (B.lists it.blocks) it.padding };

    fn packet_type(self) -> u8 {
        self.reporter.packet_type()
    }

    fn padding(self) -> u64 {
        self.padding
    }

    fn has_cname(self) -> bool {
        false
    }

    #[tactic(auto, using(crate::proofs::Reports::reports))]
    #[inline(always)]
    fn size_of(self) -> Option<usize> {
        let least = self.reporter.min_packet_len();
        self.blocks.size_of(self.padding, least)
    }

    #[tactic(auto, using(crate::proofs::Reports::reports))]
    #[inline(always)]
    fn why_size_unchecked(self) -> RtcpWriteError {
        self.blocks.why_size_unchecked(self.padding)
    }

    #[tactic(auto, using(crate::proofs::Reports::reports))]
    #[inline(always)]
    fn write_into_unchecked(self, buf: &mut [u8], size: usize)
        requires { ReportFits (least_of (R.reporter self.reporter)) (B.lists self.blocks) self.padding size (length buf.old) }
        ensures { buf.new ≡ store 0 (layout (packet_given (give_report (R.reporter self.reporter) (B.lists self.blocks) self.padding))) buf.old }
    {
        let at = self.reporter.min_packet_len() as usize;
        let end = size - self.padding as usize;
        let count = self.blocks.count();
        self.reporter
            .write_head_unchecked(buf, count, self.padding, size);
        self.blocks.write_blocks_unchecked(buf, at);
        writer::write_padding_unchecked(buf, end, self.padding);
    }
}
