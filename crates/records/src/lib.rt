// Who reports, of either kind in one type, and the blocks of a report, lent as one run of records: they are read where they stand, one at a time, without
// a copy. All else of a report that is made of them is `report_write`'s.
#![tactic(auto)]

ghost use Rattle.std.specs.Prelude.{◌≡◌};
ghost use Rattle.rfc3550.specs.Loss.{no_loss};
ghost use Rattle.records.specs.Records.{reporter_of, lists_in, later_of, tested_of};

use report::report_block::ReportBlock;
use report_write::builder::ReportBuilder;
use report_write::receiver::ReceiverInfo;
use report_write::report_block;
use report_write::report_block::ReportBlocks;
use report_write::reporter::Reporter as _;
use report_write::sender::SenderInfo;
use utils::error::RtcpWriteError;

// Who reports: a receiver, by its SSRC, or a sender.
#[derive(Clone, Copy)]
pub enum Reporter {
    Receiver(u32),
    Sender(SenderInfo),
}

impl report_write::reporter::Reporter for Reporter {
    ghost reporter = { reporter_of };

    fn packet_type(self) -> u8 {
        match self {
            Reporter::Receiver(ssrc) => ReceiverInfo { ssrc }.packet_type(),
            Reporter::Sender(info) => info.packet_type(),
        }
    }

    fn min_packet_len(self) -> u8 {
        match self {
            Reporter::Receiver(ssrc) => ReceiverInfo { ssrc }.min_packet_len(),
            Reporter::Sender(info) => info.min_packet_len(),
        }
    }

    #[inline(always)]
    fn write_info_unchecked(self, buf: &mut [u8]) {
        match self {
            Reporter::Receiver(ssrc) => ReceiverInfo { ssrc }.write_info_unchecked(buf),
            Reporter::Sender(info) => info.write_info_unchecked(buf),
        }
    }
}

#[derive(Clone, Copy)]
pub struct Records<'a> {
    pub blocks: &'a [ReportBlock],
}

// A report of them.
pub type RecordsBuilder<'a, R> = ReportBuilder<R, Records<'a>>;

// Of a loss and the next block's, the first if it does not fit.
fn later_loss(loss: i32, b: ReportBlock) -> i32
    ensures { result ≡ later_of loss b }
{
    report_block::later_loss(loss, b.cumulative_lost)
}

// The loss that decides for all blocks: the first that does not fit 24 bits, or else the last one. By hand, as over a lent list of losses: a trait of what has
// a loss would be longer than the two.
fn tested_loss(blocks: &[ReportBlock]) -> i32
    ensures { result ≡ tested_of no_loss blocks.now }
{
    blocks.iter().fold(0, |loss, b| later_loss(loss, *b))
}

impl ReportBlocks for Records<'_> {
    ghost lists = { lists_in };

    #[tactic(auto, using(crate::proofs::Reports::records))]
    fn count(self) -> usize {
        self.blocks.len()
    }

    #[tactic(auto, using(crate::proofs::Reports::records))]
    fn size_of(self, padding: u64, least: u8) -> Option<usize> {
        report_block::size_of_count(self.blocks.len(), tested_loss(self.blocks), padding, least)
    }

    #[cold]
    #[tactic(auto, using(crate::proofs::Reports::records))]
    fn why_size_unchecked(self, padding: u64) -> RtcpWriteError {
        report_block::why_count_unchecked(self.blocks.len(), tested_loss(self.blocks), padding)
    }

    #[tactic(auto, using(crate::proofs::Reports::records))]
    fn write_blocks_unchecked(self, buf: &mut [u8], at: usize) {
        for (i, block) in self.blocks.iter().enumerate() {
            report_block::write_block_unchecked(buf, at + i * ReportBlock::EXPECTED_SIZE, *block);
        }
    }
}
