// Who reports: a receiver or a sender.
ghost use Rattle.std.specs.Prelude.{◌≡◌, ◌≤◌, [], length};
ghost use Rattle.rfc3550.specs.Bytes.{put, store};
ghost use Rattle.rfc3550.specs.Packet as rfc;
ghost use Rattle.report_write.specs.Report.{least_of, head_laid};

use utils::writer;

pub trait Reporter: Copy {
    ghost reporter: { Self → rfc.Reporter };

    fn packet_type(self) -> u8
        ensures { result ≡ rfc.type (rfc.report (reporter self) [] []) };

    // How many bytes stand before the blocks.
    fn min_packet_len(self) -> u8
        ensures { result ≡ least_of (reporter self) };

    // Lays what stands between the header and the blocks.
    fn write_info_unchecked(self, buf: &mut [u8])
        requires { least_of (reporter self) ≤ length buf.old }
        ensures { buf.new ≡ store 4 (put (rfc.reporter_widths (reporter self)) (rfc.reporter_fields (reporter self))) buf.old };

    // What stands before so many blocks.
    #[tactic(auto, using(crate::proofs::Reports::reports))]
    #[inline(always)]
    final fn write_head_unchecked(self, buf: &mut [u8], count: usize, padding: u64, size: usize)
        requires { (count ≤ 31) × (least_of (reporter self) ≤ size) × (size ≤ 262144) × (size ≤ length buf.old) }
        ensures { buf.new ≡ head_laid (reporter self) padding count size buf.old }
    {
        writer::write_header_unchecked(buf, padding, count as u8, self.packet_type(), size);
        self.write_info_unchecked(buf);
    }
}
