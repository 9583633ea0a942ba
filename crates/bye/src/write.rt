// BYE packets, written (bye.rs, `ByeBuilder`).
#![tactic(auto, using(crate::proofs::Writes::writes))]

ghost use Rattle.std.specs.Prelude.{◌≡◌, ◌+◌, ◌*◌, ◌≤◌, length};
ghost use Rattle.rfc3550.specs.Bytes.{store};
ghost use Rattle.rfc3550.specs.Packet.{layout, leaving_bytes};
ghost use Rattle.rfc3550.specs.Write.{leaving_of, packet_given};
ghost use Rattle.bye.specs.Write.{bye_given, sources_bytes, ByeFits};

use crate::Bye;
use utils::error::RtcpWriteError;
use utils::packet_writer::RtcpPacketWriter;
use utils::writer;

const MAX_REASON_LEN: usize = 255;

// What a BYE is written of. An empty reason is not written.
#[derive(Clone, Copy)]
pub struct ByeBuilder<'a> {
    pub sources: &'a [u32],
    pub reason: &'a [u8],
    pub padding: u64,
}

fn write_sources(buf: &mut [u8], at: usize, sources: &[u32])
    requires { at + length sources.now * 4 ≤ length buf.old }
    ensures { buf.new ≡ store at (sources_bytes sources.now) buf.old }
{
    for (i, source) in sources.iter().enumerate() {
        writer::write_u32_unchecked(buf, at + i * 4, *source);
    }
}

// The bytes that a reason takes, with its length and the zeros to the boundary.
fn reason_size(reason: &[u8]) -> usize
    requires { length reason.now ≤ 255 }
    ensures { (result ≡ length (leaving_bytes (leaving_of reason.now))) × (result ≤ 256) }
{
    let len = reason.len();
    if len == 0 {
        return 0;
    }
    (len + 4) / 4 * 4
}

fn write_reason(buf: &mut [u8], at: usize, reason: &[u8])
    requires { (length reason.now ≤ 255) × (at + length (leaving_bytes (leaving_of reason.now)) ≤ length buf.old) }
    ensures { buf.new ≡ store at (leaving_bytes (leaving_of reason.now)) buf.old }
{
    let len = reason.len();
    if len == 0 {
        return;
    }
    buf[at] = len as u8;
    writer::write_bytes_unchecked(buf, at + 1, reason);
    writer::write_zeros_unchecked(buf, at + 1 + len, (4 - (1 + len) % 4) % 4);
}

impl<'a> RtcpPacketWriter for ByeBuilder<'a> {
    ghost given = { bye_given };

    fn packet_type(self) -> u8 {
        Bye::PACKET_TYPE
    }

    fn padding(self) -> u64 {
        self.padding
    }

    fn has_cname(self) -> bool {
        false
    }

    #[inline(always)]
    fn size_of(self) -> Option<usize> {
        let count = self.sources.len();
        if writer::MAX_COUNT < count {
            return None;
        }
        if !writer::check_padding(self.padding) {
            return None;
        }
        if MAX_REASON_LEN < self.reason.len() {
            return None;
        }
        let size = Bye::MIN_PACKET_LEN + count * 4 + reason_size(self.reason);
        Some(size + self.padding as usize)
    }

    #[inline(always)]
    fn why_size_unchecked(self) -> RtcpWriteError {
        let count = self.sources.len();
        if writer::MAX_COUNT < count {
            return RtcpWriteError::TooManySources {
                count,
                max: writer::MAX_COUNT as u8,
            };
        }
        if !writer::check_padding(self.padding) {
            return RtcpWriteError::InvalidPadding {
                padding: self.padding,
            };
        }
        RtcpWriteError::ReasonLenTooLarge {
            len: self.reason.len(),
            max: MAX_REASON_LEN as u8,
        }
    }

    #[inline(always)]
    fn write_into_unchecked(self, buf: &mut [u8], size: usize)
        requires { ByeFits self.sources.now self.reason.now self.padding size (length buf.old) }
        ensures { buf.new ≡ store 0 (layout (packet_given (bye_given self.entry))) buf.old }
    {
        let count = self.sources.len();
        let end = size - self.padding as usize;
        writer::write_header_unchecked(buf, self.padding, count as u8, Bye::PACKET_TYPE, size);
        write_sources(buf, Bye::MIN_PACKET_LEN, self.sources);
        write_reason(buf, Bye::MIN_PACKET_LEN + count * 4, self.reason);
        writer::write_padding_unchecked(buf, end, self.padding);
    }
}
