// The compound writer. It holds the length so far, and the buffer is lent again at each call.
ghost use Rattle.std.specs.Prelude.{◌≡◌, ◌||◌, None, [], ◌+◌, ◌^◌, ◌<◌, ltb};
ghost use Rattle.rfc3550.specs.Answer.{ok, refused};
ghost use Rattle.rfc3550.specs.Packet.{is_report};
ghost use Rattle.rfc3550.specs.Writer.{fresh, add, add_tests, close, call};
ghost use Rattle.utils.specs.Writer.{written_of};
ghost use Rattle.utils.specs.Error.{value_in, write_refusal};
ghost use Rattle.compound_write.specs.Writer.{writer_of, call_of, size_added, admitted, advanced};

use report::report::is_report;
use utils::error::RtcpWriteError;
use utils::packet_writer::RtcpPacketWriter;

#[derive(Clone, Copy)]
pub struct Writer {
    pub len: usize,
    pub padded: bool,
    pub cname: bool,
    // No Option: what stands beside it says something in both cases.
    pub closed: bool,
}

// The answer to a call, and the writer after it.
#[derive(Clone, Copy)]
pub struct Call {
    pub answer: Result<(), RtcpWriteError>,
    pub writer: Writer,
}

// Where a packet of this type may stand: behind another, or first if it is a report.
#[tactic(auto, using(crate::proofs::Writers::starts))]
fn may_start(len: usize, packet_type: u8) -> bool
    ensures { result ≡ (ltb 0 len || is_report packet_type) }
{
    0 < len || is_report(packet_type)
}

impl Writer {
    pub fn new() -> Writer
        ensures { writer_of result ≡ fresh }
    {
        Writer {
            len: 0,
            padded: false,
            cname: false,
            closed: false,
        }
    }

    // The size of the packet, where it may be laid down in so much space.
    #[tactic(auto, using(crate::proofs::Writers::admits))]
    #[inline(always)]
    pub fn admit<P: RtcpPacketWriter>(self, packet: P, space: usize) -> Option<usize>
        ensures { result ≡ value_in (size_added (writer_of self) (P.given packet) space) }
    {
        if self.closed || self.padded {
            return None;
        }
        if !may_start(self.len, packet.packet_type()) {
            return None;
        }
        let size = packet.size_of()?;
        if space < self.len {
            return None;
        }
        let room = space - self.len;
        if room < size {
            return None;
        }
        Some(size)
    }

    // Why it may not: 26, 29, 27, the packet's own refusal, then 10. A sum past 64 bits is given as 2^64 - 1.
    #[cold]
    #[tactic(auto, using(crate::proofs::Writers::refuses))]
    #[inline(always)]
    pub fn why_unchecked<P: RtcpPacketWriter>(self, packet: P, space: usize) -> RtcpWriteError
        requires { value_in (add_tests (writer_of self) (P.given packet) space) ≡ None }
        ensures { refused (write_refusal result) ≡ add_tests (writer_of self) (P.given packet) space }
    {
        if self.closed {
            return RtcpWriteError::WriterClosed;
        }
        if self.padded {
            return RtcpWriteError::AlreadyPadded;
        }
        if !may_start(self.len, packet.packet_type()) {
            return RtcpWriteError::FirstPacketNoReport;
        }
        let Some(size) = packet.size_of() else {
            return packet.why_size_unchecked();
        };
        let len = self.len as u64;
        if space < self.len {
            return RtcpWriteError::OutputTooSmall(len);
        }
        RtcpWriteError::OutputTooSmall(len.saturating_add(size as u64))
    }

    // The size of a packet of this type, where it may be laid down in so much space, or why it may not: 26, 29, 27, its own refusal, then 10. A sum past
    // 64 bits is given as 2^64 - 1.
    #[tactic(auto, using(crate::proofs::Checks::checks))]
    pub fn check(
        self,
        packet_type: u8,
        size: Result<usize, RtcpWriteError>,
        space: usize,
    ) -> Result<usize, RtcpWriteError>
        ensures { written_of result ≡ admitted (writer_of self) packet_type (written_of size) space }
    {
        if self.closed {
            return Err(RtcpWriteError::WriterClosed);
        }
        if self.padded {
            return Err(RtcpWriteError::AlreadyPadded);
        }
        if !may_start(self.len, packet_type) {
            return Err(RtcpWriteError::FirstPacketNoReport);
        }
        let size = size?;
        let start = self.len as u64;
        if space < self.len {
            return Err(RtcpWriteError::OutputTooSmall(start));
        }
        if space - self.len < size {
            return Err(RtcpWriteError::OutputTooSmall(start.saturating_add(size as u64)));
        }
        Ok(size)
    }

    // A refusal leaves the writer as it was.
    pub fn refuse(self, e: RtcpWriteError) -> Call
        ensures { call_of result ≡ (refused (write_refusal e), writer_of self) }
    {
        Call {
            answer: Err(e),
            writer: self,
        }
    }

    // A packet of so many bytes was laid down.
    pub fn advance_unchecked(self, size: usize, padding: u64, cname: bool) -> Call
        requires { self.len + size < 2 ^ 64 }
        ensures { call_of result ≡ (ok tt, advanced (writer_of self) size padding cname) }
    {
        Call {
            answer: Ok(()),
            writer: Writer {
                len: self.len + size,
                padded: 0 < padding,
                cname: self.cname || cname,
                ..self
            },
        }
    }

    // Lays the packet behind those that are there.
    #[tactic(auto, using(crate::proofs::Writers::rooms))]
    #[inline(always)]
    pub fn add<P: RtcpPacketWriter>(self, buf: &mut [u8], packet: P) -> Call
        ensures { (written_of result.answer, writer_of result.writer, buf.new) ≡ call (add (P.given packet)) (writer_of self) buf.old }
    {
        let Some(size) = self.admit(packet, buf.len()) else {
            return self.refuse(self.why_unchecked(packet, buf.len()));
        };
        let at = self.len;
        packet.write_into_unchecked(&mut buf[at..], size);
        self.advance_unchecked(size, packet.padding(), packet.has_cname())
    }

    // 26, then 28.
    #[tactic(auto, using(crate::proofs::Writers::closes))]
    pub fn close(self) -> Call
        ensures { (written_of result.answer, writer_of result.writer, []) ≡ call close (writer_of self) [] }
    {
        if self.closed {
            return self.refuse(RtcpWriteError::WriterClosed);
        }
        if self.cname {
            return Call {
                answer: Ok(()),
                writer: Writer {
                    closed: true,
                    ..self
                },
            };
        }
        self.refuse(RtcpWriteError::NoCname)
    }
}
