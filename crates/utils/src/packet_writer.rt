// One packet to be written, of any kind (lib.rs, `RtcpPacketWriter`).
ghost use Rattle.std.specs.Prelude.{◌≡◌, ◌≤◌, None, length};
ghost use Rattle.rfc3550.specs.Answer.{ok, refused};
ghost use Rattle.rfc3550.specs.Bytes.{store};
ghost use Rattle.rfc3550.specs.Packet.{type, layout};
ghost use Rattle.rfc3550.specs.Write.{Given, packet_given, content_given, padding_given, own_tests, calculate_size, write};
ghost use Rattle.rfc3550.specs.Writer.{gives_cname};
ghost use Rattle.utils.specs.Error.{value_in, write_refusal};
ghost use Rattle.utils.specs.Writer.{written_of};

use crate::error::RtcpWriteError;

// Each kind inlines size_of, why_size_unchecked and write_into_unchecked: a call of one of them keeps the whole struct in memory.
pub trait RtcpPacketWriter: Copy {
    // What a packet of these values is given.
    ghost given: { Self → Given };

    fn packet_type(self) -> u8
        ensures { result ≡ type (content_given (given self)) };

    fn padding(self) -> u64
        ensures { result ≡ padding_given (given self) };

    // The size of the packet; None where it is refused.
    fn size_of(self) -> Option<usize>
        ensures { result ≡ value_in (calculate_size (given self)) };

    // Why a packet that has no size is refused.
    fn why_size_unchecked(self) -> RtcpWriteError
        requires { value_in (calculate_size (given self)) ≡ None }
        ensures { refused (write_refusal result) ≡ calculate_size (given self) };

    // Lays a packet that has this size at the start of buf.
    fn write_into_unchecked(self, buf: &mut [u8], size: usize)
        requires { (calculate_size (given self) ≡ ok size) × (size ≤ length buf.old) }
        ensures { buf.new ≡ store 0 (layout (packet_given (given self))) buf.old };

    // A CNAME is in it.
    fn has_cname(self) -> bool
        requires { own_tests (given self) ≡ ok tt }
        ensures { result ≡ gives_cname (given self) };

    // The size of the packet, or why it is refused.
    #[tactic(auto, using(crate::proofs::Values::values))]
    #[inline(always)]
    final fn calculate_size(self) -> Result<usize, RtcpWriteError>
        ensures { written_of result ≡ calculate_size (given self) }
    {
        match self.size_of() {
            Some(size) => Ok(size),
            None => Err(self.why_size_unchecked()),
        }
    }

    // Writes the packet at the start of buf.
    #[inline(always)]
    final fn write_into(self, buf: &mut [u8]) -> Result<usize, RtcpWriteError>
        ensures { (written_of result, buf.new) ≡ write (given self) buf.old }
    {
        let size = self.calculate_size()?;
        if buf.len() < size {
            return Err(RtcpWriteError::OutputTooSmall(size as u64));
        }
        self.write_into_unchecked(buf, size);
        Ok(size)
    }
}
