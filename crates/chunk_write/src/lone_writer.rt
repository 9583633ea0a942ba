// A lone item or chunk to be written: of these what utils::packet_writer is of packets. No trait above both: each kind of packet would have two impls.
ghost use Rattle.std.specs.Prelude.{◌≡◌, ℕ, List, None, length};
ghost use Rattle.rfc3550.specs.Answer.{Answer, refused};
ghost use Rattle.rfc3550.specs.Bytes.{store};
ghost use Rattle.rfc3550.specs.Write.{written};
ghost use Rattle.utils.specs.Error.{value_in, write_refusal};
ghost use Rattle.utils.specs.Writer.{written_of};
ghost use Rattle.chunk_write.specs.Sizes.{HasRoom};

use utils::error::RtcpWriteError;

pub trait LoneWriter: Copy {
    // The size by what is given, or why it is refused.
    ghost size: { Self → Answer ℕ };

    // The bytes of what is given.
    ghost bytes: { Self → List ℕ };

    // The size; None where it is refused.
    fn size_of(self) -> Option<usize>
        ensures { result ≡ value_in (size self) };

    // Why what has no size is refused.
    fn why_size_unchecked(self) -> RtcpWriteError
        requires { value_in (size self) ≡ None }
        ensures { refused (write_refusal result) ≡ size self };

    // Lays what has a size at the start of buf.
    fn write_into_unchecked(self, buf: &mut [u8])
        requires { HasRoom (size self) (length buf.old) }
        ensures { buf.new ≡ store 0 (bytes self) buf.old };

    // The size, or why it is refused.
    #[tactic(auto, using(utils::proofs::Values::values))]
    #[inline(always)]
    final fn calculate_size(self) -> Result<usize, RtcpWriteError>
        ensures { written_of result ≡ size self }
    {
        match self.size_of() {
            Some(size) => Ok(size),
            None => Err(self.why_size_unchecked()),
        }
    }

    // Writes it at the start of buf.
    #[inline(always)]
    final fn write_into(self, buf: &mut [u8]) -> Result<usize, RtcpWriteError>
        ensures { (written_of result, buf.new) ≡ written (size self) (bytes self) buf.old }
    {
        let size = self.calculate_size()?;
        if buf.len() < size {
            return Err(RtcpWriteError::OutputTooSmall(size as u64));
        }
        self.write_into_unchecked(buf);
        Ok(size)
    }
}
