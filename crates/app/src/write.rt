// APP packets, written (app.rs, `AppBuilder`).
ghost use Rattle.std.specs.Prelude.{◌≡◌, length};
ghost use Rattle.rfc3550.specs.Bytes.{store};
ghost use Rattle.rfc3550.specs.Packet.{layout};
ghost use Rattle.rfc3550.specs.Write.{packet_given};
ghost use Rattle.app.specs.Write.{AppFits, app_given, name_ok};

use crate::App;
use utils::error::RtcpWriteError;
use utils::packet_writer::RtcpPacketWriter;
use utils::writer;

// What an APP is written of. A name shorter than four bytes is filled with zeros.
#[derive(Clone, Copy)]
pub struct AppBuilder<'a> {
    pub subtype: u64,
    pub ssrc: u32,
    pub name: &'a [u8],
    pub data: &'a [u8],
    pub padding: u64,
}

// A name has at most 4 bytes, each ASCII.
fn check_name(name: &[u8]) -> bool
    ensures { result ≡ name_ok name.now }
{
    if App::NAME_LEN < name.len() {
        return false;
    }
    name.iter().all(|b| b.is_ascii())
}

impl<'a> RtcpPacketWriter for AppBuilder<'a> {
    ghost given = { app_given };

    fn packet_type(self) -> u8 {
        App::PACKET_TYPE
    }

    fn padding(self) -> u64 {
        self.padding
    }

    fn has_cname(self) -> bool {
        false
    }

    #[tactic(auto, using(crate::proofs::Writes::writes))]
    #[inline(always)]
    fn size_of(self) -> Option<usize> {
        if (writer::MAX_COUNT as u64) < self.subtype {
            return None;
        }
        if !check_name(self.name) {
            return None;
        }
        let len = self.data.len();
        if len % 4 != 0 {
            return None;
        }
        if !writer::check_padding(self.padding) {
            return None;
        }
        let size = App::MIN_PACKET_LEN + len + self.padding as usize;
        if writer::MAX_PACKET_LEN < size {
            return None;
        }
        Some(size)
    }

    #[tactic(auto, using(crate::proofs::Writes::writes))]
    #[inline(always)]
    fn why_size_unchecked(self) -> RtcpWriteError {
        if (writer::MAX_COUNT as u64) < self.subtype {
            return RtcpWriteError::AppSubtypeOutOfRange {
                subtype: self.subtype,
                max: writer::MAX_COUNT as u8,
            };
        }
        if !check_name(self.name) {
            return RtcpWriteError::InvalidName;
        }
        let len = self.data.len();
        if len % 4 != 0 {
            return RtcpWriteError::DataLen32bitMultiple(len);
        }
        if !writer::check_padding(self.padding) {
            return RtcpWriteError::InvalidPadding {
                padding: self.padding,
            };
        }
        RtcpWriteError::PacketTooLarge
    }

    #[inline(always)]
    fn write_into_unchecked(self, buf: &mut [u8], size: usize)
        requires { AppFits self.subtype self.name.now self.«data».now self.padding size (length buf.old) }
        ensures { buf.new ≡ store 0 (layout (packet_given (app_given self.entry))) buf.old }
    {
        let n = self.name.len();
        let end = size - self.padding as usize;
        writer::write_header_unchecked(
            buf,
            self.padding,
            self.subtype as u8,
            App::PACKET_TYPE,
            size,
        );
        writer::write_u32_unchecked(buf, 4, self.ssrc);
        writer::write_bytes_unchecked(buf, App::NAME, self.name);
        writer::write_zeros_unchecked(buf, App::NAME + n, App::NAME_LEN - n);
        writer::write_bytes_unchecked(buf, App::MIN_PACKET_LEN, self.data);
        writer::write_padding_unchecked(buf, end, self.padding);
    }
}
