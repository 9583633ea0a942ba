// What every write, every size and every call that fills a lent list hands over.
ghost use Rattle.std.specs.Prelude.{◌≡◌};
ghost use Rattle.utils.specs.List.{listed_of};
ghost use Rattle.utils.specs.Writer.{written_of};
ghost use Rattle.rtcp.specs.WriteResult.{written_result};

use super::refusal::refused;
use utils::error::RtcpWriteError;
use utils::list::ListError;

#[repr(C)]
#[derive(Clone, Copy, Default)]
pub struct RtcpWritten {
    pub number: u64,
    pub first: u64,
    pub second: u64,
    pub size: u64,
}

impl From<Result<usize, RtcpWriteError>> for RtcpWritten {
    ghost from_gives = { λ w r. r ≡ written_result (written_of w) };

    fn from(written: Result<usize, RtcpWriteError>) -> RtcpWritten {
        match written {
            Ok(size) => RtcpWritten {
                size: size as u64,
                ..RtcpWritten::default()
            },
            Err(e) => refused!(RtcpWritten, e),
        }
    }
}

impl From<Result<usize, ListError>> for RtcpWritten {
    ghost from_gives = { λ w r. r ≡ written_result (listed_of w) };

    fn from(listed: Result<usize, ListError>) -> RtcpWritten {
        match listed {
            Ok(len) => RtcpWritten {
                size: len as u64,
                ..RtcpWritten::default()
            },
            Err(why) => refused!(RtcpWritten, why),
        }
    }
}
