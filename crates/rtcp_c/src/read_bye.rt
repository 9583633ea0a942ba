// BYE packets.
ghost use Rattle.std.specs.Prelude.{◌≡◌};
ghost use Rattle.rfc3550.specs.Answer.{map_ok};
ghost use Rattle.rfc3550.specs.Read.{BYE, read_as, read_source_at};
ghost use Rattle.bye.specs.Bye.{bye_view};
ghost use Rattle.rtcp.specs.Bye.{bye_result, source_result};

use rtcp::read_bye;
use rtcp::read_bye::{RtcpBye, RtcpSource};

#[unsafe(no_mangle)]
pub extern "C" fn rtcp_bye_parse(s: &[u8]) -> RtcpBye
    ensures { result ≡ bye_result (map_ok bye_view (read_as BYE s.now)) }
{
    read_bye::rtcp_bye_parse(s)
}

// The source with an index, from 0.
#[unsafe(no_mangle)]
pub extern "C" fn rtcp_bye_source(s: &[u8], i: u64) -> RtcpSource
    ensures { result ≡ source_result (read_source_at s.now i) }
{
    read_bye::rtcp_bye_source(s, i)
}
