// APP packets.
ghost use Rattle.std.specs.Prelude.{◌≡◌};
ghost use Rattle.rfc3550.specs.Answer.{map_ok};
ghost use Rattle.rfc3550.specs.Read.{APP, read_as};
ghost use Rattle.app.specs.App.{app_view};
ghost use Rattle.rtcp.specs.App.{app_result};

use rtcp::read_app;
use rtcp::read_app::RtcpApp;

#[unsafe(no_mangle)]
pub extern "C" fn rtcp_app_parse(s: &[u8]) -> RtcpApp
    ensures { result ≡ app_result (map_ok app_view (read_as APP s.now)) }
{
    read_app::rtcp_app_parse(s)
}
