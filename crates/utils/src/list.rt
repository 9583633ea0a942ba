// Handing numbers over into a lent list.
ghost use Rattle.std.specs.Prelude.{◌≡◌, Err};
ghost use Rattle.rfc3550.specs.Answer.{refused};
ghost use Rattle.utils.specs.Error.{code_refusal};
ghost use Rattle.utils.specs.List.{listed_of};
ghost use Rattle.utils.specs.declared.list.ListError.TheVariants.{Refused};

use crate::error::{Code, RtcpParseError, coded};

// Why no number was laid: the list has fewer than so many, or the bytes are refused.
#[derive(Clone, Copy)]
pub enum ListError {
    TooShort(usize),
    Refused(RtcpParseError),
}

impl From<RtcpParseError> for ListError {
    ghost from_gives = { λ e r. r ≡ Refused e };

    fn from(e: RtcpParseError) -> ListError {
        ListError::Refused(e)
    }
}

impl From<ListError> for Code {
    ghost from_gives = { λ e c. listed_of (Err e) ≡ refused (code_refusal c) };

    fn from(e: ListError) -> Code {
        match e {
            ListError::TooShort(needed) => coded(10, needed as u64, 0),
            ListError::Refused(e) => Code::from(e),
        }
    }
}
