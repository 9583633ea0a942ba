// A refusal as C gets it: its three numbers, and 0 in every field that follows. A macro, since each result of C has the three as fields of its own.
macro_rules! refused {
    ($result:ident, $error:expr) => {{
        let code = utils::error::Code::from($error);
        $result {
            number: code.number,
            first: code.first,
            second: code.second,
            ..$result::default()
        }
    }};
}

pub(crate) use refused;
