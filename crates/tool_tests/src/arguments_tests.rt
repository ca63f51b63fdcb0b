use program_frame::args_given;
use std::alloc::Global;
use std::env::FillError;
use std::rt::Env;

/// A program's name and its arguments, as the system would give them.
#[derive(Drop)]
struct Given {
    args: &'static [&'static [u8]],
}

impl Env for Given {
    fn arg(&self, i: usize, buf: &mut [u8]) -> Result<usize, FillError> {
        let Some(arg) = self.args.get(i) else {
            return Err(FillError::NotPresent);
        };
        if arg.len() > buf.len() {
            return Err(FillError::TooLong);
        }
        buf[..arg.len()].copy_from_slice(arg);
        Ok(arg.len())
    }

    fn var(&self, _name: &str, _buf: &mut [u8]) -> Result<usize, FillError> {
        Err(FillError::NotPresent)
    }

    fn var_at(&self, _i: usize, _buf: &mut [u8]) -> Result<usize, FillError> {
        Err(FillError::NotPresent)
    }
}

/// What a system gives, and what the program takes for its arguments.
#[derive(Clone, Copy)]
struct Row {
    given: &'static [&'static [u8]],
    taken: &'static [&'static str],
}

const ROWS: &[Row] = &[
    Row {
        given: &[b"bspl", b"verify", b"Ping"],
        taken: &["verify", "Ping"],
    },
    Row {
        given: &[b"bspl", b"verify", b"\xff"],
        taken: &[""],
    },
    Row {
        given: &[b"bspl", b"\xe2\x86", b"Ping"],
        taken: &[""],
    },
    Row {
        given: &[b"bspl"],
        taken: &[],
    },
    Row {
        given: &[],
        taken: &[],
    },
];

/// Whether these arguments are taken.
fn are_taken(alloc: Global, args: &'static [&'static [u8]], wanted: &[&str]) -> bool {
    let Ok(taken) = args_given(&(Given { args }, alloc)) else {
        return false;
    };
    let mut pairs = taken.iter().zip(wanted);
    taken.len() == wanted.len() && pairs.all(|(arg, text)| arg.as_bytes() == text.as_bytes())
}

#[test]
fn an_argument_that_is_no_text_leaves_one_empty_argument(rt: HostRuntime) {
    for row in ROWS {
        assert!(rt; are_taken(rt.alloc(), row.given, row.taken));
    }
}
