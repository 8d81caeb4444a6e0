//! What policy and request files have in common: version byte, body length, body.

ghost use Rattle.std.specs.Prelude.{◌≡◌, ◌+◌, ℕ, drop, IfOk, IfErr};
ghost use Rattle.files.specs.Refusal.{unframed, refused, accepted};
ghost use Rattle.files.specs.Faults.{WholeFile, frame_offset, OfFrame, OfRequestFrame};

use crate::fault::{Fault, PolicyError, RequestError, RequestFault};

/// What is wrong with a frame.
#[derive(Clone, Copy, Debug, PartialEq, Eq)]
pub enum FrameFault {
    Short,
    Version,
    Length,
}

/// Where a frame is at fault.
#[derive(Clone, Copy, Debug, PartialEq, Eq)]
pub struct FrameError {
    pub fault: FrameFault,
    pub place: usize,
}

impl From<FrameError> for PolicyError {
    ghost from_gives = { OfFrame };

    fn from(error: FrameError) -> PolicyError {
        let fault = match error.fault {
            FrameFault::Short => Fault::Short,
            FrameFault::Version => Fault::Version,
            FrameFault::Length => Fault::Length,
        };
        PolicyError {
            fault,
            place: error.place,
        }
    }
}

// The same three cases as for a policy: each kind of file has faults of its own type, so no one
// function gives both.
impl From<FrameError> for RequestError {
    ghost from_gives = { OfRequestFrame };

    fn from(error: FrameError) -> RequestError {
        let fault = match error.fault {
            FrameFault::Short => RequestFault::Short,
            FrameFault::Version => RequestFault::Version,
            FrameFault::Length => RequestFault::Length,
        };
        RequestError {
            fault,
            place: error.place,
        }
    }
}

/// The body of a file whose frame is right.
#[tactic(auto, unfolding(crate::specs::Refusal::unframed))]
pub fn body_of(file: &[u8]) -> Result<&[u8], FrameError>
    ensures whole { IfOk result (λ body. WholeFile file.now × (body.now ≡ drop 3 file.now)) }
    ensures refused { IfErr result (λ e. (first : ℕ) → unframed first file.now (accepted (tt {0}))
        ≡ refused (first + frame_offset e.fault) e.place) }
{
    let [version, high, low, body @ ..] = file else {
        return Err(FrameError {
            fault: FrameFault::Short,
            place: file.len(),
        });
    };
    if *version != 1 {
        return Err(FrameError {
            fault: FrameFault::Version,
            place: 0,
        });
    }
    if usize::from(u16::from_be_bytes([*high, *low])) != body.len() {
        return Err(FrameError {
            fault: FrameFault::Length,
            place: 1,
        });
    }
    Ok(body)
}
