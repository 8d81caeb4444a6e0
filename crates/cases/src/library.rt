//! The operations by the library, on the memory that they are lent. All that this program knows of
//! the library's face is here.

use crate::answer::{Answer, Refused, Reply};
use ptacl::DecisionSet;
use sinkheron::{Refusal, Verdict};

/// Less memory is there than is to be lent. No operation gives this answer.
// A number all the same: a line of the fixed cases may ask for it, and passes if it does.
pub const NOT_LENT: Refused = Refused {
    number: 99,
    place: 0,
};

// A refusal that is built, not an enum of this program's own.
impl From<Refusal> for Refused {
    fn from(refusal: Refusal) -> Refused {
        Refused {
            number: usize::from(refusal.number()),
            place: refusal.place(),
        }
    }
}

/// The files of a case, as the library takes them.
#[derive(Clone, Copy)]
pub struct Library<'a> {
    pub policy: &'a [u8],
    pub request: &'a [u8],
    pub text: &'a [u8],
}

fn set_of(decision: Result<DecisionSet, Refusal>) -> Answer {
    Ok(Reply::Set(usize::from(decision?.code)))
}

fn written(bytes: Result<usize, Refusal>) -> Answer {
    Ok(Reply::Written(bytes?))
}

// Each method names one operation and what its number counts: there is no more for them to share.
impl<'a> Library<'a> {
    pub fn decide(self) -> Answer {
        set_of(sinkheron::decide(self.policy, self.request))
    }

    pub fn decide_flat(self) -> Answer {
        set_of(sinkheron::decide_flat(self.policy, self.request))
    }

    pub fn list_pairs(self, space: &mut [u32]) -> Answer {
        Ok(Reply::Pairs(sinkheron::list_pairs(self.policy, space)?))
    }

    pub fn normal_form(self, space: &mut [u8]) -> Answer {
        written(sinkheron::normal_form(self.policy, self.request, space))
    }

    pub fn read_text(self, space: &mut [u8]) -> Answer {
        written(sinkheron::read_text(self.text, space))
    }

    pub fn write_text(self, space: &mut [u8]) -> Answer {
        written(sinkheron::write_text(self.policy, space))
    }

    pub fn certify(self) -> Answer {
        let rule = sinkheron::certify(self.policy)?;
        Ok(Reply::Rule(rule.map_or(0, |rule| usize::from(rule.number()))))
    }

    pub fn search(self, space: &mut [u8]) -> Answer {
        Ok(match sinkheron::search(self.policy, space)? {
            Verdict::Resistant { pairs } => Reply::Pairs(pairs),
            Verdict::Exposed { pairs, m, i, bytes } => Reply::Exposed { pairs, m, i, bytes },
        })
    }
}
