//! The operations by the independent evaluator; what both engines of decide answer is one of them.
//! An operation that writes gives what it writes beside its reply.

use crate::answer::{Answer, Refused, Reply};
use crate::file::File;
use crate::request;
use crate::subsets::Subsets;
use crate::term::Policy;
use arrayvec::ArrayVec;

/// The files of a case, as the evaluator takes them.
#[derive(Clone, Copy)]
pub struct Model<'a> {
    pub policy: &'a [u8],
    pub request: &'a [u8],
}

impl<'a> Model<'a> {
    pub fn decide(self) -> Answer {
        let policy = Policy::read(self.policy)?;
        let held = request::read(self.request)?;
        Ok(Reply::Set(policy.values(held.as_slice()).code()))
    }

    pub fn list_pairs(self, room: usize) -> Result<(Reply, ArrayVec<u32, 510>), Refused> {
        let pairs = Policy::read(self.policy)?.pairs();
        if room < pairs.len() {
            return Err(Refused::new(13, 0));
        }
        let mut numbers = ArrayVec::<u32, 510>::new();
        for pair in &pairs {
            let _ = numbers.try_push(u32::from(*pair));
        }
        Ok((Reply::Pairs(pairs.len()), numbers))
    }

    pub fn normal_form(
        self,
        room: usize,
    ) -> Result<(Reply, ArrayVec<u8, { File::LONGEST }>), Refused> {
        let policy = Policy::read(self.policy)?;
        let held = request::read(self.request)?;
        let kept = policy.normal_form(held.as_slice());
        let mut written = ArrayVec::new();
        request::write(kept.as_slice(), &mut written);
        if room < written.len() {
            return Err(Refused::new(13, 0));
        }
        Ok((Reply::Written(written.len()), written))
    }

    pub fn certify(self) -> Answer {
        let policy = Policy::read(self.policy)?;
        Ok(Reply::Rule(policy.certificate().map_or(0, usize::from)))
    }

    pub fn search(self, room: usize) -> Result<(Reply, ArrayVec<u8, { File::LONGEST }>), Refused> {
        let policy = Policy::read(self.policy)?;
        let pairs = policy.pairs();
        if pairs.len() > 16 {
            return Err(Refused::new(12, 0));
        }
        if room < 130 {
            return Err(Refused::new(13, 0));
        }
        let subsets = Subsets::of(pairs.as_slice());
        let mut written = ArrayVec::new();
        let Some(exposure) = subsets.search(&policy) else {
            return Ok((Reply::Pairs(pairs.len()), written));
        };
        for request in &subsets.requests(exposure) {
            request::write(request.as_slice(), &mut written);
        }
        let reply = Reply::Exposed {
            pairs: pairs.len(),
            m: exposure.m,
            i: exposure.i,
            bytes: written.len(),
        };
        Ok((reply, written))
    }
}
