//! The report on a policy file, which it reads from standard input: the policy's pairs, its
//! certificate, and what the search finds.
#![tactic(auto)]

use arrayvec::ArrayVec;
use files::Pair;
use sinkheron::Verdict;
use std::io;
use std::io::Read;

// The arrays here are a pair's four bytes, and memory lent to an operation, each as long as it can
// need: a Vec would first be filled with as many zeros, and that can fail.

/// The most bytes that an input may have.
const LONGEST: usize = 4096;

/// A policy that was read, with the list of its pairs, each as name * 65536 + value.
#[derive(Clone, Copy)]
struct Listed<'a> {
    policy: &'a [u8],
    list: &'a [u32],
}

impl<'a> Listed<'a> {
    /// The pair of this name with the smallest value that is not on the list. Since the list
    /// ascends, one pass finds it; it has at most 254 pairs, so no value is the last.
    fn unlisted(self, name: u16) -> Pair {
        let mut free = Pair { name, value: 0 };
        for number in self.list {
            if *number == u32::from(free) {
                free.value = free.value.saturating_add(1);
            }
        }
        free
    }

    /// Whether it is its name's fresh pair. A value that is not on the list is not named, so the
    /// normal form of the request that holds this one pair is the fresh pair alone: a file of seven
    /// bytes, of which the last two are the fresh value. The policy was read and the request is in
    /// form, so none of this is refused.
    fn is_fresh(self, pair: Pair) -> bool {
        let [a, b, c, d] = <[u8; 4]>::from(self.unlisted(pair.name));
        let mut file = [0; 7];
        sinkheron::normal_form(self.policy, &[1, 0, 4, a, b, c, d], &mut file).is_ok()
            && pair.value == u16::from_be_bytes([file[5], file[6]])
    }

    fn print_pairs(self, rt: &impl Print) -> io::Result<()> {
        println!(rt; "pairs {}", self.list.len())?;
        for (i, number) in self.list.iter().enumerate() {
            let pair = Pair::from(number.to_be_bytes());
            let kind = if self.is_fresh(pair) {
                "fresh"
            } else {
                "named"
            };
            println!(rt; "pair {i} {} {} {kind}", pair.name, pair.value)?;
        }
        Ok(())
    }

    fn print_certificate(self, rt: &impl Print) -> io::Result<()> {
        match sinkheron::certify(self.policy) {
            Ok(Some(rule)) => println!(rt; "certificate {}", rule.number()),
            Ok(None) => println!(rt; "certificate 0"),
            Err(refusal) => println!(rt; "{refusal}"),
        }
    }

    fn print_verdict(self, rt: &impl Print) -> io::Result<()> {
        let mut space = [0; 130];
        match sinkheron::search(self.policy, &mut space) {
            Ok(Verdict::Resistant { .. }) => println!(rt; "resistant"),
            Ok(Verdict::Exposed { m, i, .. }) => println!(rt; "exposed {m} hides {i}"),
            Err(refusal) => println!(rt; "{refusal}"),
        }
    }

    fn print(self, rt: &impl Print) -> io::Result<()> {
        self.print_pairs(rt)?;
        self.print_certificate(rt)?;
        self.print_verdict(rt)
    }
}

fn report(rt: &impl Print, policy: &[u8]) -> io::Result<()> {
    let mut pairs = [0; 254];
    match sinkheron::list_pairs(policy, &mut pairs) {
        Ok(count) => {
            let list = &pairs[..count];
            Listed { policy, list }.print(rt)
        }
        Err(refusal) => println!(rt; "{refusal}"),
    }
}

fn main(rt: HostRuntime) -> io::Result<()> {
    // One byte more than is taken, so that an input over the limit shows. Not a Vec: a report does
    // not run out of memory.
    let mut input = ArrayVec::<u8, 4097>::new();
    io::copy(&mut rt.reader().take(4097), &mut input)?;
    if input.len() > LONGEST {
        println!(&rt; "too long")
    } else {
        report(&rt, input.as_slice())
    }
}
