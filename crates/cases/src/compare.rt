//! One case: the library and the independent evaluator on the same input, with the same memory lent
//! to both.

use crate::answer::{Answer, Refused, Reply};
use crate::file::File;
use crate::library::{Library, NOT_LENT};
use crate::model::Model;
use crate::operation::{Conversion, Operation};
use arrayvec::ArrayVec;

/// How much memory is lent to an operation, and the byte of which it is full.
#[derive(Clone, Copy)]
pub struct Rooms {
    pub list: usize,
    pub normal: usize,
    pub search: usize,
    pub fill: u8,
}

impl Rooms {
    /// So many bytes, and as many numbers up to 256.
    pub fn of(memory: usize) -> Rooms {
        Rooms {
            list: memory.min(256),
            normal: memory,
            search: memory,
            fill: 165,
        }
    }
}

// It owns files: nothing copies or compares it.
#[derive(Drop)]
pub struct Case {
    pub policy: File,
    pub request: File,
    pub text: File,
    pub rooms: Rooms,
}

/// Memory full of one value, of whose front so much is lent.
// An array, since it is memory that the library is lent: what lies past the room is compared too.
#[derive(Clone, Copy)]
struct Memory<T: Copy, const N: usize> {
    items: [T; N],
    fill: T,
    room: usize,
}

impl<T: Copy + PartialEq, const N: usize> Memory<T, N> {
    fn new(fill: T, room: usize) -> Memory<T, N> {
        Memory {
            items: [fill; N],
            fill,
            room,
        }
    }

    /// What an operation answers that is lent the room.
    fn lend<F: FnOnce(&mut [T]) -> Answer>(&mut self, operation: F) -> Answer
        requires { F.IsAlwaysCallable operation }
    {
        match self.items.get_mut(..self.room) {
            Some(lent) => operation(lent),
            None => Err(NOT_LENT),
        }
    }

    /// Whether the memory begins with what was written, and is as it was lent past that.
    fn has_only(&self, written: &[T]) -> bool {
        self.items
            .strip_prefix(written)
            .is_some_and(|rest| rest.iter().all(|item| *item == self.fill))
    }
}

/// What an operation came to: both answers, and whether all agrees.
#[derive(Clone, Copy)]
pub struct Both {
    pub library: Answer,
    pub model: Answer,
    /// No flag beside a value: it says of the memory what no answer does.
    pub agree: bool,
}

impl Both {
    /// Answers without memory.
    fn of_answers(library: Answer, model: Answer) -> Both {
        Both {
            library,
            model,
            agree: library == model,
        }
    }

    /// Answers of an operation that writes: the library into this memory. A refusal writes nothing.
    fn of_writing<
        T: Copy + PartialEq,
        const N: usize,
        const M: usize,
        F: FnOnce(&mut [T]) -> Answer,
    >(
        mut memory: Memory<T, N>,
        operation: F,
        model: Result<(Reply, ArrayVec<T, M>), Refused>,
    ) -> Both
        requires { F.IsAlwaysCallable operation }
    {
        let library = memory.lend(operation);
        let is_right = match &model {
            Ok((_, written)) => memory.has_only(written.as_slice()),
            Err(_) => memory.has_only(&[]),
        };
        let both = Both::of_answers(library, model.map(|(reply, _)| reply));
        Both {
            agree: both.agree && is_right,
            ..both
        }
    }
}

impl Case {
    pub fn new() -> Case {
        Case {
            policy: File::new(),
            request: File::new(),
            text: File::new(),
            rooms: Rooms::of(0),
        }
    }

    // The two below differ in what they build: each fills its own struct, and shares nothing else.
    fn library(&self) -> Library<'_> {
        Library {
            policy: self.policy.bytes(),
            request: self.request.bytes(),
            text: self.text.bytes(),
        }
    }

    fn model(&self) -> Model<'_> {
        Model {
            policy: self.policy.bytes(),
            request: self.request.bytes(),
        }
    }

    /// The space that is lent to an operation, by its room.
    fn space(&self, room: usize) -> Memory<u8, { File::LONGEST }> {
        Memory::new(self.rooms.fill, room)
    }

    /// The operation on this case's policy, request and memory.
    // One total match on an enum: a table of closures would need one type for operations that take
    // and write different things.
    pub fn run(&self, operation: Operation) -> Both {
        let (library, model) = (self.library(), self.model());
        let Rooms {
            list,
            normal,
            search,
            fill,
        } = self.rooms;
        match operation {
            Operation::Decide => Both::of_answers(library.decide(), model.decide()),
            Operation::DecideFlat => Both::of_answers(library.decide_flat(), model.decide()),
            Operation::Certify => Both::of_answers(library.certify(), model.certify()),
            Operation::ListPairs => Both::of_writing(
                Memory::<u32, 256>::new(u32::from(fill), list),
                |space| library.list_pairs(space),
                model.list_pairs(list),
            ),
            Operation::NormalForm => Both::of_writing(
                self.space(normal),
                |space| library.normal_form(space),
                model.normal_form(normal),
            ),
            Operation::Search => Both::of_writing(
                self.space(search),
                |space| library.search(space),
                model.search(search),
            ),
        }
    }

    /// Whether the space lent to a search begins with these bytes afterwards.
    pub fn search_begins(&self, front: &[u8]) -> bool {
        let library = self.library();
        let mut memory = self.space(self.rooms.search);
        let _ = memory.lend(|space| library.search(space));
        memory.items.starts_with(front)
    }

    /// Whether a conversion between the two forms of this case's policy gives this answer, and with
    /// it the whole other form.
    pub fn converts(&self, conversion: Conversion, wanted: Answer) -> bool {
        let library = self.library();
        let mut memory = self.space(self.rooms.normal);
        let (came, output) = match conversion {
            Conversion::ReadText => {
                let came = memory.lend(|space| library.read_text(space));
                (came, &self.policy)
            }
            Conversion::WriteText => {
                let came = memory.lend(|space| library.write_text(space));
                (came, &self.text)
            }
        };
        came == wanted
            && match came {
                Ok(Reply::Written(bytes)) => {
                    output.is_whole(bytes) && memory.has_only(output.bytes())
                }
                _ => memory.has_only(&[]),
            }
    }
}
