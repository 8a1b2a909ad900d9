//! Calls by a session on a map that has a history.

use crate::answer::{Answer, Contents};
use crate::call::{Call, ReaderCall};
use crate::caller::{Caller, Made, Outcome, Returned, value};
use crate::fault::Fault;
use crate::session_call::{OnKey, SessionCall};
use map_reader::Since;
use std::sync::Wait;
use trie_map::{Anything, Reader, Readers, Session, TrieMap};
use write_history::{Author, Front, Naming};

/// The map that the threads share.
pub type ToldMap<J> = TrieMap<u64, u64, Anything, J>;

/// What they share of its readers.
pub type ToldReaders<'m, J, S> = Readers<'m, u64, u64, Anything, J, S>;

/// The session of one thread, and its reader.
#[derive(Drop)]
pub struct Told<'m, J: Naming, S: Since<u64, u64>> {
    session: Session<'m, u64, u64, Anything, J>,
    reader: Reader<'m, u64, u64, Anything, J, S>,
}

impl<'m, J: Naming, S: Since<u64, u64>> Told<'m, J, S> {
    /// What a thread begins with that has seen as much as the front. It signs as nobody.
    pub fn new(
        map: &'m ToldMap<J>,
        readers: &'m ToldReaders<'m, J, S>,
        front: &Front<u64, u64, J>,
    ) -> Told<'m, J, S> {
        Told {
            session: map.session(front.again(), Author::nobody()),
            reader: readers.reader(),
        }
    }

    // Makes the call on the key.
    fn on_key<R: Wait>(&mut self, rt: &R, key: u64, call: OnKey) -> Result<Answer, Fault> {
        match call {
            OnKey::Get => Ok(value(self.session.get(rt, &key)?)),
            OnKey::ContainsKey => Ok(Answer::Done(self.session.contains_key(rt, &key))),
            OnKey::Put(new) => Ok(value(self.session.put(rt, key, new)?)),
            OnKey::PutIfAbsent(new) => Ok(value(self.session.put_if_absent(rt, key, new)?)),
            OnKey::Replace(new) => Ok(value(self.session.replace(rt, key, new)?)),
            OnKey::Remove => Ok(value(self.session.remove(rt, &key)?)),
        }
    }

    // Makes the call.
    fn returned<R: Wait>(&mut self, rt: &R, call: SessionCall) -> Result<Returned, Fault> {
        match call {
            SessionCall::Key(key, call) => Ok(Returned::Answer(self.on_key(rt, key, call)?)),
            SessionCall::Reader(key, call) => {
                let found = self.read(rt, key, call);
                Ok(Returned::Answer(Answer::Value(found)))
            }
            SessionCall::View => Ok(Returned::View(self.session.view(rt)?)),
            SessionCall::Clear => {
                self.session.clear(rt)?;
                Ok(Returned::Answer(Answer::Nothing))
            }
        }
    }
}

impl<'m, J: Naming, S: Since<u64, u64>> Caller for Told<'m, J, S> {
    fn make<R: Wait>(&mut self, rt: &R, call: Call) -> Result<Outcome, Fault> {
        let call = SessionCall::of(call);
        Ok(Outcome {
            made: Made::Session(call),
            returned: self.returned(rt, call)?,
        })
    }

    fn read<R: Wait>(&mut self, rt: &R, key: u64, call: ReaderCall) -> Option<u64> {
        match call {
            ReaderCall::GetCopied => self.reader.get_copied(rt, &key),
            ReaderCall::Read => self
                .reader
                .read(rt, &key, |found| found.map(|value| *value)),
        }
    }

    // A map with a history has no `restore`.
    fn kept(&self) -> Contents {
        Contents::NOTHING
    }

    fn keep<R: Wait>(&mut self, rt: &R) -> Result<(), Fault> {
        let _ = rt;
        Ok(())
    }
}
