//! Calls on a map that has no history.

use crate::answer::{Answer, Contents};
use crate::call::{Call, KeyCall, MapCall, ReaderCall};
use crate::caller::{Caller, Made, Outcome, Returned, value};
use crate::fault::Fault;
use std::sync::Wait;
use trie_map::{NoMemory, Reader, Readers, TrieMap, View};

/// The map that the threads share.
pub type Map = TrieMap<u64, u64>;

/// What one thread calls: the map, its reader of it, and a view that a `restore` puts back.
#[derive(Drop)]
pub struct Plain<'m> {
    map: &'m Map,
    reader: Reader<'m, u64, u64>,
    view: View<u64, u64>,
}

impl<'m> Plain<'m> {
    /// What a thread begins with.
    pub fn new<R: Wait>(
        rt: &R,
        map: &'m Map,
        readers: &'m Readers<'m, u64, u64>,
    ) -> Result<Plain<'m>, NoMemory> {
        Ok(Plain {
            map,
            reader: readers.reader(),
            view: map.view(rt)?,
        })
    }

    // Makes the call.
    fn returned<R: Wait>(&mut self, rt: &R, call: Call) -> Result<Returned, Fault> {
        match call {
            Call::Key(key, call) => Ok(Returned::Answer(on_key(rt, self.map, key, call)?)),
            Call::Reader(key, call) => {
                let found = self.read(rt, key, call);
                Ok(Returned::Answer(Answer::Value(found)))
            }
            Call::Map(call) => self.on_map(rt, call),
        }
    }

    // Makes the call on the whole map.
    fn on_map<R: Wait>(&self, rt: &R, call: MapCall) -> Result<Returned, Fault> {
        match call {
            MapCall::View => Ok(Returned::View(self.map.view(rt)?)),
            MapCall::Snapshot => Ok(Returned::Snapshot(self.map.snapshot(rt)?)),
            MapCall::Len => Ok(Returned::Answer(Answer::Pairs(self.map.len(rt)))),
            MapCall::Clear => {
                self.map.clear(rt)?;
                Ok(Returned::Answer(Answer::Nothing))
            }
            // They are those of the view.
            MapCall::Restore(_) => Ok(Returned::View(self.map.restore(rt, &self.view)?)),
        }
    }
}

impl<'m> Caller for Plain<'m> {
    fn make<R: Wait>(&mut self, rt: &R, call: Call) -> Result<Outcome, Fault> {
        Ok(Outcome {
            made: Made::Plain(call),
            returned: self.returned(rt, call)?,
        })
    }

    fn read<R: Wait>(&mut self, rt: &R, key: u64, call: ReaderCall) -> Option<u64> {
        match call {
            ReaderCall::GetCopied => self.reader.get_copied(rt, &key),
            ReaderCall::Read => self
                .reader
                .read(rt, &key, |found| found.map(|value| *value)),
        }
    }

    fn kept(&self) -> Contents {
        Contents::of_view(&self.view)
    }

    fn keep<R: Wait>(&mut self, rt: &R) -> Result<(), Fault> {
        self.view = self.map.view(rt)?;
        Ok(())
    }
}

// Makes the call on the key.
fn on_key<R: Wait>(rt: &R, map: &Map, key: u64, call: KeyCall) -> Result<Answer, Fault> {
    match call {
        KeyCall::Get => Ok(value(map.get(rt, &key)?)),
        KeyCall::GetCopied => Ok(Answer::Value(map.get_copied(rt, &key))),
        KeyCall::Read => Ok(Answer::Value(map.read(rt, &key, |found| found.map(|value| *value)))),
        KeyCall::Put(new) => Ok(value(map.put(rt, key, new)?)),
        KeyCall::PutIfAbsent(new) => Ok(value(map.put_if_absent(rt, key, new)?)),
        KeyCall::Replace(new) => Ok(value(map.replace(rt, key, new)?)),
        KeyCall::ReplaceIf(old, new) => Ok(Answer::Done(map.replace_if(rt, key, &old, new)?)),
        KeyCall::Remove => Ok(value(map.remove(rt, &key)?)),
        KeyCall::RemoveIf(old) => Ok(Answer::Done(map.remove_if(rt, &key, &old)?)),
        KeyCall::RemoveWhereOdd => Ok(value(map.remove_where(rt, &key, |value| *value % 2 == 1)?)),
        KeyCall::Update(by) => Ok(value(map.update(rt, key, |old| Some(raised(old, by)))?)),
        KeyCall::UpdateWith(by) => {
            let made = map.update_with(rt, key, |old| (Some(raised(old, by)), raised(old, by)))?;
            Ok(Answer::Value(Some(made)))
        }
        KeyCall::GetOrElseUpdate(new) => {
            let found = map.get_or_else_update(rt, key, || new)?;
            Ok(Answer::Value(Some(*found)))
        }
        KeyCall::TryGetOrElseUpdate(new) => {
            let found = map.try_get_or_else_update(rt, key, || even(new))?;
            Ok(value(found.ok()))
        }
    }
}

// What `update` stores: the value that was there and `by` more, which alone it is where there was none.
fn raised(old: Option<&u64>, by: u64) -> u64 {
    match old {
        Some(old) => old.wrapping_add(by),
        None => by,
    }
}

// What `try_get_or_else_update` makes: the value, unless it is odd.
fn even(value: u64) -> Result<u64, ()> {
    if value % 2 == 0 { Ok(value) } else { Err(()) }
}
