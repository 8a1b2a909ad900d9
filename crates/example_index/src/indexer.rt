//! The clients of an index of words.
ghost use Rattle.std.specs.Prelude.{⊤};

use std::alloc::Global;
use std::sync::{Arc, Wait};
use std::thread::Threads;
use tambyulo_clients::{
    ByteText, Call, CallReply, Client, Command, JournalName, NoQuery, Refusal, Reply, Seat,
    SharedMap,
};

/// The handle of the index. Its keys are words, and the value of a word is the number of the document that brought it.
pub const INDEX: u32 = 1;

/// The table, whichever it is, and the seat of a client.
type Index<J> = SharedMap<ByteText, u64, NoQuery, J>;

type ClientSeat<J> = Seat<ByteText, u64, NoQuery, J>;

/// A client of the index.
#[derive(Drop)]
pub enum Indexer {
    /// Puts each word of a document that is not there yet, and returns how many it added.
    Writes {
        document: u64,
        words: Vec<Arc<ByteText>>,
    },
    /// Returns how many words the index has at one moment.
    Counts,
}

impl Client<ByteText, u64, NoQuery> for Indexer {
    type Out = Result<u64, Refusal>;

    ghost needs = { λ _. ⊤ };

    ghost gives = { λ _ _ _. ⊤ };

    fn run<J: JournalName, R: Threads + Wait + Sync>(
        self,
        rt: &R,
        alloc: Global,
        map: &Index<J>,
        seat: &mut ClientSeat<J>,
    ) -> Result<u64, Refusal> {
        match self {
            Indexer::Writes { document, words } => write(rt, alloc, map, seat, document, words),
            Indexer::Counts => count(rt, map, seat),
        }
    }
}

// Opens the handle. Any client may be the first; the others get `Taken`, and go on.
fn open<J: JournalName, R: Wait>(
    rt: &R,
    map: &Index<J>,
    seat: &mut ClientSeat<J>,
) -> Result<(), Refusal> {
    match map.call(rt, seat, Call::Open(INDEX)) {
        Ok(_) | Err(Refusal::Taken) => Ok(()),
        Err(refusal) => Err(refusal),
    }
}

// Puts the words that are not there yet: how many there were.
fn write<J: JournalName, R: Wait>(
    rt: &R,
    alloc: Global,
    map: &Index<J>,
    seat: &mut ClientSeat<J>,
    document: u64,
    words: Vec<Arc<ByteText>>,
) -> Result<u64, Refusal> {
    open(rt, map, seat)?;
    let mut added = 0u64;
    for word in words {
        let put = Command::PutIfAbsent(word, Arc::new(alloc, document)?);
        let reply = map.call(rt, seat, Call::On(INDEX, put))?;
        if let CallReply::Reply(Reply::Old(None)) = reply {
            added = added.wrapping_add(1);
        }
    }
    Ok(added)
}

// How many words there are. The view is read with no lock, while the others write.
fn count<J: JournalName, R: Wait>(
    rt: &R,
    map: &Index<J>,
    seat: &mut ClientSeat<J>,
) -> Result<u64, Refusal> {
    open(rt, map, seat)?;
    let view = map.view(rt, seat, INDEX)?;
    Ok(view.len())
}
