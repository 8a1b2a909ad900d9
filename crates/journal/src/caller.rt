//! Who makes a call.
ghost use Rattle.std.specs.Prelude.{◌≡◌, ◌<◌, IsTrue, MatchResult, false, vec_capacity, vec_len};

use versions::NoMemory;

/// The seat that makes a call: its number, and whether its list has room for one entry more.
#[derive(Clone, Copy)]
pub struct Caller {
    pub seat: u32,
    pub has_room: bool,
}

impl Caller {
    /// The seat of the number, which lists its entries here. Space for one is made in the list.
    ///
    /// `NoMemory` is not returned yet: a refusal that makes no entry comes before it.
    pub fn new<T: Drop>(seat: u32, list: &mut Vec<T>) -> Caller
        ensures seat { result.seat ≡ seat }
        ensures items { list.new.items ≡ list.old.items }
        ensures room { IsTrue result.has_room → vec_len list.new < vec_capacity list.new }
    {
        let has_room = list.reserve(1).is_ok();
        Caller { seat, has_room }
    }

    /// That there is room.
    pub(crate) fn room(self) -> Result<(), NoMemory>
        ensures { MatchResult result (λ _. IsTrue self.has_room) (λ _. self.has_room ≡ false) }
    {
        if self.has_room { Ok(()) } else { Err(NoMemory) }
    }
}
