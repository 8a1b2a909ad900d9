//! When a reader tries a new base.
ghost use Rattle.std.specs.Prelude.{◌≡◌, ◌+◌, ◌*◌, if◌then◌else◌};
ghost use Rattle.map_reader.specs.Counting.{capped, is_due, least_for, was_worth_it as worth_it};

/// The fewest misses after which a new base is tried.
const LEAST_MISSES: u64 = 64;

/// One more miss is waited for per this many pairs of the map.
const PAIRS_A_MISS: u64 = 32;

/// A base was worth it where it had this many times as many hits as misses.
const HITS_A_MISS: u64 = 16;

/// How many reads of a reader were hits, which found their key in its base, and how many were misses, since the reader
/// took the base; and when it tries a new one.
///
/// A base costs some microseconds, and then each write copies the nodes of its path that the base still has. So it has
/// to be worth it. The least number of misses is 64, and one more for each 32 pairs. After that many a new base is
/// tried if the one before had 16 hits for each miss. Else it is tried after twice as many misses as the time before.
/// So where bases are of no use, n misses try about log2(n / 64) of them. Where the writes end, one is tried after at
/// most as many misses as there were until then.
#[derive(Clone, Copy)]
pub struct Counts {
    hits: u64,
    misses: u64,
    // The least number of misses, by the pairs that the map had at the last try.
    least: u64,
    // After how many times as many a base is tried that was not worth it.
    patience: u64,
}

impl Counts {
    /// No reads yet, and no base.
    pub fn new() -> Counts
        ensures { result ≡ record { hits = 0; misses = 0; least = least_for 0; patience = 1 } }
    {
        Counts {
            hits: 0,
            misses: 0,
            least: LEAST_MISSES,
            patience: 1,
        }
    }

    /// Counts a hit.
    pub fn hit(&mut self)
        ensures { self.new ≡ record self.old { hits = capped (self.old.hits + 1) } }
    {
        self.hits = self.hits.saturating_add(1);
    }

    /// Counts a miss.
    pub fn miss(&mut self)
        ensures { self.new ≡ record self.old { misses = capped (self.old.misses + 1) } }
    {
        self.misses = self.misses.saturating_add(1);
    }

    /// Whether it is time to try a new base, as far as it is known how many pairs the map has.
    pub fn are_due(&self) -> bool
        ensures { result ≡ is_due self.now }
    {
        self.misses >= self.least
            && (self.was_worth_it() || self.misses >= self.least.saturating_mul(self.patience))
    }

    /// The same where the map has `pairs` pairs.
    pub fn are_due_for(&mut self, pairs: u64) -> bool
        ensures due { result ≡ is_due self.new }
        ensures least { self.new ≡ record self.old { least = least_for pairs } }
    {
        self.least = (pairs / PAIRS_A_MISS).saturating_add(LEAST_MISSES);
        self.are_due()
    }

    /// Begins again after a try.
    pub fn tried(&mut self)
        ensures { self.new ≡ record self.old { hits = 0; misses = 0; patience = if worth_it self.old then 2 else capped (self.old.patience * 2) } }
    {
        self.patience = if self.was_worth_it() {
            2
        } else {
            self.patience.saturating_mul(2)
        };
        self.begin();
    }

    /// Begins again with a base that another reader made.
    pub fn begin(&mut self)
        ensures { self.new ≡ record self.old { hits = 0; misses = 0 } }
    {
        self.hits = 0;
        self.misses = 0;
    }

    // Whether the base had hits enough.
    fn was_worth_it(&self) -> bool
        ensures { result ≡ worth_it self.now }
    {
        self.hits / HITS_A_MISS >= self.misses
    }
}
