//! A list whose entries are all the same, so that only its length is kept.
ghost use Rattle.std.specs.Prelude.{◌^◌, ◌<◌, ◌&&◌, nat_lt, length, replicate, if◌then◌else◌, Some, None};

use fact_lock::Journal;

// It adds no entry past this.
const MOST: u64 = 1 << 62;

#[derive(Drop)]
pub struct Tally {
    count: u64,
}

impl Tally {
    pub fn new() -> Tally {
        Tally { count: 0 }
    }
}

impl Journal for Tally {
    type Key = ();

    type Entry = ();

    type Op = bool;

    type Reply = u64;

    ghost key = { λ _. tt };

    ghost list = { λ tally. replicate tally.count tt };

    ghost fits = { λ _ _. Unit {0} };

    ghost holds = { λ _ _. Unit {0} };

    ghost reply = { λ _ xs _. length xs };

    ghost added = { λ _ xs adds. if adds && nat_lt (length xs) (2 ^ 62) then Some tt else None };

    /// Adds an entry if it is asked to, and answers how many there were.
    #[inline]
    fn act(&mut self, adds: bool) -> u64 {
        let before = self.count;
        if adds && before < MOST {
            self.count += 1;
        }
        before
    }

    #[inline]
    fn len(&self) -> u64 {
        self.count
    }
}
