// The state to settle next. The least state of each block of 64 states is known: it is found anew where
// a state of the block is settled, and compared with each state of it that takes a lower entry.
ghost use Rattle.std.specs.Prelude.{◌≡◌, ◌<◌, false, eqb, length};
ghost use Rattle.distances.specs.Entries.{is_none};
ghost use Rattle.distances.specs.Settling.{Picked, lesser_of, Better, Stretch, TwoStates, BestSoFar};
ghost use Rattle.distances.specs.Selecting.{Selecting, Fresh, Closed, Offers};

use crate::Entry;
use crate::states::MOST_STATES;

// So many states are a block.
const BLOCK: usize = 64;

// The states that are settled, and for each block the open state with the least entry, or the count of
// states where none has an entry.
// Kept: the count stands for no state, since the definition `Picked` says so.
#[derive(Clone, Copy)]
pub struct Selection {
    pub settled: [bool; 4096],
    pub least: [usize; 64],
}

// Of two states, or the count for none, the one with the lesser entry; the first where they are alike.
// Kept: no plainer by `min`, since states are compared by their entries, and the count has none.
fn lesser(entries: &[Entry], first: usize, second: usize) -> usize
    requires { TwoStates (length entries.now) first second }
    ensures { result ≡ lesser_of entries.now (length entries.now) first second }
{
    if second == entries.len() {
        return first;
    }
    if first == entries.len() || entries[second].is_less(entries[first]) {
        return second;
    }
    first
}

impl Selection {
    // No state is settled, and none of so many has an entry.
    pub fn new(count: usize) -> Selection
        ensures { Fresh count result }
    {
        Selection {
            settled: [false; MOST_STATES],
            least: [count; 64],
        }
    }

    // Of the best state so far, or the count, and state s the better: one that is open and has an entry.
    fn better(&self, entries: &[Entry], best: usize, s: usize) -> usize
        requires { BestSoFar (length entries.now) best s }
        ensures { Better entries.now self.now.settled (length entries.now) best s result }
    {
        if self.settled[s] || entries[s].is_none() {
            return best;
        }
        lesser(entries, best, s)
    }

    // The best of the open states from `from` on below `limit`, or the count where none has an entry.
    fn pick(&self, entries: &[Entry], from: usize, limit: usize) -> usize
        requires { Stretch (length entries.now) from limit }
        ensures { Picked entries.now self.now.settled (length entries.now) from limit result }
    {
        let mut best = entries.len();
        for s in from..limit {
            best = self.better(entries, best, s);
        }
        best
    }

    // Settles a state, and finds the least state of its block anew.
    pub fn settle(&mut self, entries: &[Entry], state: usize)
        requires selecting { Selecting entries.now self.old }
        requires below { state < length entries.now }
        ensures { Closed entries.now self.old state self.new }
    {
        self.settled[state] = true;
        let b = state / BLOCK;
        let end = entries.len().min(BLOCK * b + BLOCK);
        self.least[b] = self.pick(entries, BLOCK * b, end);
    }

    // The open state with the least entry, or the count where no open state has one.
    pub fn next(&self, entries: &[Entry]) -> usize
        requires { Selecting entries.now self.now }
        ensures { Picked entries.now self.now.settled (length entries.now) 0 (length entries.now) result }
    {
        let mut best = entries.len();
        for b in 0..(entries.len() + 63) / BLOCK {
            best = lesser(entries, best, self.least[b]);
        }
        best
    }

    // Offers a state an entry.
    pub fn lower(&mut self, entries: &mut [Entry], state: usize, entry: Entry)
        requires selecting { Selecting entries.old self.old }
        requires below { state < length entries.old }
        requires near { is_none entry ≡ false }
        ensures { Offers (λ s. eqb s state) entry entries.old self.old entries.new self.new }
    {
        if entry.is_less(entries[state]) {
            entries[state] = entry;
            if !self.settled[state] {
                let b = state / BLOCK;
                self.least[b] = lesser(entries, self.least[b], state);
            }
        }
    }
}
