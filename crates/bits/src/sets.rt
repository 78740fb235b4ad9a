// Sets of small numbers as the bits of words.
ghost use Rattle.std.specs.Prelude.{◌≡◌, ℕ, ◌+◌, ◌-◌, ◌≤◌, ◌<◌, length};
ghost use Rattle.std.specs.Iterator.{at_most};
ghost use Rattle.bits.specs.Sets.{in_word, in_words, FirstFrom, InOneWord, InEightWords, NumberAt, Added, CanKeep, Kept, CanGoOn, NumberGiven, WordOf, AllPut};

// The first number from `from` on in the set of a word, or `limit` where there is none below it.
pub fn first_in(word: u64, from: usize, limit: usize) -> usize
    requires { InOneWord limit from }
    ensures { FirstFrom (in_word word) limit from result }
{
    if from < limit {
        let r = from + u64::trailing_zeros(word >> from) as usize;
        if r < limit {
            return r;
        }
    }
    limit
}

// The first number from `from` on in the set of the eight words at `at`, or `limit` where there is none
// below it.
// Kept: FirstFrom says that a bound stands for none, and callers go on with that number: the search
// takes the last action by it, and the covering keeps it in a table. Numbers gives an Option.
// Kept: in_words reads a table of sets as one list of words, eight from a place on, and the definitions
// of could_cover in marking, of reach in reduction and of RowsByFact in lookup are by it.
pub fn next_in(words: &[u64], at: usize, from: usize, limit: usize) -> usize
    requires { InEightWords words.now at limit from }
    ensures { FirstFrom (in_words words.now at) limit from result }
{
    let mut bit = from % 64;
    for place in from / 64..limit.div_ceil(64) {
        let r = first_in(words[at + place], bit, 64);
        if r < 64 {
            return limit.min(64 * place + r);
        }
        bit = 0;
    }
    limit
}

// The numbers of the set of the eight words at `at`, from `from` on and below `limit`.
#[derive(Drop)]
pub struct Numbers<'a> {
    words: &'a [u64],
    at: usize,
    from: usize,
    limit: usize,
}

impl<'a> Iterator for Numbers<'a> {
    type Item = usize;

    ghost can_next = { CanGoOn };

    ghost next_gives = { NumberGiven };

    ghost remaining = { λ s. at_most (s.limit - s.from) };

    fn next(&mut self) -> Option<usize> {
        let k = next_in(self.words, self.at, self.from, self.limit);
        if k < self.limit {
            self.from = k + 1;
            return Some(k);
        }
        self.from = self.limit;
        None
    }
}

// The numbers of the set of the eight words at `at`, in rising order, from `from` on and below `limit`.
pub fn numbers_in<'a>(words: &'a [u64], at: usize, from: usize, limit: usize) -> Numbers<'a>
    requires { InEightWords words.now at limit from }
    ensures { result ≡ record { words = words.exit; at = at; from = from; limit = limit } }
{
    Numbers {
        words,
        at,
        from,
        limit,
    }
}

// The set, in a word, of the numbers below `count` that pass a test.
pub fn word_of<F: Fn(usize) -> bool>(count: usize, test: F) -> u64
    requires few { count ≤ 64 }
    requires callable { (k : ℕ) → k < count → F.pre test k }
    ensures { WordOf (F.post test) count result }
{
    let mut word: u64 = 0;
    for k in 0..count {
        if test(k) {
            word |= 1 << k;
        }
    }
    word
}

// Writes, into the eight words at `at`, the set of the numbers below `count` that pass a test.
pub fn put_all<F: Fn(usize) -> bool>(words: &mut [u64], at: usize, count: usize, test: F)
    requires few { count ≤ 512 }
    requires room { at + 8 ≤ length words.old }
    requires callable { (k : ℕ) → k < count → F.pre test k }
    ensures { AllPut (F.post test) at count words.old words.new }
{
    for place in 0..count.div_ceil(64) {
        let first = 64 * place;
        words[at + place] = word_of((count - first).min(64), |k| test(first + k));
    }
}

// Whether a number is in the set of the eight words at `at`.
pub fn has(words: &[u64], at: usize, k: usize) -> bool
    requires { NumberAt at k words.now }
    ensures { result ≡ in_words words.now at k }
{
    (words[at + k / 64] >> (k % 64)) % 2 == 1
}

// Puts a number into the set of the eight words at `at`.
pub fn add(words: &mut [u64], at: usize, k: usize)
    requires { NumberAt at k words.old }
    ensures { Added at k words.old words.new }
{
    words[at + k / 64] |= 1 << (k % 64);
}

// Leaves in the set of eight words the numbers that are in the set of the row at `at` too.
pub fn keep(words: &mut [u64], rows: &[u64], at: usize)
    requires { CanKeep at rows.now words.old }
    ensures { Kept rows.now at words.old words.new }
{
    for i in 0..8 {
        words[i] = rows[at + i] & words[i];
    }
}
