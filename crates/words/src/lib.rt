// A lent buffer of words: a word as a field, whether the words fit, and words laid over it.
#![tactic(auto)]

ghost use Rattle.std.specs.Prelude.{◌≡◌, ◌<◌, ◌≤◌, ◌*◌, ◌%◌, ◌^◌, min, max, length};
ghost use Rattle.std.specs.Fn.{FnReturnsAt};
ghost use Rattle.words.specs.Words.{SameWords, within, laid};

// A word as a byte.
pub fn byte(word: u32) -> u8
    ensures { result ≡ word % 256 }
{
    (word % 256) as u8
}

// A word as 16 bits.
pub fn half(word: u32) -> u16
    ensures { result ≡ word % 65536 }
{
    (word % 65536) as u16
}

// The test of the words that are there, n of them. The loop asks for no bound: the compiler takes many words a step.
// By index, here and in `lay`: an iterator over two slices hands out pairs of pointers, which the page in a browser does not allow for (docs/PROMISES.md).
fn there_within(words: &[u32], most: &[u32], n: usize) -> bool
    requires { n ≡ min (length words.now) (length most.now) }
    ensures { result ≡ within most.now words.now 0 }
{
    let mut all = true;
    for i in 0..n {
        all &= words[i] <= most[i];
    }
    all
}

// Whether no word is above the largest of its field. A word past the end is 0, within every limit.
// Where all words are there the count is the table's, which the compiler knows.
pub fn all_within(words: &[u32], most: &[u32]) -> bool
    ensures { result ≡ within most.now words.now 0 }
{
    if most.len() <= words.len() {
        return there_within(words, most, most.len());
    }
    there_within(words, most, words.len())
}

// Words laid over what is lent: those past them stay. Where there is no room nothing is written.
pub fn lay(words: &mut [u32], new: &[u32])
    ensures { words.new ≡ laid new.now words.old }
{
    if words.len() < new.len() {
        return;
    }
    for i in 0..new.len() {
        words[i] = new[i];
    }
}

// What is read of N words. Those that are missing are 0: they are filled up first, so that a word that is read needs no test (docs/SPEED.md).
// They are lent as a slice and not as an array: no closure's bound may name N, and a slice's first N words as an array are a pointer that a
// function gives, which the page in a browser does not allow for.
pub fn read_whole<T, F: Fn(&[u32]) -> T, const N: usize>(words: &[u32], read: F) -> T
    requires size { N * 4 < 2 ^ 63 }
    requires reads { (whole : _) → N ≤ length whole.now → F.pre read whole }
    ensures { (whole : _) × (length whole ≡ max N (length words.now)) × SameWords whole words.now × FnReturnsAt F.Fn read whole result }
{
    if words.len() < N {
        let mut whole = [0; N];
        lay(&mut whole, words);
        return read(&whole);
    }
    read(words)
}
