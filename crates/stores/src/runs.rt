// Lent runs of words and of marks. A read past the end of a run gives 0, and a write there is none.
ghost use Rattle.std.specs.Prelude.{◌≡◌, slice_set};
ghost use Rattle.stores.specs.Table.{cleared};

// Writes a value at a place of a run.
// By index: once a slice's `get_mut` is over, a proof knows the slice's length and not its elements.
pub fn put<T: Copy>(run: &mut [T], at: usize, value: T)
    ensures { run.new ≡ slice_set run.old at value }
{
    if at < run.len() {
        run[at] = value;
    }
}

// Writes 0 into the first n marks.
pub fn clear_marks(marks: &mut [u8], n: usize)
    ensures { marks.new ≡ cleared 0 n marks.old }
{
    let end = n.min(marks.len());
    marks[..end].fill(0);
}

// Writes 0 into n words from `start` on, as far as there are so many.
pub fn clear_words(words: &mut [u64], start: usize, n: usize)
    ensures { words.new ≡ cleared start n words.old }
{
    let start = start.min(words.len());
    let end = start.saturating_add(n).min(words.len());
    words[start..end].fill(0);
}
