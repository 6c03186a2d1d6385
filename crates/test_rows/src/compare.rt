// What the lent slices hold after a call: the same everywhere from a place on, or the words of the list.
ghost use Rattle.std.specs.Prelude.{◌≡◌, true, drop};
ghost use Rattle.std.specs.List.{list_all};
ghost use Rattle.test_rows.specs.Bytes.{word_at, laid};

// Every element from `from` on is x.
pub fn all_are<T: Copy + PartialEq>(items: &[T], from: usize, x: T) -> bool
    ensures { result ≡ list_all (λ y. T.eq y x) (drop from items.now) }
{
    items.iter().skip(from).all(|y| *y == x)
}

// The first n words are those of the list: laying them again would change nothing. One that has no room is not asked for.
pub fn words_stand(list: &[u8], at: usize, n: usize, words: &[u32]) -> bool
    ensures { result ≡ true → laid word_at 4 list.now n 0 at words.now ≡ words.now }
{
    let mut next = at;
    for word in &words[..n.min(words.len())] {
        if *word != crate::word(list, next) {
            return false;
        }
        next = crate::after(list, next, 4);
    }
    true
}
