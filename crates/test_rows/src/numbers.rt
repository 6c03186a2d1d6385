// Stretches of numbers of the list, each of as many bytes as its type has.
ghost use Rattle.std.specs.Prelude.{◌≡◌, ℕ, List};
ghost use Rattle.test_rows.specs.Bytes.{half_at, word_at, laid};

// A number of so many bytes, little-endian.
pub trait Number: Copy {
    const BYTES: usize;

    ghost BYTES: { ℕ };

    ghost value_at: { List ℕ → ℕ → Self };

    fn at(list: &[u8], at: usize) -> Self
        ensures { result ≡ value_at list.now at };
}

impl Number for u16 {
    const BYTES: usize = 2;

    ghost BYTES = { 2 };

    ghost value_at = { half_at };

    fn at(list: &[u8], at: usize) -> u16 {
        crate::half(list, at)
    }
}

impl Number for u32 {
    const BYTES: usize = 4;

    ghost BYTES = { 4 };

    ghost value_at = { word_at };

    fn at(list: &[u8], at: usize) -> u32 {
        crate::word(list, at)
    }
}

// The first n numbers of a slice; what has no room is left out.
pub fn read<T: Number>(list: &[u8], at: usize, n: usize, numbers: &mut [T])
    ensures { numbers.new ≡ laid T.value_at T.BYTES list.now n 0 at numbers.old }
{
    let mut next = at;
    // by index: of the elements that an `iter_mut` lends nothing is known afterwards
    for i in 0..n.min(numbers.len()) {
        numbers[i] = T::at(list, next);
        next = crate::after(list, next, T::BYTES);
    }
}
