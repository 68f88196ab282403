// Bit matrices of 32 by 32 bits: applied to a word, and raised to a power by squaring.
#![tactic(auto)]

ghost use Rattle.std.specs.Prelude.{◌≡◌, ◌<◌, ◌^◌, map, ◌%◌};
ghost use Rattle.bit_matrix.specs.Matrices.{repeat, applied, units};

use std::array;

// A matrix is its 32 columns.
#[derive(Clone, Copy)]
pub struct Matrix {
    pub columns: [u32; 32],
}

// The exclusive-or of the columns at the digits of x that are 1.
pub fn apply(columns: &[u32], x: u32) -> u32
    ensures { result ≡ applied columns.now x }
{
    let mut sum = 0;
    let mut rest = x;
    for column in columns.iter() {
        sum ^= *column * (rest % 2);
        rest /= 2;
    }
    sum
}

impl Matrix {
    // The identity, whose columns are the unit words 1, 2, 4 .. 2^31.
    pub fn identity() -> Matrix
        ensures { result.columns ≡ units 32 }
    {
        Matrix {
            columns: array::from_fn(
                |digit|
                    requires { digit < 32 }
                    ensures { result ≡ 2 ^ digit }
                { 1 << digit },
            ),
        }
    }

    // The matrix at a word.
    pub fn applied(&self, x: u32) -> u32
        ensures { result ≡ applied self.now.columns x }
    {
        apply(&self.columns, x)
    }

    // The matrix applied to each of the words.
    // No `map` of the array: the proof does not learn from std's `map` which state its closure was called with.
    fn apply_each(&self, words: &mut [u32])
        ensures { words.new ≡ map (applied self.now.columns) words.old }
    {
        for word in words.iter_mut() {
            *word = self.applied(*word);
        }
    }

    // The square, which is the matrix applied twice: each column with the matrix applied to it.
    fn squared(&self) -> Matrix
        ensures { result.columns ≡ map (applied self.now.columns) self.now.columns }
    {
        let mut columns = self.columns;
        self.apply_each(&mut columns);
        Matrix { columns }
    }

    // The words with the matrix applied n times to each: a squaring for each binary digit of n.
    pub fn powers(self, n: u64, words: [u32; 2]) -> [u32; 2]
        ensures { result ≡ map (repeat (applied self.columns) n) words }
    {
        let mut matrix = self;
        let mut reached = words;
        let mut left = n;
        // A count that is halved: by `successors` the loop would be as long, and its end would have to be shown besides.
        while left > 0 {
            if left % 2 == 1 {
                matrix.apply_each(&mut reached);
            }
            let square = matrix.squared();
            matrix = square;
            left /= 2;
        }
        reached
    }
}
