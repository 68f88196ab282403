// A record many pairs on, by the bit matrices of the registers' steps.
ghost use Rattle.std.specs.Prelude.{◌≡◌, ◌+◌, ◌≤◌};
ghost use Rattle.bit_matrix.specs.Matrices.{matrix_of};
ghost use Rattle.streams.specs.Streams.{step, most_count, skip_of};
ghost use Rattle.streams.specs.Recurrence.{moved};

use crate::{Both, Generator, RecordAnswer, Stream};
use bit_matrix::Matrix;

// The bit matrices of the three registers' steps.
#[derive(Clone, Copy)]
struct StepMatrices {
    s0: Matrix,
    s1: Matrix,
    s2: Matrix,
}

// The columns of each matrix are the unit words, one step on.
// By one loop: three `map`s of the array, which were proved, take 2,308 bytes of stack for a skip on a Cortex-M0+, where the header says 2,048.
fn step_matrices() -> StepMatrices
    ensures s0 { result.s0.columns ≡ matrix_of (step 31 13 12) }
    ensures s1 { result.s1.columns ≡ matrix_of (step 29 2 4) }
    ensures s2 { result.s2.columns ≡ matrix_of (step 28 3 17) }
{
    let words = Matrix::identity().columns;
    let mut s0 = words;
    let mut s1 = words;
    let mut s2 = words;
    for (j, &word) in words.iter().enumerate() {
        let unit = Stream {
            s0: word,
            s1: word,
            s2: word,
        };
        let column = unit.advanced();
        s0[j] = column.s0;
        s1[j] = column.s1;
        s2[j] = column.s2;
    }
    StepMatrices {
        s0: Matrix { columns: s0 },
        s1: Matrix { columns: s1 },
        s2: Matrix { columns: s2 },
    }
}

impl Generator {
    // Both streams n draws on: each matrix serves its register of a and of b.
    fn ahead(self, n: u64) -> Generator
        requires { self.count + n ≤ most_count }
        ensures { result ≡ moved n self }
    {
        let steps = step_matrices();
        let [a0, b0] = steps.s0.powers(n, [self.a.s0, self.b.s0]);
        let [a1, b1] = steps.s1.powers(n, [self.a.s1, self.b.s1]);
        let [a2, b2] = steps.s2.powers(n, [self.a.s2, self.b.s2]);
        let a = Stream {
            s0: a0,
            s1: a1,
            s2: a2,
        };
        let b = Stream {
            s0: b0,
            s1: b1,
            s2: b2,
        };
        self.onward(Both { a, b }, n)
    }

    // The record that n pairs would leave.
    pub fn skip(self, n: u64) -> RecordAnswer
        ensures { result ≡ skip_of self n }
    {
        match self.check_pairs(n) {
            Ok(()) => RecordAnswer::accepted(self.ahead(n)),
            Err(refusal) => RecordAnswer::refused(refusal, self),
        }
    }
}
