// The two samples of k and v by Box and Muller (document 01, 'Angle and sample'): definitions, laws, readings and the data sheet's
// theorem. Crate `sample` has the functions.
#![tactic(auto)]

// The refusal code, and the two samples, of any number of fraction bits.
// No function makes one: `samples_of` of specs/Sample.antt, by which clauses and theorems state an answer, is stated by this type.
#[derive(Clone, Copy)]
pub struct Samples {
    pub code: u32,
    pub first: i32,
    pub second: i32,
}
