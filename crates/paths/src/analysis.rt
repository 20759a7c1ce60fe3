// What an analysis is put to.

// A program and a problem, which every call that asks them is handed together. What it means (`handed_by`) has functions in it, and the value of an
// `impl Model` is data: so the contracts name it.
#[derive(Clone, Copy)]
pub struct Analysis<'a, P, Q> {
    pub program: &'a P,
    pub problem: &'a Q,
}
