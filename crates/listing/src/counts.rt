// G, L, N and P.
#[derive(Clone, Copy, PartialEq, Eq, Debug)]
pub struct Counts {
    pub globals: u8,
    pub locals: u8,
    pub points: u16,
    pub procedures: u16,
}
