// A cell as it is written: `g` or `l` and a number.
#[derive(Clone, Copy, PartialEq, Eq, Debug)]
pub enum Name {
    Global(u16),
    Local(u16),
}

// `cells G L`
#[derive(Clone, Copy, PartialEq, Eq, Debug, Default)]
pub struct Header {
    pub globals: u16,
    pub locals: u16,
}
