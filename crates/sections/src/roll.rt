// The roll section: a first-order recursion modulo 2^32.
ghost use Rattle.std.specs.Prelude.{◌^◌, ◌<◌};

mod section;

// The section: the next state is c times the state plus the word, modulo 2^32.
pub struct Roll;

// The coefficient c, any word.
#[derive(Clone, Copy)]
pub struct Coefficient {
    value: u32,
    ghost fits: { value < 2 ^ 32 },
}

// A map: it takes s to factor times s plus add, modulo 2^32.
#[derive(Clone, Copy)]
pub struct RollMap {
    pub factor: u32,
    pub add: u32,
}
