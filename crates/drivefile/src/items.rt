// The samples and the turns of a record, as items that fill blocks.
ghost use Rattle.std.specs.Prelude.{◌≡◌, ◌+◌, ◌-◌, ◌*◌, ◌^◌, ◌<◌, ◌≤◌, min};
ghost use Rattle.drivefile.specs.Header.{blocks_for};

// Samples and turns that a block holds.
pub(crate) const SAMPLES_PER_BLOCK: usize = 125;

pub(crate) const TURNS_PER_BLOCK: usize = 500;

// Items of one kind: how many, and how many of them a block holds.
#[derive(Clone, Copy)]
pub(crate) struct Items {
    pub(crate) count: u32,
    pub(crate) per_block: usize,
    ghost some: { 0 < per_block },
    ghost few: { per_block ≤ 500 },
}

impl Items {
    // The blocks that they take.
    pub(crate) fn blocks(self) -> usize
        ensures value { result ≡ blocks_for self.count self.per_block }
        ensures bound { result ≤ self.count + 1 }
    {
        (self.count as usize).div_ceil(self.per_block)
    }

    // How many lie in the block that comes after `before` blocks of them.
    pub(crate) fn in_block(self, before: usize) -> usize
        requires { before < 2 ^ 32 }
        ensures { result ≡ min self.per_block (self.count - self.per_block * before) }
    {
        self.per_block.min((self.count as usize).saturating_sub(self.per_block * before))
    }
}
