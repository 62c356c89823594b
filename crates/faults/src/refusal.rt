// What a refusal tells: its number, the layer that found it, and the block and byte that it names.
ghost use Rattle.std.specs.Prelude.{◌++◌, Some, codes, decimal};
ghost use Rattle.faults.specs.Words.{layer_word};

use std::fmt;

// The layer of the innermost fault.
#[derive(Clone, Copy, PartialEq, Eq, Debug)]
pub enum Layer {
    Block,
    Record,
    Run,
}

// A refusal by number and place. Faults that concern no place of a file name block 0, byte 0.
#[derive(Clone, Copy, PartialEq, Eq, Debug)]
pub struct Refusal {
    // a number, since it is what is printed; callers match on the fault, which is an enum
    pub code: u8,
    pub layer: Layer,
    pub block: usize,
    pub byte: usize,
}

impl fmt::Display for Layer {
    ghost output = { λ l. Some (layer_word l) };

    fn fmt<W: fmt::Write>(&self, f: &mut fmt::Formatter<W>) -> fmt::Result {
        f.write_str(match self {
            Layer::Block => "block",
            Layer::Record => "record",
            Layer::Run => "run",
        })
    }
}

impl fmt::Display for Refusal {
    ghost output = { λ r. Some (codes "refused " ++ (decimal r.code ++ (codes " " ++ (layer_word r.layer ++ (codes " " ++ (decimal r.block ++ (codes " " ++ decimal r.byte))))))) };

    fn fmt<W: fmt::Write>(&self, f: &mut fmt::Formatter<W>) -> fmt::Result {
        let Refusal {
            code,
            layer,
            block,
            byte,
        } = *self;
        write!(f, "refused {code} {layer} {block} {byte}")
    }
}
