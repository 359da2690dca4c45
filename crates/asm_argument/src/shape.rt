//! What may stand in an argument's place.

ghost use Rattle.std.specs.Prelude.{◌≡◌};
ghost use Rattle.asm_argument.specs.Shapes as shapes;

/// What may stand in an argument's place.
#[derive(Clone, Copy)]
pub enum Shape {
    /// An operand of an instruction.
    Operand,
    /// A number, or a name with a constant.
    Value,
    Number,
    /// A number that isn't negative.
    Count,
    /// A power of two up to 4,096.
    Alignment,
    /// The number of an alignment's power of two, up to 12.
    Power,
    /// A number that may be absent.
    Fill,
    Name,
    Text,
}

const ALIGNMENTS: [u32; 13] = [1, 2, 4, 8, 16, 32, 64, 128, 256, 512, 1024, 2048, 4096];

fn is_alignment(n: u32) -> bool
    ensures { result ≡ shapes.is_alignment n }
{
    ALIGNMENTS.contains(&n)
}

impl Shape {
    /// Whether registers and memory may stand there.
    pub(crate) fn is_operand(self) -> bool
        ensures { result ≡ shapes.is_operand self }
    {
        match self {
            Shape::Operand => true,
            _ => false,
        }
    }

    /// Whether a name may stand there.
    pub(crate) fn takes_names(self) -> bool
        ensures { result ≡ shapes.takes_names self }
    {
        match self {
            Shape::Operand | Shape::Value | Shape::Name => true,
            _ => false,
        }
    }

    /// Whether a name may have a constant after it.
    pub(crate) fn takes_sums(self) -> bool
        ensures { result ≡ shapes.takes_sums self }
    {
        match self {
            Shape::Operand | Shape::Value => true,
            _ => false,
        }
    }

    /// Whether a number may have a minus before it.
    pub(crate) fn takes_minus(self) -> bool
        ensures { result ≡ shapes.takes_minus self }
    {
        match self {
            Shape::Operand
            | Shape::Value
            | Shape::Number
            | Shape::Count
            | Shape::Power
            | Shape::Fill => true,
            _ => false,
        }
    }

    /// Whether a number may stand there.
    pub(crate) fn takes_numbers(self) -> bool
        ensures { result ≡ shapes.takes_numbers self }
    {
        match self {
            Shape::Operand
            | Shape::Value
            | Shape::Number
            | Shape::Count
            | Shape::Alignment
            | Shape::Power
            | Shape::Fill => true,
            _ => false,
        }
    }

    /// Whether a number, or one after a minus, is of those that may stand there.
    pub(crate) fn fits(self, negative: bool, n: u32) -> bool
        ensures { result ≡ shapes.fits self negative n }
    {
        match self {
            Shape::Count => !negative || n == 0,
            Shape::Alignment => { if negative { n == 0 } else { is_alignment(n) } }
            Shape::Power => { if negative { n == 0 } else { n <= 12 } }
            _ => true,
        }
    }

    /// Whether a string may stand there.
    pub(crate) fn takes_text(self) -> bool
        ensures { result ≡ shapes.takes_text self }
    {
        match self {
            Shape::Text => true,
            _ => false,
        }
    }
}
