//! The size of an instruction's operands.

ghost use Rattle.std.specs.Prelude.{◌≡◌};
ghost use Rattle.asm_instruction.specs.Sizes.{goes_with, agreed};

use ia32_types::Size;

fn goes_with(said: Option<Size>, size: Size) -> bool
    ensures { result ≡ goes_with said size }
{
    match said {
        None => true,
        Some(other) => other.width() == size.width(),
    }
}

/// The size that one of the three says, if none says another.
#[tactic(auto, unfolding(crate::specs::Sizes::agreed))]
pub fn agreed(a: Option<Size>, b: Option<Size>, c: Option<Size>) -> Option<Size>
    ensures { result ≡ agreed a b c }
{
    let size = a.or(b.or(c))?;
    if goes_with(a, size) && goes_with(b, size) && goes_with(c, size) {
        Some(size)
    } else {
        None
    }
}
