//! The conditions, by which names of jumps and of SETcc end.

ghost use Rattle.std.specs.Prelude.{◌≡◌};
ghost use Rattle.asm_instruction.specs.Names.{found};
ghost use Rattle.asm_instruction.specs.Condition as spec;

use crate::bytes::look_up;

const CONDITIONS: [(&[u8], u8); 30] = [
    (b"o", 0),
    (b"no", 1),
    (b"b", 2),
    (b"c", 2),
    (b"nae", 2),
    (b"ae", 3),
    (b"nb", 3),
    (b"nc", 3),
    (b"e", 4),
    (b"z", 4),
    (b"ne", 5),
    (b"nz", 5),
    (b"be", 6),
    (b"na", 6),
    (b"a", 7),
    (b"nbe", 7),
    (b"s", 8),
    (b"ns", 9),
    (b"p", 10),
    (b"pe", 10),
    (b"np", 11),
    (b"po", 11),
    (b"l", 12),
    (b"nge", 12),
    (b"ge", 13),
    (b"nl", 13),
    (b"le", 14),
    (b"ng", 14),
    (b"g", 15),
    (b"nle", 15),
];

/// The number of a condition.
#[tactic(auto, unfolding(crate::specs::Condition::conditions))]
pub fn condition(name: &[u8]) -> Option<u8>
    ensures { result ≡ found spec.conditions name.now }
{
    look_up(&CONDITIONS, name)
}
