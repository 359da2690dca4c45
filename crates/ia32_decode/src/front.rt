//! Which bytes of one page or two an instruction may have.

ghost use Rattle.std.specs.Prelude.{◌≡◌, ◌+◌, ◌*◌, ◌/◌, ◌%◌, ◌<◌, ◌≤◌, MatchOption};
ghost use Rattle.ia32_types.specs.declared.addresses.TheConstants.{LAST_PAGE};
ghost use Rattle.ia32_decode.specs.Front.{front_len};

use ia32_types::LAST_PAGE;

/// No instruction is longer.
pub const LONGEST: u32 = 11;

/// How many bytes at an address lie in its page, of those that an instruction may have.
pub fn front_len(at: u32) -> u32
    ensures len { result ≡ front_len at }
    ensures some { 0 < result }
    ensures few { result ≤ 11 }
    ensures one { at % 4096 + result ≤ 4096 }
{
    LONGEST.min(4096 - at % 4096)
}

/// Where the page after that of an address begins. The last page has none, and an access doesn't go on at 0 (profile).
pub fn next_page(at: u32) -> Option<u32>
    ensures next { MatchOption result (at / 4096 ≡ LAST_PAGE)
        (λ next. (at / 4096 < LAST_PAGE) × (next ≡ at / 4096 * 4096 + 4096)) }
{
    if at / 4096 == LAST_PAGE {
        return None;
    }
    Some(at / 4096 * 4096 + 4096)
}
