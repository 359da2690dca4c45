//! Shifts and rotations.

/// As GNU as assembles them.
pub const SHIFTS: &str = "\
rolb $1,%al => d0 c0
rol %eax => d1 c0
rorb $3,%cl => c0 c9 03
rorl $3,%ecx => c1 c9 03
shlb %cl,%dl => d2 e2
shll %cl,(%edx) => d3 22
sall $1,(%edx) => d1 22
sal $5,%edx => c1 e2 05
salb %dl => d0 e2
shrb (%eax) => d0 28
shr $-1,%eax => c1 e8 ff
shrl %cl,%ebx => d3 eb
sarl %eax => d1 f8
sarb $255,%al => c0 f8 ff
sar %cl,%bh => d2 ff
rol %cl,%esi => d3 c6
rorl foo => d1 0d 00 00 00 00 disp 2 0
";
