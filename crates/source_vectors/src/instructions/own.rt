//! Spellings in which GNU as differs.

/// This project's own choice, where GNU as takes another spelling or no such suffix.
pub const OWN: &str = "\
jmpl foo-1 => e9 fb ff ff ff imm 1 0 relative
movl %ds,foo => 8c 1d 00 00 00 00 disp 2 1
movl (%eax),%ss => 8e 10
pushl %cs => 0e
xchgb %al,%cl => 86 c8
xchg %eax,%eax => 87 c0
xchg %ecx,%edx => 87 d1
ret $0 => c3
int $3 => cd 03
xchgb %cl,%al => 86 c8
";
