//! The stack.

/// As GNU as assembles them.
pub const STACK: &str = "\
push %eax => 50
pushl %ebp => 55
push $5 => 6a 05
pushl $-129 => 68 7f ff ff ff
push $foo => 68 00 00 00 00 imm 1 0
push (%eax) => ff 30
pushl foo => ff 35 00 00 00 00 disp 2 0
pop %edi => 5f
popl (%esp) => 8f 04 24
pop foo+4 => 8f 05 04 00 00 00 disp 2 0
pusha => 60
pushal => 60
popa => 61
popal => 61
leave => c9
leavel => c9
pushf => 9c
pushfl => 9c
popf => 9d
popfl => 9d
push %es => 06
push %cs => 0e
pushl %ss => 16
push %ds => 1e
pop %es => 07
popl %ss => 17
pop %ds => 1f
";
