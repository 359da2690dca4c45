//! Moves, and LEA and XCHG.

/// As GNU as assembles them.
pub const MOVES: &str = "\
mov %al,%bl => 88 c3
movb %al,(%ebx) => 88 03
mov %eax,%ebx => 89 c3
movl %eax,4(%ebx) => 89 43 04
movb (%ebx),%al => 8a 03
mov 4(%esp),%ebx => 8b 5c 24 04
movb $5,%cl => b1 05
movl $5,%ecx => b9 05 00 00 00
mov $foo,%ecx => b9 00 00 00 00 imm 1 0
movb $5,(%ecx) => c6 01 05
movl $foo+5,foo+9(%ecx) => c7 81 09 00 00 00 05 00 00 00 disp 2 1 imm 6 0
movb foo,%al => a0 00 00 00 00 disp 1 0
movl foo,%eax => a1 00 00 00 00 disp 1 0
mov %al,foo+1 => a2 01 00 00 00 disp 1 1
movl %eax,4096 => a3 00 10 00 00
mov %ebx,4096 => 89 1d 00 10 00 00
mov %ax,(%ebx) => 66 89 03
movw %ax,%bx => 66 89 c3
mov (%ebx),%ax => 66 8b 03
movw $5,(%ebx) => 66 c7 03 05 00
movw $-5,%bx => 66 bb fb ff
movw foo,%ax => 66 a1 00 00 00 00 disp 2 0
mov %ax,foo => 66 a3 00 00 00 00 disp 2 1
movzbl %al,%ecx => 0f b6 c8
movzbl foo,%ecx => 0f b6 0d 00 00 00 00 disp 3 0
movzwl %ax,%ecx => 0f b7 c8
movzwl (%eax),%ecx => 0f b7 08
movsbl %ah,%ecx => 0f be cc
movswl 2(%eax),%ecx => 0f bf 48 02
lea (%eax,%eax,4),%edx => 8d 14 80
leal foo(,%ecx,8),%ebp => 8d 2c cd 00 00 00 00 disp 3 0
lea 4(%ebp),%esp => 8d 65 04
lea foo,%eax => 8d 05 00 00 00 00 disp 2 0
xchg %ecx,%eax => 91
xchgl %eax,%esi => 96
xchg %edx,%ecx => 87 d1
xchgb (%eax),%cl => 86 08
xchgl %ecx,(%eax) => 87 08
";
