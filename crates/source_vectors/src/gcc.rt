//! What gcc makes of a function with a jump table.

/// The output of `gcc -m32 -S`, cut to what is read.
pub const FROM_GCC: &str = "\t.file \"k.c\"
\t.text
\t.p2align 4
\t.globl _start
\t.type _start, @function
_start:
.LFB0:
\t.cfi_startproc
\tmovl $1, %eax
\tjmp *.L4(,%eax,4)
\t.section .rodata
\t.align 4
.L4:
\t.long .L2
\t.long .L3
\t.text
\t.p2align 4,,10
\t.p2align 3
.L3:
\tmovl $33, %eax
\toutb %al, $128
.L2:
\thlt
\t.cfi_endproc
\t.size _start, .-_start
\t.ident \"GCC: (GNU) 12.2.0\"
\t.section .note.GNU-stack,\"\",@progbits
";
