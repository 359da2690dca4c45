//! Forms of addresses and numbers.

/// The bytes of an instruction at 10000000, and its text.
pub const FORMS: &str = "\
8b 03 => movl (%ebx),%eax
8b 43 00 => movl (%ebx),%eax
8b 83 00 00 00 00 => movl (%ebx),%eax
8b 45 00 => movl (%ebp),%eax
8b 45 0c => movl 0xc(%ebp),%eax
8b 04 24 => movl (%esp),%eax
8b 44 24 08 => movl 0x8(%esp),%eax
8b 04 8b => movl (%ebx,%ecx,4),%eax
8b 44 cb 80 => movl -0x80(%ebx,%ecx,8),%eax
8b 84 0b 00 00 00 80 => movl -0x80000000(%ebx,%ecx,1),%eax
8b 0c 8d 00 00 00 00 => movl 0x0(,%ecx,4),%ecx
8b 0c 8d 44 33 22 11 => movl 0x11223344(,%ecx,4),%ecx
8b 0c 8d fc ff ff ff => movl -0x4(,%ecx,4),%ecx
8b 0d 44 33 22 11 => movl 0x11223344,%ecx
8b 0d 00 00 00 00 => movl 0x0,%ecx
8b 0c 25 44 33 22 11 => movl 0x11223344,%ecx
8b 0c 25 fc ff ff ff => movl 0xfffffffc,%ecx
8b 4c 25 00 => movl (%ebp),%ecx
8b 0c 24 => movl (%esp),%ecx
8b 0c 64 => movl (%esp),%ecx
b8 00 00 00 00 => movl $0x0,%eax
c2 00 00 => ret
c2 08 00 => ret $0x8
eb fe => jmp L10000000
e9 fb ff ff ff => jmp L10000000
74 80 => je L0fffff82
0f 85 00 00 00 80 => jne L90000006
87 c0 => xchgl %eax,%eax
6a 00 => pushl $0x0
cd 80 => int $0x80
d1 e0 => shll $0x1,%eax
c1 e0 01 => shll $0x1,%eax
c1 e0 00 => shll $0x0,%eax";
