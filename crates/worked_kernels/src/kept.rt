//! Runs that use translations which are kept, up to their last step.

/// Each uses a translation that is kept, where a walk of the tables as they are would stop. The fourth reads a page, changes
/// its PTE and makes ES null: MOVSL within that page raises #GP before it translates either range, so the handler,
/// which reads the page in step 20 and shows the PTE in the next, finds the old frame.
pub const KEPT_TO_THE_END: &str = "\
$ : the table word of the text's page names another frame
$ build
_start: movl $0x20003,0xC0014000; cli
$ wedge 0 12
end steps 12
$ : the table word of a page that was read names a frame beyond RAM
$ build
_start: movl $0x21007,0xC0001114; movl $0x00400007,0xC0021000; movl 0x11400000,%eax
movl $0x7ffff007,0xC0021000; movl 0x11400000,%eax
$ wedge 0 5
end steps 5
$ : the text's directory word names a frame of the text as a table
$ build
_start: movl $0x100003,0xC0001100; movl $1,0xC0102000; nop
$ wedge 0 3
end steps 3
$ : an instruction that a null segment denies uses no page
$ build
.data
register: .word 0x6f
.long gates
gates: .zero 112
.text
_start: movl $raised,%eax
movl %eax,gates+104
movw $8,gates+106
movl %eax,gates+108
movw $0x8e00,gates+108
lidt register
movl $1,0xC0400000
movl $2,0xC0401000
movl $0x20007,0xC0001114
movl $0x00400007,0xC0020000
movl 0x11400000,%ebx
movl $0x00401007,0xC0020000
xorl %eax,%eax
movl %eax,%es
movl $0x11400000,%esi
movl $0x11400004,%edi
movsl
raised: movl 0x11400000,%eax
outl %eax,$0x80
$ wedge 0 22
21 out32 0080 00000001
end steps 22
";
