//! The numbers of ELF files of 32 bits, by their names in the System V ABI (edition 4.1, chapters 4
//! and 5) and in its supplement for the i386. The name of a field stands for its offset in its
//! record; a half has two bytes, a long four. In parentheses: the chapter and its section, or `i386`
//! and the section of the supplement.

// ---- chapter 4, ELF Header

/// `ELFMAG0` to `ELFMAG3`: the byte 0x7F and `ELF`, the lowest byte first.
pub const ELFMAG: u32 = 0x464C_457F;

/// Where the byte of the class stands (4, ELF Identification).
pub const EI_CLASS: usize = 4;

/// The class of files of 32 bits (4, ELF Identification).
pub const ELFCLASS32: u8 = 1;

/// Where the byte of the encoding of data stands (4, ELF Identification).
pub const EI_DATA: usize = 5;

/// The encoding with the lowest byte first (4, ELF Identification).
pub const ELFDATA2LSB: u8 = 1;

/// Where the byte of the version stands (4, ELF Identification).
pub const EI_VERSION: usize = 6;

/// The current version, at `EI_VERSION` as a byte and at `E_VERSION` as a long (4, ELF Header).
pub const EV_CURRENT: u32 = 1;

/// The kind of file, a half (4, ELF Header).
pub const E_TYPE: usize = 16;

/// The architecture, a half (4, ELF Header).
pub const E_MACHINE: usize = 18;

/// The version, a long (4, ELF Header).
pub const E_VERSION: usize = 20;

/// The address at which an image begins, a long (4, ELF Header).
pub const E_ENTRY: usize = 24;

/// Where the program headers stand in the file, a long (4, ELF Header).
pub const E_PHOFF: usize = 28;

/// Where the section headers stand in the file, a long (4, ELF Header).
pub const E_SHOFF: usize = 32;

/// How long the ELF header is, a half (4, ELF Header).
pub const E_EHSIZE: usize = 40;

/// How long one program header is, a half (4, ELF Header).
pub const E_PHENTSIZE: usize = 42;

/// How many program headers there are, a half (4, ELF Header).
pub const E_PHNUM: usize = 44;

/// How long one section header is, a half (4, ELF Header).
pub const E_SHENTSIZE: usize = 46;

/// How many section headers there are, a half (4, ELF Header).
pub const E_SHNUM: usize = 48;

/// Which section has the names of the sections, a half (4, ELF Header).
pub const E_SHSTRNDX: usize = 50;

/// The kind of an object file (4, ELF Header).
pub const ET_REL: u16 = 1;

/// The kind of an executable file (4, ELF Header).
pub const ET_EXEC: u16 = 2;

/// The Intel 80386 (4, ELF Header).
pub const EM_386: u16 = 3;

/// How many bytes the ELF header has, `Elf32_Ehdr` (4, ELF Header).
pub const EHDR_SIZE: usize = 52;

// ---- chapter 4, Sections

/// What a section holds, a long (4, Sections).
pub const SH_TYPE: usize = 4;

/// A section's flags, a long (4, Sections).
pub const SH_FLAGS: usize = 8;

/// Where a section's bytes stand in the file, a long (4, Sections).
pub const SH_OFFSET: usize = 16;

/// How long a section is, a long (4, Sections).
pub const SH_SIZE: usize = 20;

/// Another section that a section uses, as a symbol table uses its strings, a long (4, Sections).
pub const SH_LINK: usize = 24;

/// A number whose meaning the type gives: the section that relocations fill, a long (4, Sections).
pub const SH_INFO: usize = 28;

/// What a section's address is a multiple of, a long (4, Sections).
pub const SH_ADDRALIGN: usize = 32;

/// How long one entry of a section of entries is, a long (4, Sections).
pub const SH_ENTSIZE: usize = 36;

/// How many bytes a section header has, `Elf32_Shdr` (4, Sections).
pub const SHDR_SIZE: usize = 40;

/// The type of a header of no section (4, Sections).
pub const SHT_NULL: u32 = 0;

/// The type of a section that the program defines: text, data, annotations (4, Sections).
pub const SHT_PROGBITS: u32 = 1;

/// The type of a symbol table (4, Sections).
pub const SHT_SYMTAB: u32 = 2;

/// The type of a table of names, each with a zero byte after it (4, Sections).
pub const SHT_STRTAB: u32 = 3;

/// The type of a note, which marks a file (4, Sections).
pub const SHT_NOTE: u32 = 7;

/// The type of a section without bytes in the file, which is zero at boot (4, Sections).
pub const SHT_NOBITS: u32 = 8;

/// The type of a section of relocations without explicit addends (4, Sections).
pub const SHT_REL: u32 = 9;

/// The flag of a section that may be written while the program runs (4, Sections).
pub const SHF_WRITE: u32 = 0x1;

/// The flag of a section that has memory while the program runs (4, Sections).
pub const SHF_ALLOC: u32 = 0x2;

/// The flag of a section of machine instructions (4, Sections).
pub const SHF_EXECINSTR: u32 = 0x4;

/// The flag of a section whose bytes are compressed (4, Sections, of later editions than 4.1).
pub const SHF_COMPRESSED: u32 = 0x800;

/// The index of no section: that of a symbol which the file doesn't define (4, Special Section Indexes).
pub const SHN_UNDEF: usize = 0;

/// The first of the reserved indices, which name no section header (4, Special Section Indexes).
pub const SHN_LORESERVE: usize = 0xFF00;

// ---- chapter 4, Symbol Table

/// A symbol's value, a long: in an object its offset in its section (4, Symbol Table).
pub const ST_VALUE: usize = 4;

/// A symbol's binding, in the upper four bits, and its type, in the lower four (4, Symbol Table).
pub const ST_INFO: usize = 12;

/// Which section a symbol is defined in, a half (4, Symbol Table).
pub const ST_SHNDX: usize = 14;

/// How many bytes a symbol has, `Elf32_Sym` (4, Symbol Table).
pub const SYM_SIZE: usize = 16;

/// The binding of a symbol that other objects don't see (4, Symbol Table).
pub const STB_LOCAL: u8 = 0;

/// The binding of a symbol that all objects see (4, Symbol Table).
pub const STB_GLOBAL: u8 = 1;

/// The binding of a global symbol that gives way to another definition (4, Symbol Table).
pub const STB_WEAK: u8 = 2;

/// The type of a symbol that names a source file (4, Symbol Table).
pub const STT_FILE: u8 = 4;

// ---- chapter 4, Relocation, with the supplement's Relocation Types

/// A relocation's symbol, in the upper three bytes, and its type, in the lowest (4, Relocation).
pub const R_INFO: usize = 4;

/// How many bytes a relocation has, `Elf32_Rel` (4, Relocation).
pub const REL_SIZE: usize = 8;

/// The type of a field that takes a symbol's address plus its addend (i386, Relocation Types).
pub const R_386_32: u32 = 1;

/// The type of a field that takes the distance from itself to a symbol plus its addend (i386, Relocation Types).
pub const R_386_PC32: u32 = 2;

// ---- chapter 5, Program Header

/// Where a segment's bytes stand in the file, a long (5, Program Header).
pub const P_OFFSET: usize = 4;

/// A segment's linear address, a long (5, Program Header).
pub const P_VADDR: usize = 8;

/// How many bytes a segment has in the file, a long (5, Program Header).
pub const P_FILESZ: usize = 16;

/// How many bytes a segment has in memory, a long (5, Program Header).
pub const P_MEMSZ: usize = 20;

/// A segment's flags, a long (5, Program Header).
pub const P_FLAGS: usize = 24;

/// How many bytes a program header has, `Elf32_Phdr` (5, Program Header).
pub const PHDR_SIZE: usize = 32;

/// The type of a segment that is loaded (5, Program Header).
pub const PT_LOAD: u32 = 1;

/// The flag of a segment that may be executed (5, Program Header).
pub const PF_X: u32 = 0x1;

/// The flag of a segment that may be written (5, Program Header).
pub const PF_W: u32 = 0x2;

/// The flag of a segment that may be read (5, Program Header).
pub const PF_R: u32 = 0x4;
