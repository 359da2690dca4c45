//! The opcode table: one row for each form of an instruction, what bytes spell an instruction by it,
//! and the laws of these spellings.
#![tactic(auto)]

mod fitting;
mod laws;
mod meaning;
mod row;
mod table;

pub use fitting::{fits_code, fits_place, fits_slash};
pub use laws::{
    done_by_registers, in_pieces, lengths, one_meaning, operands_fit, prefix_free, same_table,
    shapes, site_kinds,
};
pub use meaning::{instruction, put_instruction};
pub use row::{
    Addressing, Base, Form, Immediate, Lead, Located, Miss, Modrm, Operands, Parts, Plus,
    RefusedRow, RmForm, Row, Slash,
};
pub use table::{REFUSED_ROWS, ROWS};
