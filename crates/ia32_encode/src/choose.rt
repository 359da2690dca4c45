//! `encode`: the chosen spelling of an instruction.

ghost use Rattle.std.specs.Prelude.{◌≡◌, ◌↔◌, ◌==◌, ◌&&◌, ◌||◌, not, ℕ, List, take, IsTrue, Option, Some, None, OnOk, OnErr, IfOk, MatchResult, IsErr};
ghost use Rattle.ia32_rows.specs.Fields.{imm_len};
ghost use Rattle.ia32_rows.specs.Spelling.{insn_of};
ghost use Rattle.ia32_rows.specs.Rows.{rows};
ghost use Rattle.ia32_rows.specs.Spells.{AreBytes};
ghost use Rattle.ia32_encode.specs.Parts.{parts_for};
ghost use Rattle.ia32_encode.specs.Chosen.{chosen};
ghost use Rattle.ia32_encode.specs.Good.{SpellsWide, IsReadBack, Suits, NoneSuits, IsChosen, IsPlaced};

use crate::bytes::ArrayBytes;
use crate::parts::{fits, parts};
use crate::text::text;
use ia32_rows::{Immediate, Parts, ROWS, Row, instruction};
use ia32_types::{Insn, same_insn};
use thiserror::Error;

/// Which fields name a symbol, and so have four bytes.
#[derive(Clone, Copy)]
pub struct Wide {
    pub disp: bool,
    pub imm: bool,
}

/// No row spells the instruction with these widths.
#[derive(Clone, Copy, Debug, PartialEq, Eq, Error)]
#[error("no row spells the instruction with these widths")]
pub struct NoForm;

/// Whether the row is of an instruction of this name. No other row has it, with any parts.
fn is_of(row: &Row, insn: &Insn) -> bool
    ensures { IsTrue result ↔ (row.now.op ≡ insn.now.op) }
{
    row.op == insn.op
}

fn immediate_is_long(row: &Row) -> bool
    ensures { result ≡ imm_len row.now.form.immediate == 4 }
{
    matches!(&row.form.immediate, Immediate::Long | Immediate::Far)
}

fn fits_widths(wide: Wide, disp_len: u8, imm_is_long: bool) -> bool
    ensures { result ≡ ((not wide.disp || disp_len == 4) && (not wide.imm || imm_is_long)) }
{
    (!wide.disp || disp_len == 4) && (!wide.imm || imm_is_long)
}

fn means(row: &Row, parts: &Parts, insn: &Insn) -> bool
    ensures { IsTrue result ↔ (insn_of row.now parts.now ≡ insn.now) }
{
    same_insn(&instruction(row, parts), insn)
}

fn all_three(means: bool, fits: bool, fits_widths: bool) -> bool
    ensures { result ≡ (means && fits && fits_widths) }
{
    means && fits && fits_widths
}

/// Whether the row has the instruction with these parts, which are those that it has in the row, in
/// these widths.
fn suits(row: &Row, wide: Wide, insn: &Insn, parts: &Parts) -> bool
    requires { parts.now ≡ parts_for row.now wide.disp insn.now }
    ensures { IsTrue result ↔ Suits row.now wide insn.now }
{
    let means = means(row, parts, insn);
    let fits = fits(&row.form, parts);
    all_three(
        means,
        fits,
        fits_widths(wide, parts.disp_len, immediate_is_long(row)),
    )
}

/// The chosen spelling: that of the first row that suits the instruction.
fn choose(table: &[Row], insn: &Insn, wide: Wide) -> Result<ArrayBytes, NoForm>
    requires { table.now ≡ rows }
    ensures { MatchResult result (λ chosen. IsChosen wide insn.now chosen × AreBytes chosen.bytes) (λ _. NoneSuits wide insn.now) }
{
    for row in table {
        if !is_of(row, insn) {
            continue;
        }
        let parts = parts(row, wide.disp, insn);
        if suits(row, wide, insn, &parts) {
            return Ok(text(&row.form, &parts));
        }
    }
    Err(NoForm)
}

#[tactic(auto, unfolding(ia32_rows::specs::Rows::rows))]
fn choose_row(insn: &Insn, wide: Wide) -> Result<ArrayBytes, NoForm>
    ensures { MatchResult result (λ chosen. IsChosen wide insn.now chosen × AreBytes chosen.bytes) (λ _. NoneSuits wide insn.now) }
{
    choose(&ROWS, insn, wide)
}

/// Replaces `into` by the chosen spelling of the instruction, and answers its length.
pub fn encode(insn: &Insn, wide: Wide, into: &mut ArrayBytes) -> Result<u8, NoForm>
    ensures chosen { OnOk result (IsChosen wide insn.now into.new) }
    // The answer is this function of the instruction and the widths.
    ensures exact { MatchResult result (λ _. chosen wide insn.now ≡ Some into.new) (λ _. chosen wide insn.now ≡ None) }
    // It has one to eleven bytes, and those of what names a symbol are among them.
    ensures placed { OnOk result (IsPlaced wide into.new) }
    ensures len { IfOk result (λ n. n ≡ into.new.len) }
    // The bytes spell the instruction, with four bytes for what names a symbol.
    ensures spells { IfOk result (λ n. SpellsWide wide (take n into.new.bytes) insn.now) }
    ensures read_back { IfOk result (λ n. IsReadBack (take n into.new.bytes) insn.now n) }
    // No bytes spell it in these widths.
    ensures no_form { IsErr result ↔ ((bytes : List ℕ) → SpellsWide wide bytes insn.now → ⊥) }
    ensures unchanged { OnErr result (into.new ≡ into.old) }
{
    match choose_row(insn, wide) {
        Ok(chosen) => {
            *into = chosen;
            Ok(chosen.len)
        }
        Err(NoForm) => Err(NoForm),
    }
}
