//! A table of agents.
ghost use Rattle.std.specs.Prelude.{◌≡◌, ◌++◌, OnOk, codes, replicate};
ghost use Rattle.std.specs.List.{flat_map};
ghost use Rattle.agent_line.specs.Table.{no_widths, padded, row_text, table_text, wider, widths_of};

use crate::cells::{Cell, Cells};
use std::alloc::AllocError;

/// How wide the columns are, in characters, but for the last one, which ends its line.
#[derive(Clone, Copy)]
pub struct Widths {
    pub name: usize,
    pub class: usize,
    pub ended: usize,
    pub count: usize,
}

/// Adds a line for each row, with columns that are as wide as their widest cells, and two blanks between two.
pub fn push_table(out: &mut Vec<u8>, rows: &[Cells]) -> Result<(), AllocError>
    ensures { OnOk result (out.new.items ≡ out.old.items ++ table_text rows.now) }
{
    push_rows(out, widths_of(rows), rows)
}

#[tactic(auto, using(std::proofs::lemmas::List::Sums::fold_more))]
fn widths_of(rows: &[Cells]) -> Widths
    ensures { result ≡ widths_of rows.now }
{
    let mut widths = Widths {
        name: 0,
        class: 0,
        ended: 0,
        count: 0,
    };
    for cells in rows {
        widths = wider(widths, cells);
    }
    widths
}

fn wider(widths: Widths, cells: &Cells) -> Widths
    ensures { result ≡ wider widths cells.now }
{
    Widths {
        name: widths.name.max(cells.name.width),
        class: widths.class.max(cells.class.width),
        ended: widths.ended.max(cells.ended.width),
        count: widths.count.max(cells.count.width),
    }
}

#[tactic(auto, using(std::proofs::lemmas::List::flat_map_more))]
fn push_rows(out: &mut Vec<u8>, widths: Widths, rows: &[Cells]) -> Result<(), AllocError>
    ensures { OnOk result (out.new.items ≡ out.old.items ++ flat_map (row_text widths) rows.now) }
{
    for cells in rows {
        push_row(out, widths, cells)?;
    }
    Ok(())
}

#[tactic(auto, unfolding(crate::specs::Table::row_text))]
fn push_row(out: &mut Vec<u8>, widths: Widths, cells: &Cells) -> Result<(), AllocError>
    ensures { OnOk result (out.new.items ≡ out.old.items ++ row_text widths cells.now) }
{
    push_padded(out, widths.name, &cells.name)?;
    push_padded(out, widths.class, &cells.class)?;
    push_padded(out, widths.ended, &cells.ended)?;
    push_padded(out, widths.count, &cells.count)?;
    out.extend_from_slice(cells.unmet.text.as_slice())?;
    out.extend_from_slice(b"\n")
}

#[tactic(auto, unfolding(crate::specs::Table::padded))]
fn push_padded(out: &mut Vec<u8>, width: usize, cell: &Cell) -> Result<(), AllocError>
    ensures { OnOk result (out.new.items ≡ out.old.items ++ padded width cell.now) }
{
    out.extend_from_slice(cell.text.as_slice())?;
    push_blanks(out, width.saturating_sub(cell.width))?;
    out.extend_from_slice(b"  ")
}

fn push_blanks(out: &mut Vec<u8>, count: usize) -> Result<(), AllocError>
    ensures { OnOk result (out.new.items ≡ out.old.items ++ replicate count 32) }
{
    let blanks = vec![in *out.allocator(); b' '; count]?;
    out.extend_from_slice(&blanks)
}
