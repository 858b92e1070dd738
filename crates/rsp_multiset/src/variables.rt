// Rows by their variables.
ghost use Rattle.std.specs.Prelude.{◌≡◌, ℕ, nat_eq, false, if◌then◌else◌, None, IfOk};
ghost use Rattle.rsp_multiset.specs.Variables.{row_by, cell, among, extension, projection, cells_at};

use crate::row::share_cell;
use crate::{Cell, Row};
use std::alloc::{AllocError, Global};

impl<V: Cell> Row<V> {
    ghost use Rattle.std.specs.Prelude.{◌≡◌, None, IfOk};
    ghost use Rattle.rsp_multiset.specs.Variables.{row_by, extension, projection, cells_at};

    /// The row of this width that binds nothing. Fails only where memory is refused.
    pub fn unbound(alloc: Global, width: usize) -> Result<Row<V>, AllocError>
        ensures { IfOk result (λ row. row ≡ row_by width (λ _. None)) }
    {
        let cells = unbound_cells(alloc, width)?;
        Ok(Row { cells })
    }

    /// The row of this width with all variables but these unbound (SPARQL 1.1 Query, section 18.5, Project). Fails only
    /// where memory is refused.
    pub fn projected(&self, width: usize, variables: &[usize]) -> Result<Row<V>, AllocError>
        ensures { IfOk result (λ row. row ≡ projection width variables.now self.now) }
    {
        let cells = projected_cells(*self.cells.allocator(), width, variables, self.cells())?;
        Ok(Row { cells })
    }

    /// The row of this width with the value for the variable, whatever was bound there (SPARQL 1.1 Query, section 18.5,
    /// Extend). Fails only where memory is refused.
    pub fn extended(
        &self,
        width: usize,
        variable: usize,
        value: &Option<V>,
    ) -> Result<Row<V>, AllocError>
        ensures { IfOk result (λ row. row ≡ extension width variable value.now self.now) }
    {
        let cells = extended_cells(
            *self.cells.allocator(),
            width,
            variable,
            value,
            self.cells(),
        )?;
        Ok(Row { cells })
    }

    /// The row's cells for these variables, in their order. Fails only where memory is refused.
    pub fn cells_at(&self, variables: &[usize]) -> Result<Row<V>, AllocError>
        ensures { IfOk result (λ row. row ≡ cells_at variables.now self.now) }
    {
        let cells = chosen_cells(*self.cells.allocator(), variables, self.cells())?;
        Ok(Row { cells })
    }

    /// The row's cells for these variables, in their order. The row gives them away: only the cell of a variable that stands here
    /// more than once is shared. Fails only where memory is refused.
    pub fn into_cells_at(self, variables: &[usize]) -> Result<Row<V>, AllocError>
        ensures { IfOk result (λ row. row ≡ cells_at variables.now self) }
    {
        let cells = moved_cells(self.into_cells(), variables)?;
        Ok(Row { cells })
    }
}

fn unbound_cells<V: Cell>(alloc: Global, width: usize) -> Result<Vec<Option<V>>, AllocError>
    ensures { IfOk result (λ cells. cells.items ≡ row_by width (λ _. None)) }
{
    let mut cells = Vec::with_capacity(alloc, width)?;
    for _variable in 0..width {
        cells.push(None)?;
    }
    Ok(cells)
}

fn projected_cells<V: Cell>(
    alloc: Global,
    width: usize,
    variables: &[usize],
    row: &[Option<V>],
) -> Result<Vec<Option<V>>, AllocError>
    ensures { IfOk result (λ cells. cells.items ≡ projection width variables.now row.now) }
{
    let mut cells = Vec::with_capacity(alloc, width)?;
    for variable in 0..width {
        cells.push(projected_cell(variables, row, variable)?)?;
    }
    Ok(cells)
}

// what the row binds the variable to, if the variable is among those that are kept
fn projected_cell<V: Cell>(
    variables: &[usize],
    row: &[Option<V>],
    variable: usize,
) -> Result<Option<V>, AllocError>
    ensures { IfOk result (λ made. made ≡ (if among variables.now variable then cell row.now variable else None)) }
{
    if variables.contains(&variable) {
        cell_at(row, variable)
    } else {
        Ok(None)
    }
}

fn extended_cells<V: Cell>(
    alloc: Global,
    width: usize,
    variable: usize,
    value: &Option<V>,
    row: &[Option<V>],
) -> Result<Vec<Option<V>>, AllocError>
    ensures { IfOk result (λ cells. cells.items ≡ extension width variable value.now row.now) }
{
    let mut cells = Vec::with_capacity(alloc, width)?;
    for place in 0..width {
        cells.push(extended_cell(row, place, variable, value)?)?;
    }
    Ok(cells)
}

fn extended_cell<V: Cell>(
    row: &[Option<V>],
    place: usize,
    variable: usize,
    value: &Option<V>,
) -> Result<Option<V>, AllocError>
    ensures { IfOk result (λ made. made ≡ (if nat_eq place variable then value.now else cell row.now place)) }
{
    if place == variable {
        share_cell(value)
    } else {
        cell_at(row, place)
    }
}

fn chosen_cells<V: Cell>(
    alloc: Global,
    variables: &[usize],
    row: &[Option<V>],
) -> Result<Vec<Option<V>>, AllocError>
    ensures { IfOk result (λ cells. cells.items ≡ cells_at variables.now row.now) }
{
    let mut cells = Vec::with_capacity(alloc, variables.len())?;
    for variable in variables {
        cells.push(cell_at(row, *variable)?)?;
    }
    Ok(cells)
}

// what the row binds the variable to; nothing past its width
fn cell_at<V: Cell>(row: &[Option<V>], variable: usize) -> Result<Option<V>, AllocError>
    ensures { IfOk result (λ made. made ≡ cell row.now variable) }
{
    match row.get(variable) {
        Some(Some(value)) => Ok(Some(value.share()?)),
        _ => Ok(None),
    }
}

fn moved_cells<V: Cell>(
    mut row: Vec<Option<V>>,
    variables: &[usize],
) -> Result<Vec<Option<V>>, AllocError>
    ensures { IfOk result (λ cells. cells.items ≡ cells_at variables.now row.items) }
{
    let mut cells = Vec::with_capacity(*row.allocator(), variables.len())?;
    for index in 0..variables.len() {
        let later = &variables[index + 1..];
        cells.push(moved_cell(&mut row, variables[index], later)?)?;
    }
    Ok(cells)
}

// what the row binds the variable to: given away, unless a later one is the same
fn moved_cell<V: Cell>(
    row: &mut Vec<Option<V>>,
    variable: usize,
    later: &[usize],
) -> Result<Option<V>, AllocError>
    ensures cell { IfOk result (λ made. made ≡ cell row.old.items variable) }
    ensures later { cells_at later.now row.new.items ≡ cells_at later.now row.old.items }
{
    if later.contains(&variable) {
        cell_at(row.as_slice(), variable)
    } else {
        Ok(taken_cell(row, variable))
    }
}

// takes out what the row binds the variable to
fn taken_cell<V: Cell>(row: &mut Vec<Option<V>>, variable: usize) -> Option<V>
    ensures cell { result ≡ cell row.old.items variable }
    ensures others { (v : ℕ) → nat_eq v variable ≡ false → cell row.new.items v ≡ cell row.old.items v }
{
    if variable < row.len() {
        row[variable].take()
    } else {
        None
    }
}
