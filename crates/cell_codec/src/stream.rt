ghost use Rattle.std.specs.Prelude.{◌≡◌, ◌++◌, ◌≤◌, [], length, map, IfOk, IfSome, IfNone, OnOk, OnErr, MatchOption, ◌<◌, Some, None, All, true, false, if◌then◌else◌};
ghost use Rattle.tor_spec.specs.CellReading.{cell_size, cell_of, cell_at, first_at, wrong_start, with_cell, later_reading, first_reading};
ghost use Rattle.cell_codec.specs.Cells.{wire_cell, IsWellFormed};
ghost use Rattle.cell_codec.specs.Decoding.{ReadsCells, IsCutOff};

use crate::cell::Cell;
use crate::list::List;
use crate::reader::{read_cell, read_first};
use crate::sizes::{size_of_cell, size_of_first};
use std::alloc::{AllocError, Global};

/// The bytes of the cell that `bytes` begin with, if it ends in them, and those behind it.
#[tactic(auto, using(tor_spec::proofs::CellCuts::cell_ended, tor_spec::proofs::CellCuts::cell_untold))]
fn split_cell(bytes: &[u8]) -> Option<(&[u8], &[u8])>
    ensures at { MatchOption result (cell_at bytes.now ≡ None) (λ x. cell_at bytes.now ≡ Some (cell_of x.0.now, x.1.now)) }
    ensures size { IfSome result (λ x. cell_size x.0.now ≡ Some (length x.0.now)) }
    ensures shorter { IfSome result (λ x. length x.1.now < length bytes.now) }
{
    let size = size_of_cell(&[], bytes)?;
    if size <= bytes.len() {
        Some(bytes.split_at(size))
    } else {
        None
    }
}

/// Reads the cells that end in `bytes` to the end of `cells`, and gives the bytes behind them.
fn read_cells<'a>(
    alloc: Global,
    bytes: &'a [u8],
    cells: &mut List<Cell>,
) -> Result<&'a [u8], AllocError>
    ensures cells { OnOk result (map wire_cell cells.new.items ≡ map wire_cell cells.old.items ++ (later_reading bytes.now).cells) }
    ensures left { IfOk result (λ rest. (later_reading bytes.now).left.bytes ≡ rest.now) }
    ensures well_formed { All IsWellFormed cells.old.items → All IsWellFormed cells.new.items }
{
    let mut rest_bytes = bytes;
    while let Some((cell, tail)) = split_cell(rest_bytes) {
        cells.push(read_cell(alloc, cell)?)?;
        rest_bytes = tail;
    }
    Ok(rest_bytes)
}

/// `rest` and then `piece`.
fn concat(alloc: Global, rest: &[u8], piece: &[u8]) -> Result<Vec<u8>, AllocError>
    ensures { IfOk result (λ v. v.items ≡ rest.now ++ piece.now) }
{
    let mut bytes = Vec::with_capacity(alloc, rest.len() + piece.len())?;
    bytes.extend_from_slice(rest)?;
    bytes.extend_from_slice(piece)?;
    Ok(bytes)
}

/// The cell whose bytes are those of `rest` and then `last`.
fn finish_cell(alloc: Global, rest: &[u8], last: &[u8]) -> Result<Cell, AllocError>
    requires { cell_size (rest.now ++ last.now) ≡ Some (length (rest.now ++ last.now)) }
    ensures cell { IfOk result (λ c. wire_cell c ≡ cell_of (rest.now ++ last.now)) }
    ensures well_formed { IfOk result IsWellFormed }
{
    if rest.is_empty() {
        return read_cell(alloc, last);
    }
    let bytes = concat(alloc, rest, last)?;
    read_cell(alloc, bytes.as_slice())
}

/// This cell and those that end in `tail`, and the bytes behind them all.
fn read_behind(alloc: Global, first: Cell, tail: &[u8]) -> Result<(List<Cell>, &[u8]), AllocError>
    requires { IsWellFormed first }
    ensures { IfOk result (λ x. ReadsCells (with_cell (wire_cell first) (later_reading tail.now)) x.0.items x.1.now) }
{
    let mut cells = List::new(alloc);
    cells.push(first)?;
    let rest_bytes = read_cells(alloc, tail, &mut cells)?;
    Ok((cells, rest_bytes))
}

/// The last bytes, which stand in `piece`, of a cell of `size` bytes that began in `rest`, and those
/// behind it.
fn cut_off<'a>(rest: &[u8], piece: &'a [u8], size: usize) -> (&'a [u8], &'a [u8])
    requires begun { length rest.now ≤ size }
    requires ended { size ≤ length (rest.now ++ piece.now) }
    ensures { IsCutOff rest.now piece.now result.0.now result.1.now size }
{
    piece.split_at(size - rest.len())
}

/// What `piece` adds to an open link that has `rest` unread: the cells that end in it and the
/// bytes behind them, or nothing where none ends.
pub fn read_open<'a>(
    alloc: Global,
    rest: &[u8],
    piece: &'a [u8],
) -> Result<Option<(List<Cell>, &'a [u8])>, AllocError>
    requires { cell_at rest.now ≡ None }
    ensures { IfOk result
        (λ found. MatchOption found (cell_at (rest.now ++ piece.now) ≡ None)
        (λ x. ReadsCells (later_reading (rest.now ++ piece.now)) x.0.items x.1.now)) }
{
    let Some(size) = size_of_cell(rest, piece) else {
        return Ok(None);
    };
    if rest.len() + piece.len() < size {
        return Ok(None);
    }
    let (last, tail) = cut_off(rest, piece, size);
    let first = finish_cell(alloc, rest, last)?;
    Ok(Some(read_behind(alloc, first, tail)?))
}

/// The same for a link whose first cell hasn't ended.
pub fn read_opening<'a>(
    alloc: Global,
    rest: &[u8],
    piece: &'a [u8],
) -> Result<Option<(List<Cell>, &'a [u8])>, AllocError>
    requires first { first_at rest.now ≡ None }
    requires start { wrong_start (rest.now ++ piece.now) ≡ None }
    ensures { IfOk result
        (λ found. MatchOption found (first_at (rest.now ++ piece.now) ≡ None)
        (λ x. ReadsCells (first_reading (rest.now ++ piece.now)) x.0.items x.1.now)) }
{
    let Some(size) = size_of_first(rest, piece) else {
        return Ok(None);
    };
    if rest.len() + piece.len() < size {
        return Ok(None);
    }
    let (last, tail) = cut_off(rest, piece, size);
    let bytes = concat(alloc, rest, last)?;
    let first = read_first(alloc, bytes.as_slice())?;
    Ok(Some(read_behind(alloc, first, tail)?))
}

/// Puts `new_rest` in the place of what is kept.
fn replace(store: &mut Vec<u8>, new_rest: &[u8]) -> Result<(), AllocError>
    ensures ok { OnOk result (store.new.items ≡ new_rest.now) }
    ensures err { OnErr result (store.new.items ≡ store.old.items) }
{
    if new_rest.len() > store.len() {
        store.reserve(new_rest.len() - store.len())?;
    }
    store.clear();
    store.extend_from_slice(new_rest)
}

/// Reads a further piece of an open link, of which `rest` is unread.
pub fn feed_open(alloc: Global, rest: &mut Vec<u8>, piece: &[u8]) -> Result<List<Cell>, AllocError>
    requires { cell_at rest.old.items ≡ None }
    ensures ok { IfOk result (λ cells. ReadsCells (later_reading (rest.old.items ++ piece.now)) cells.items rest.new.items) }
    ensures err { OnErr result (rest.new.items ≡ rest.old.items) }
{
    match read_open(alloc, rest.as_slice(), piece)? {
        Some((cells, new_rest)) => {
            replace(rest, new_rest)?;
            Ok(cells)
        }
        None => {
            rest.extend_from_slice(piece)?;
            Ok(List::new(alloc))
        }
    }
}

/// The same for a link whose first cell hasn't ended, and `None` where it hasn't ended yet.
pub fn feed_opening(
    alloc: Global,
    rest: &mut Vec<u8>,
    piece: &[u8],
) -> Result<Option<List<Cell>>, AllocError>
    requires first { first_at rest.old.items ≡ None }
    requires start { wrong_start (rest.old.items ++ piece.now) ≡ None }
    ensures opened { IfOk result
        (λ found. IfSome found (λ cells. ReadsCells (first_reading (rest.old.items ++ piece.now)) cells.items rest.new.items)) }
    ensures opening { IfOk result (λ found. IfNone found ((rest.new.items ≡ rest.old.items ++ piece.now) × (first_at rest.new.items ≡ None))) }
    ensures err { OnErr result (rest.new.items ≡ rest.old.items) }
{
    match read_opening(alloc, rest.as_slice(), piece)? {
        Some((cells, new_rest)) => {
            replace(rest, new_rest)?;
            Ok(Some(cells))
        }
        None => {
            rest.extend_from_slice(piece)?;
            Ok(None)
        }
    }
}
