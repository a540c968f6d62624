//! Texts that are put together from pieces.

ghost use Rattle.std.specs.Prelude.{◌≡◌, ◌-◌, ◌++◌, flat_map, replicate, IfOk};
ghost use Rattle.bohm_explain.specs.Pieces.{cell, hundredths, hundredths_cell};
ghost use Rattle.bohm_explain.specs.Pieces.{left_cell, piece_text};

use bohm_types::NoMemory;
use itoa::{Buffer, Integer};

/// A piece of a text. Columns are right-aligned, but for `Left`. A quotient has two decimals, rounded
/// down, and is 0.00 if the divisor is 0.
#[derive(Clone, Copy, Debug)]
pub enum Piece<'a> {
    /// These bytes.
    Text(&'a [u8]),
    /// These bytes, and a number in decimal.
    Decimal(&'a [u8], u64),
    /// The same.
    Long(&'a [u8], u128),
    /// These bytes, and a number of hundredths with two decimals.
    Hundredths(&'a [u8], u128),
    /// These bytes, and a number divided by another.
    Quotient(&'a [u8], u64, u64),
    /// These bytes in a column of this width.
    Right(usize, &'a [u8]),
    /// The same, left-aligned.
    Left(usize, &'a [u8]),
    /// A number in decimal, in a column of this width.
    Number(usize, u64),
    /// A number divided by another, in a column of this width.
    Share(usize, u64, u64),
}

/// Appends the blanks that fill a column after a text of `written` bytes.
fn put_blanks(out: &mut Vec<u8>, width: usize, written: usize) -> Result<(), NoMemory>
    ensures { IfOk result (λ _. out.new.items ≡ out.old.items ++ replicate (width - written) 32) }
{
    let mut column = written;
    'pads: while column < width {
        out.push(b' ')?;
        column += 1;
    }
    Ok(())
}

/// Appends a text, right-aligned in a column.
fn put_right(out: &mut Vec<u8>, width: usize, text: &[u8]) -> Result<(), NoMemory>
    ensures { IfOk result (λ _. out.new.items ≡ out.old.items ++ cell width text.now) }
{
    put_blanks(out, width, text.len())?;
    out.extend_from_slice(text)?;
    Ok(())
}

/// Appends a number of hundredths with two decimals, right-aligned in a column.
fn put_hundredths(out: &mut Vec<u8>, width: usize, hundredths: u128) -> Result<(), NoMemory>
    ensures { IfOk result (λ _. out.new.items
        ≡ out.old.items ++ hundredths_cell width hundredths) }
{
    let mut buffer = Buffer::new();
    let whole = buffer.format(hundredths / 100).as_bytes();
    put_right(out, width.saturating_sub(3), whole)?;
    out.push(b'.')?;
    out.push(b'0' + (hundredths / 10 % 10) as u8)?;
    out.push(b'0' + (hundredths % 10) as u8)?;
    Ok(())
}

/// A quotient in hundredths, rounded down, or 0 if the divisor is 0.
fn hundredths(number: u64, divisor: u64) -> u128
    ensures { result ≡ hundredths number divisor }
{
    if divisor == 0 {
        return 0;
    }
    u128::from(number) * 100 / u128::from(divisor)
}

/// Appends a text, left-aligned in a column.
fn put_left(out: &mut Vec<u8>, width: usize, text: &[u8]) -> Result<(), NoMemory>
    ensures { IfOk result (λ _. out.new.items ≡ out.old.items ++ left_cell width text.now) }
{
    out.extend_from_slice(text)?;
    put_blanks(out, width, text.len())
}

/// Appends a text and a number in decimal.
fn put_number<I: Integer>(out: &mut Vec<u8>, text: &[u8], number: I) -> Result<(), NoMemory>
    ensures { IfOk result
        (λ _. out.new.items ≡ out.old.items ++ (text.now ++ I.text number)) }
{
    out.extend_from_slice(text)?;
    out.extend_from_slice(Buffer::new().format(number).as_bytes())?;
    Ok(())
}

/// Appends a text and a number of hundredths.
fn put_parts(out: &mut Vec<u8>, text: &[u8], hundredths: u128) -> Result<(), NoMemory>
    ensures { IfOk result (λ _. out.new.items
        ≡ out.old.items ++ (text.now ++ hundredths_cell 0 hundredths)) }
{
    out.extend_from_slice(text)?;
    put_hundredths(out, 0, hundredths)
}

/// Appends a piece.
fn put_piece(out: &mut Vec<u8>, piece: Piece<'_>) -> Result<(), NoMemory>
    ensures { IfOk result (λ _. out.new.items ≡ out.old.items ++ piece_text piece.entry) }
{
    match piece {
        Piece::Text(text) => Ok(out.extend_from_slice(text)?),
        Piece::Decimal(text, number) => put_number(out, text, number),
        Piece::Long(text, number) => put_number(out, text, number),
        Piece::Hundredths(text, number) => put_parts(out, text, number),
        Piece::Quotient(text, number, divisor) => {
            put_parts(out, text, hundredths(number, divisor))
        }
        Piece::Right(width, text) => put_right(out, width, text),
        Piece::Left(width, text) => put_left(out, width, text),
        Piece::Number(width, number) => {
            put_right(out, width, Buffer::new().format(number).as_bytes())
        }
        Piece::Share(width, number, divisor) => {
            put_hundredths(out, width, hundredths(number, divisor))
        }
    }
}

/// Appends pieces.
pub fn put(out: &mut Vec<u8>, pieces: &[Piece<'_>]) -> Result<(), NoMemory>
    ensures { IfOk result (λ _. out.new.items ≡ out.old.items ++ flat_map piece_text pieces.now) }
{
    for piece in pieces {
        put_piece(out, *piece)?;
    }
    Ok(())
}
