// The rows of a relation, out of bytes that are lent.
ghost use Rattle.std.specs.Prelude.{◌≡◌, ◌<◌, ◌^◌, get_or, IfOk};
ghost use Rattle.given_problem.specs.Rows.{row_at, rows_of};

use std::alloc::{AllocError, Global};

// The byte at a place; 0 beyond the last.
fn byte_at(bytes: &[u8], place: usize) -> u8
    ensures { result ≡ get_or bytes.now place 0 }
{
    bytes.get(place).copied().unwrap_or(0)
}

// The row of a number.
fn row_at(bytes: &[u8], row: usize) -> u64
    requires { row < 2 ^ 60 }
    ensures { result ≡ row_at bytes.now row }
{
    let first = row * 8;
    u64::from_le_bytes([
        byte_at(bytes, first),
        byte_at(bytes, first + 1),
        byte_at(bytes, first + 2),
        byte_at(bytes, first + 3),
        byte_at(bytes, first + 4),
        byte_at(bytes, first + 5),
        byte_at(bytes, first + 6),
        byte_at(bytes, first + 7),
    ])
}

// The rows that bytes give.
pub fn rows_of(alloc: Global, bytes: &[u8]) -> Result<Vec<u64>, AllocError>
    ensures { IfOk result (λ rows. rows.items ≡ rows_of bytes.now) }
{
    let mut rows = Vec::new(alloc);
    for row in 0..bytes.len().div_ceil(8) {
        rows.push(row_at(bytes, row))?;
    }
    Ok(rows)
}
