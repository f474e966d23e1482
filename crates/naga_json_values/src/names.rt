//! Names, and tables of them.
ghost use Rattle.std.specs.Prelude.{◌≡◌, map};
ghost use Rattle.naga_json.specs.Names.{row_of};
ghost use Rattle.naga_json.specs.Objects.{find_row};

/// A name and the value that it stands for.
pub(crate) type Row<T> = (&'static str, T);

/// Returns the value of the first row of this name.
pub(crate) fn find_row<T: Copy>(rows: &[Row<T>], name: &str) -> Option<T>
    ensures { result ≡ find_row (map row_of rows.now) name.now }
{
    for row in rows {
        if row.0 == name {
            return Some(row.1);
        }
    }
    None
}
