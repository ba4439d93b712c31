//! The names of quorum tables in a script.
ghost use Rattle.std.specs.Prelude.{◌≡◌};
ghost use Rattle.mb_script.specs.Tables.{table_named};

use mb_quorum::TableName;

/// The table of this name, which is `unary`, `bits` or `middle`. For any other word it is `None`.
pub fn table_named(word: &str) -> Option<TableName>
    ensures { result ≡ table_named word.now }
{
    match word {
        "unary" => Some(TableName::Unary),
        "bits" => Some(TableName::Bits),
        "middle" => Some(TableName::Middle),
        _ => None,
    }
}
